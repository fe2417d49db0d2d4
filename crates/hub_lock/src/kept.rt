// What the value under the turn means.
ghost use Rattle.std.specs.Prelude.{List, []};
ghost use Rattle.hub_lock.specs.Merge.{IsMerged};

/// A value with a journal. `opening` is what it was made from, and stays the same.
///
/// `rule` says which lists of entries a seat may have as its own. It holds of no entries, and of two such lists merged in any order.
pub trait Kept: Drop {
    type Opening;

    type Entry;

    ghost opening: { Self → Self.Opening };

    ghost journal: { Self → List Self.Entry };

    ghost rule: { List Self.Entry → Type 0 };

    ghost empty: { rule [] };

    ghost merged: { (zs xs ys : List Self.Entry) → IsMerged zs xs ys → rule xs → rule ys → rule zs };
}
