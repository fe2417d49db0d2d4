// Names in order, each once.
ghost use Rattle.std.specs.Prelude.{◌≡◌, ◌<◌, ◌++◌, ◌∷◌, [], not, length, if◌then◌else◌, IfOk, IfSome, OnOk};
ghost use Rattle.manifest.specs.Names.{place_of, is_among};

use cc_base::Name;
use indexmap::IndexSet;
use std::alloc::{AllocError, Global};
use std::marker::Model;

/// Names in order, each once. The number of a name is its place.
#[derive(Drop)]
pub struct NameTable {
    names: IndexSet<Vec<u8>>,
}

impl Model for NameTable {
    ghost use Rattle.std.specs.Prelude.{List, ℕ, map};

    ghost Value = { List (List ℕ) };

    ghost view = { λ t. map (λ n. n.items) t.names.keys };
}

impl NameTable {
    /// No names.
    pub fn new(alloc: Global) -> NameTable
        ensures { result ≡ [] }
    {
        NameTable {
            names: IndexSet::new(alloc),
        }
    }

    /// Appends a name, unless it is there. Answers whether it was new.
    pub fn add(&mut self, alloc: Global, name: &[u8]) -> Result<bool, AllocError>
        ensures new { IfOk result (λ new. new ≡ not (is_among name.now self.old)) }
        ensures names { IfOk result (λ new. self.new ≡ (if new then self.old ++ name.now ∷ [] else self.old)) }
    {
        let kept = Vec::from_slice(alloc, name)?;
        Ok(self.names.insert(kept)?)
    }

    /// Whether a name is there.
    pub fn has(&self, name: &[u8]) -> bool
        ensures { result ≡ is_among name.now self.now }
    {
        self.names.contains(name)
    }

    /// The number of a name.
    pub fn place_of(&self, name: &[u8]) -> Option<usize>
        ensures place { result ≡ place_of name.now self.now }
        ensures within { IfSome result (λ i. i < length self.now) }
    {
        self.names.get_index_of(name)
    }

    /// The names, in order.
    pub fn to_names(&self, alloc: Global) -> Result<Vec<Name>, AllocError>
        ensures { IfOk result (λ v. v.items ≡ self.now) }
    {
        let mut names = Vec::new(alloc);
        for name in self.names.as_slice() {
            names.push(Name::of(alloc, name)?)?;
        }
        Ok(names)
    }
}
