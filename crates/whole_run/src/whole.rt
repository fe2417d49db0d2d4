// What a whole run tells.
ghost use Rattle.std.specs.Prelude.{◌≡◌};

use guest_loop::Ran;
use publish::{Loaded, Pub};
use registry::Entry;
use std::marker::Model;

/// How each slot was loaded, in order; the guests, in order; the journal of all calls; and the publications, in order.
#[derive(Drop)]
pub struct Whole {
    pub loads: Vec<Loaded>,
    pub rans: Vec<Ran>,
    pub journal: Vec<Entry>,
    pub served: Vec<Pub>,
}

impl Model for Whole {
    ghost use Rattle.whole_run.specs.Whole.{Whole as WholeParts};
    ghost use Rattle.whole_run.specs.Code.{whole_code};

    ghost Value = { WholeParts };

    ghost coded = { whole_code };

    ghost view = { λ w. record { loads = w.loads.items; rans = w.rans.items; journal = w.journal.items; served = w.served.items } };
}
