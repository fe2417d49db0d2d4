// How a call of the host ended.
ghost use Rattle.std.specs.Prelude.{◌≡◌};

use guest_loop::GuestEnd;
use host_text::Cause;
use publish::{Loaded, Pub};
use registry::Entry;
use std::marker::Model;

/// How a call ended: its exit status and why; and of a run how each slot was loaded, how each guest ended, the journal of all
/// calls, and the publications, each in order. Where nothing was run these are empty.
#[derive(Drop)]
pub struct Ended {
    pub status: u8,
    pub cause: Cause,
    pub loads: Vec<Loaded>,
    pub guests: Vec<GuestEnd>,
    pub journal: Vec<Entry>,
    pub served: Vec<Pub>,
}

impl Model for Ended {
    ghost use Rattle.host.specs.Ended.{Ended as EndedParts};

    ghost Value = { EndedParts };

    ghost view = { λ e. record { status = e.status; cause = e.cause; lists = record { loads = e.loads.items; guests = e.guests.items; journal = e.journal.items; served = e.served.items } } };
}
