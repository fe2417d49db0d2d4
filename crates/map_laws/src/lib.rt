//! How map calls, a full pool and the end of a guest join the run of its process, and what is asked meanwhile: laws.
//!
//! It stands on the definitions of `guest_proc` and `block_ledger`. The layer above uses: a stop at a map call waits for its
//! answer, and with it the run goes on (`Goes`); a run behind a full pool goes on once room was made; and a run that was
//! answered as its own requests say is, at its end, the plain run of the guest, with its ledger and requests (`IsRunBy`).
#![tactic(auto)]

pub mod laws;
