//! The modules of a guest, as whoever answers its calls keeps them: laws.
//!
//! It stands on the definitions of `guest_proc`. The layer above uses: what a process keeps of its modules (`AreHosted`)
//! each call on it keeps, and it gives what `unplace` asks for; and what a block is attached or offered to is the image of
//! its segment.
#![tactic(auto)]

pub mod laws;
