//! What system calls, placings and unplacings do to the regions of a memory, and to the code in it.
//!
//! It has laws over the plain machine's definitions, and no code of its own; it stands on `plain_machine` and, for the
//! words in which a change of code is told, on `engine`. The layer above, a process, uses `laws`: a call keeps every
//! region but the heap's, and all code but what a read overwrote; a program that was placed stands, with its code.
#![tactic(auto)]

pub mod laws;
