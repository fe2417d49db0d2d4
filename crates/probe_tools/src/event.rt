/// What a probe sees. It runs before its word, also where the word then faults.
#[derive(Clone, Copy, Debug, PartialEq, Eq)]
pub enum Event {
    /// The block at the address `at` begins.
    Block {
        at: u32,
    },
    /// The word at the address `at` calls the address `to`.
    Call {
        at: u32,
        to: u32,
    },
    /// The word at the address `at` loads, or stores, `size` bytes from the address `addr` on.
    Mem {
        at: u32,
        addr: u32,
        size: u8,
        store: bool,
    },
}
