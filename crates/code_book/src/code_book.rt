// The book of a process.
ghost use Rattle.code_book.specs.Book.{book, IsKept};

use block_book::Counts;
use code_writes::Covers;
use exit_links::Links;
use frag_table::FragTable;
use merge_pass::Segments;
use std::alloc::Global;

/// The live blocks of a process by place, their links, and what a write meets.
#[derive(Drop)]
pub struct CodeBook {
    pub(crate) alloc: Global,
    pub(crate) segments: Segments,
    pub(crate) places: FragTable,
    pub(crate) links: Links,
    pub(crate) covers: Covers,
    pub(crate) block: u32,
    pub(crate) here: Option<u32>,
    pub(crate) left: Option<u8>,
    pub(crate) own: u64,
    // Where blocks of the process's own came to lie since the last flush. No fact rests on it: an address is tested before
    // it is used, and a flush looks at all live blocks where it misses one.
    pub(crate) owned: Vec<u32>,
    pub(crate) counts: Counts,
    ghost kept: { IsKept (book segments places.index places.slots links covers block here left own counts.blocks counts.reused counts.built counts.linked) },
}
