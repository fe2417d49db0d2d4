// Units of a process's segments, and its blocks.
ghost use Rattle.std.specs.Prelude.{◌≡◌, ◌<◌, ◌≤◌, true, Some, is_some, length, map, IfOk, OnOk, OnErr, IsErr};
ghost use Rattle.std.specs.Arc.{arc_value};
ghost use Rattle.std.specs.FinMap as fin;
ghost use Rattle.std.specs.List.{All};
ghost use Rattle.plain_machine.specs.Memory.{code_at};
ghost use Rattle.fragment.specs.Build.{IsFresh};
ghost use Rattle.unit_set.specs.Held.{IsFreshFor, addresses};
ghost use Rattle.unit_set.specs.Sets.{IsRising};
ghost use Rattle.block_book.specs.Clauses.{blocks_of};
ghost use Rattle.block_ledger.specs.Ledger.{Segment, attached, candidates, flushed, offered, segment_of};
ghost use Rattle.guest_proc.specs.Kept.{process_of, scheme_of};
ghost use Rattle.guest_proc.specs.Maps.{IsVacant, put_to};

use crate::process::Proc;
use block_book::Book;
use cc_base::Image;
use fragment::Fragment;
use std::alloc::AllocError;
use std::sync::Arc;
use unit_set::Unit;

impl<B: Book> Proc<B> {
    /// Attaches a unit to the executable segment `seg` of a module, which is not attached; its image is what memory has there.
    pub fn attach(&mut self, module: u32, seg: u8, unit: &Arc<Unit>) -> Result<(), AllocError>
        requires few { «module» < 1073741824 }
        requires seg { seg < 4 }
        requires some { 0 < length (arc_value unit.now).image.bytes }
        requires there { code_at self.old.at.mem (arc_value unit.now).image.start ≡ Some (arc_value unit.now).image }
        requires isa { (arc_value unit.now).slot.isa ≡ self.old.at.cpu.isa }
        requires tool { (arc_value unit.now).slot.tool ≡ self.old.at.report.tool }
        requires max { (arc_value unit.now).slot.max ≡ self.old.limits.max }
        requires clear { IsVacant (arc_value unit.now).image (B.ledger self.old.book) }
        ensures attached { OnOk result (process_of self.new.at (B.ledger self.new.book) ≡ put_to (process_of self.old.at (B.ledger self.old.book)) (process_of self.old.at (B.ledger self.old.book)).state
            (attached (segment_of «module» seg) (arc_value unit.now).image (blocks_of (arc_value unit.now).frags) (B.ledger self.old.book))) }
        ensures entered { self.new.entered ≡ self.old.entered }
        ensures spent { self.old.spent ≡ true → IsErr result }
        ensures after { OnErr result (self.new.spent ≡ true) }
        ensures lasts { OnOk result (self.new.spent ≡ self.old.spent) }
        ensures scheme { scheme_of self.new.at self.new.limits ≡ scheme_of self.old.at self.old.limits }
    {
        are_fresh(unit);
        let _ = self.at.mem.code_at(self.at.cpu.pc);
        if self.spent {
            return Err(AllocError);
        }
        self.spent = true;
        self.book.attach(segment_of(module, seg), unit)?;
        self.spent = false;
        Ok(())
    }

    /// The blocks that the unit of an attached segment could gain, copied; they are offered to it with that.
    pub fn offer(&mut self, module: u32, seg: u8) -> Result<Vec<Fragment>, AllocError>
        requires few { «module» < 1073741824 }
        requires seg { seg < 4 }
        requires attached { is_some (fin.get (B.ledger self.old.book).segments (segment_of «module» seg)) ≡ true }
        ensures blocks { IfOk result (λ blocks. (s : Segment) → fin.get (B.ledger self.old.book).segments (segment_of «module» seg) ≡ Some s → blocks.items ≡ map (λ e. e.1) (candidates s (B.ledger self.old.book))) }
        ensures addresses { IfOk result (λ blocks. (s : Segment) → fin.get (B.ledger self.old.book).segments (segment_of «module» seg) ≡ Some s → addresses blocks.items ≡ map (λ e. e.0) (candidates s (B.ledger self.old.book))) }
        // They are as a merge into the unit asks: they rise, are not too many, and are those that are built in the image.
        ensures rises { IfOk result (λ blocks. IsRising (addresses blocks.items)) }
        ensures most { IfOk result (λ blocks. length blocks.items ≤ 16384) }
        ensures fresh { IfOk result (λ blocks. (s : Segment) → fin.get (B.ledger self.old.book).segments (segment_of «module» seg) ≡ Some s →
            All (IsFresh s.image self.old.at.cpu.isa self.old.at.report.tool self.old.limits.max) blocks.items) }
        ensures offered { OnOk result (process_of self.new.at (B.ledger self.new.book) ≡ put_to (process_of self.old.at (B.ledger self.old.book)) (process_of self.old.at (B.ledger self.old.book)).state
            (offered (segment_of «module» seg) (B.ledger self.old.book))) }
        ensures entered { self.new.entered ≡ self.old.entered }
        ensures spent { self.old.spent ≡ true → IsErr result }
        ensures after { OnErr result (self.new.spent ≡ true) }
        ensures lasts { OnOk result (self.new.spent ≡ self.old.spent) }
        ensures scheme { scheme_of self.new.at self.new.limits ≡ scheme_of self.old.at self.old.limits }
    {
        let _ = self.at.mem.code_at(self.at.cpu.pc);
        if self.spent {
            return Err(AllocError);
        }
        self.spent = true;
        let blocks = self.book.offer(self.alloc, segment_of(module, seg))?;
        self.spent = false;
        Ok(blocks)
    }

    /// The numbers of the attached segments, in rising order.
    pub fn segments(&self) -> Result<Vec<u32>, AllocError>
        ensures numbers { IfOk result (λ numbers. numbers.items ≡ fin.keys (B.ledger self.now.book).segments) }
        ensures spent { self.now.spent ≡ true → IsErr result }
    {
        if self.spent {
            return Err(AllocError);
        }
        self.book.segments(self.alloc)
    }

    /// The images of the attached segments, in the order of their numbers. The bytes are shared, not copied.
    pub fn images(&self) -> Result<Vec<Image>, AllocError>
        ensures images { IfOk result (λ images. images.items ≡ map (λ s. s.image) (fin.values (B.ledger self.now.book).segments)) }
        ensures spent { self.now.spent ≡ true → IsErr result }
    {
        if self.spent {
            return Err(AllocError);
        }
        self.book.images(self.alloc)
    }

    /// Empties the private blocks, with their links. It takes no memory.
    pub fn flush(&mut self)
        ensures becomes { process_of self.new.at (B.ledger self.new.book) ≡ put_to (process_of self.old.at (B.ledger self.old.book)) (process_of self.old.at (B.ledger self.old.book)).state (flushed (B.ledger self.old.book)) }
        ensures entered { self.new.entered ≡ self.old.entered }
        ensures spent { self.new.spent ≡ self.old.spent }
        ensures scheme { scheme_of self.new.at self.new.limits ≡ scheme_of self.old.at self.old.limits }
    {
        self.book.flush();
    }
}

// The number of an executable segment.
fn segment_of(module: u32, seg: u8) -> u32
    requires few { «module» < 1073741824 }
    requires seg { seg < 4 }
    ensures { result ≡ segment_of «module» seg }
{
    4 * module + u32::from(seg)
}

// The blocks of a unit are those that are built in its image.
fn are_fresh(unit: &Unit)
    ensures { All (IsFreshFor unit.now.slot unit.now.image) unit.now.frags }
{
    let _ = unit.frags();
}
