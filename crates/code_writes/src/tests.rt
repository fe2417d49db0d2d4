ghost use Rattle.std.specs.Prelude.{◌<◌, ◌≤◌, ◌+◌};

use super::Covers;
use cc_base::Span;
use std::alloc::AllocError;
use std::test::Fail;

// Covers a block at an address where there may be one.
fn covers_anew(covers: &mut Covers, addr: u32, len: u32) -> Result<(), AllocError>
    requires some { 0 < len }
    requires short { len ≤ 256 }
    requires within { addr + len ≤ 4294967295 }
{
    covers.uncover(addr);
    covers.cover(addr, len)
}

fn meeting(covers: &Covers, start: u32, len: u32, from: u32) -> Option<u32>
    requires { start + len ≤ 4294967295 }
{
    covers.first_meeting(Span { start, len }, from)
}

#[test]
fn a_block_from_the_page_before_is_met(rt: HostRuntime) -> Result<(), Fail> {
    let mut covers = Covers::new(rt.alloc());
    covers_anew(&mut covers, 0x10f8, 16)?;
    assert_eq!(rt; meeting(&covers, 0x10f4, 4, 0), None);
    assert_eq!(rt; meeting(&covers, 0x10f5, 4, 0), Some(0x10f8));
    assert_eq!(rt; meeting(&covers, 0x1104, 4, 0), Some(0x10f8));
    assert_eq!(rt; meeting(&covers, 0x1108, 4, 0), None);
    Ok(())
}

#[test]
fn the_least_address_comes_first(rt: HostRuntime) -> Result<(), Fail> {
    let mut covers = Covers::new(rt.alloc());
    covers_anew(&mut covers, 0x2000, 256)?;
    covers_anew(&mut covers, 0x1008, 16)?;
    covers_anew(&mut covers, 0x1000, 16)?;
    assert_eq!(rt; meeting(&covers, 0x1008, 0x1000, 0), Some(0x1000));
    assert_eq!(rt; meeting(&covers, 0x1008, 0x1000, 0x1001), Some(0x1008));
    assert_eq!(rt; meeting(&covers, 0x1008, 0x1000, 0x1009), Some(0x2000));
    assert_eq!(rt; meeting(&covers, 0x1008, 0x1000, 0x2001), None);
    assert_eq!(rt; meeting(&covers, 0x1008, 0, 0), None);
    Ok(())
}

#[test]
fn a_block_that_was_uncovered_is_not_met(rt: HostRuntime) -> Result<(), Fail> {
    let mut covers = Covers::new(rt.alloc());
    covers_anew(&mut covers, 0xffff_fef0, 256)?;
    covers_anew(&mut covers, 0xffff_fef4, 4)?;
    assert_eq!(rt; meeting(&covers, 0, 0xffff_ffff, 0), Some(0xffff_fef0));
    covers.uncover(0xffff_fef0);
    covers.uncover(0xffff_fef1);
    assert_eq!(rt; meeting(&covers, 0, 0xffff_ffff, 0), Some(0xffff_fef4));
    covers.uncover(0xffff_fef4);
    assert_eq!(rt; meeting(&covers, 0, 0xffff_ffff, 0), None);
    Ok(())
}
