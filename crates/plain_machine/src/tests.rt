use super::*;
use std::test::Fail;

#[test]
fn register_zero_reads_zero(rt: HostRuntime) -> Result<(), Fail> {
    let mut regs = Regs::new();
    regs.set(0, 7);
    regs.set(31, 9);
    assert_eq!(rt; regs.get(0), 0);
    assert_eq!(rt; regs.get(31), 9);
    assert_eq!(rt; regs.get(1), 0);
    Ok(())
}

#[test]
fn sizes_are_one_two_and_four(rt: HostRuntime) -> Result<(), Fail> {
    assert_eq!(rt; Size::Byte.bytes(), 1);
    assert_eq!(rt; Size::Half.bytes(), 2);
    assert_eq!(rt; Size::Word.bytes(), 4);
    Ok(())
}
