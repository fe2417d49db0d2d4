ghost use Rattle.std.specs.Prelude.{◌≡◌, ◌<◌, length};

use super::InLists;
use std::process::Abort;
use std::test::Fail;

/// Puts an exit that is in no list.
fn puts(rt: &impl Abort, lists: &mut InLists, exit: u32, head: u32)
    requires { (exit < lists.old.exits) × (head < length lists.old.lists) }
    ensures { (lists.new.exits ≡ lists.old.exits) × (length lists.new.lists ≡ length lists.old.lists) }
{
    match lists.head_of(exit) {
        None => lists.put(exit, head),
        Some(_) => panic!(rt; "the exit is in a list"),
    }
    assert_eq!(rt; lists.head_of(exit), Some(head));
}

/// Cuts an exit out of the head's list.
fn cuts(rt: &impl Abort, lists: &mut InLists, exit: u32, head: u32)
    requires { exit < lists.old.exits }
    ensures { (lists.new.exits ≡ lists.old.exits) × (length lists.new.lists ≡ length lists.old.lists) }
{
    match lists.head_of(exit) {
        None => panic!(rt; "the exit is in no list"),
        Some(found) => {
            assert_eq!(rt; found, head);
            lists.cut(exit);
        }
    }
    assert_eq!(rt; lists.head_of(exit), None);
}

fn takes(rt: &impl Abort, lists: &mut InLists, head: u32, wanted: Option<u32>)
    requires { head < length lists.old.lists }
    ensures { (lists.new.exits ≡ lists.old.exits) × (length lists.new.lists ≡ length lists.old.lists) }
{
    assert_eq!(rt; lists.take_first(head), wanted);
}

// What is sent to another thread.
fn sent<T: Send>(value: T) -> T
    ensures { result ≡ value }
{
    value
}

#[test]
fn cut_middle(rt: HostRuntime) -> Result<(), Fail> {
    let mut lists = InLists::new(rt.alloc(), 4, 2)?;
    puts(&rt, &mut lists, 0, 1);
    puts(&rt, &mut lists, 1, 1);
    puts(&rt, &mut lists, 2, 1);
    puts(&rt, &mut lists, 3, 1);
    cuts(&rt, &mut lists, 1, 1);
    takes(&rt, &mut lists, 1, Some(3));
    assert_eq!(rt; lists.head_of(1), None);
    takes(&rt, &mut lists, 1, Some(2));
    takes(&rt, &mut lists, 1, Some(0));
    takes(&rt, &mut lists, 1, None);
    takes(&rt, &mut lists, 0, None);
    Ok(())
}

#[test]
fn lists_reused(rt: HostRuntime) -> Result<(), Fail> {
    let mut lists = InLists::new(rt.alloc(), 3, 2)?;
    puts(&rt, &mut lists, 0, 0);
    puts(&rt, &mut lists, 1, 0);
    puts(&rt, &mut lists, 2, 1);
    lists.clear();
    puts(&rt, &mut lists, 0, 1);
    puts(&rt, &mut lists, 1, 1);
    puts(&rt, &mut lists, 2, 0);
    takes(&rt, &mut lists, 0, Some(2));
    takes(&rt, &mut lists, 0, None);
    takes(&rt, &mut lists, 1, Some(1));
    takes(&rt, &mut lists, 1, Some(0));
    takes(&rt, &mut lists, 1, None);
    Ok(())
}

#[test]
fn no_exits(rt: HostRuntime) -> Result<(), Fail> {
    let mut lists = InLists::new(rt.alloc(), 0, 0)?;
    lists.clear();
    Ok(())
}

#[test]
fn lists_are_sent(rt: HostRuntime) -> Result<(), Fail> {
    let mut lists = sent(InLists::new(rt.alloc(), 2, 1)?);
    lists.each_in_one_list();
    puts(&rt, &mut lists, 1, 0);
    takes(&rt, &mut lists, 0, Some(1));
    Ok(())
}
