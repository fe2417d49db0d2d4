use super::*;
use std::test::Fail;

#[test]
fn files_in_memory_answer_their_content(rt: HostRuntime) -> Result<(), Fail> {
    let mut files = MemFiles::new(rt.alloc());
    files.put("a", b"old")?;
    files.put("a", b"new!")?;
    assert_eq!(rt;
        files.read("a", 4).map_err(|_| "read")?.as_slice(),
        b"new!".as_slice()
    );
    assert_eq!(rt; files.read("a", 3).err(), Some(FileErr::TooLong));
    assert_eq!(rt; files.read("b", 4).err(), Some(FileErr::Failed));
    Ok(())
}

#[test]
fn the_second_read_fails(rt: HostRuntime) -> Result<(), Fail> {
    let mut files = MemFiles::new(rt.alloc());
    files.put("a", b"text")?;
    let mut files = FuseFiles::new(files, vec![in rt.alloc(); 2]?);
    assert_eq!(rt;
        files.read("a", 9).map_err(|_| "read")?.as_slice(),
        b"text".as_slice()
    );
    assert_eq!(rt; files.read("a", 9).err(), Some(FileErr::Failed));
    assert_eq!(rt;
        files.read("a", 9).map_err(|_| "read")?.as_slice(),
        b"text".as_slice()
    );
    Ok(())
}

#[test]
fn a_full_sink_fails(rt: HostRuntime) -> Result<(), Fail> {
    let mut sink = MemSink::new(rt.alloc(), 5)?;
    assert_eq!(rt; sink.write(b"abc"), Ok(3));
    assert_eq!(rt; sink.write(b"def"), Ok(2));
    assert_eq!(rt; sink.write(b"f"), Err(SinkFailed));
    assert_eq!(rt; sink.write(b""), Ok(0));
    assert_eq!(rt; sink.bytes(), b"abcde".as_slice());
    Ok(())
}

#[test]
fn the_second_write_fails(rt: HostRuntime) -> Result<(), Fail> {
    let mut sink = FuseSink::new(rt.alloc(), 9, vec![in rt.alloc(); 2]?, 2)?;
    assert_eq!(rt; sink.write(b"abc"), Ok(2));
    assert_eq!(rt; sink.write(b"c"), Err(SinkFailed));
    assert_eq!(rt; sink.write(b"c"), Ok(1));
    assert_eq!(rt; sink.bytes(), b"abc".as_slice());
    Ok(())
}

#[test]
fn the_systems_files_are_read(rt: HostRuntime) -> Result<(), Fail> {
    let alloc = rt.alloc();
    let mut files = DiskFiles::new(rt, alloc);
    assert_eq!(rt; files.read("/dev/null", 0).map_err(|_| "read")?.len(), 0);
    assert_eq!(rt;
        files.read("/dev/zero", 10_000).err(),
        Some(FileErr::TooLong)
    );
    assert_eq!(rt; files.read("no such file", 10).err(), Some(FileErr::Failed));
    assert_eq!(rt; files.read(".", 10_000).err(), Some(FileErr::Failed));
    Ok(())
}

#[test]
fn standard_output_takes_a_piece(rt: HostRuntime) {
    let mut sink = StdSink::new(rt);
    assert_eq!(rt; sink.write(b"a piece\n").is_ok(), true);
}
