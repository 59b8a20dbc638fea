use crate::{FileShelf, MemShelf, MemSink, OutSink, ReadStop, read_whole, write_whole};
use std::alloc::{AllocError, Global};
use std::fs;
use std::test::Fail;

// Two files, `a` of two bytes and an empty `b`.
fn two_files(alloc: Global, fails: &[u64]) -> Result<MemShelf, AllocError> {
    let mut files = Vec::new(alloc);
    files.push((String::from_str(alloc, "a")?, b"hi".to_vec(alloc)?))?;
    files.push((String::from_str(alloc, "b")?, b"".to_vec(alloc)?))?;
    Ok(MemShelf::new(alloc, files, fails.to_vec(alloc)?))
}

// The calls that fail, the name, the limit, and the answer.
const READS: [(&[u64], &str, u64, Result<&[u8], ReadStop>); 6] = [
    (&[], "a", 2, Ok(b"hi")),
    (&[], "a", 1, Err(ReadStop::TooLong { taken: 2 })),
    (&[], "b", 0, Ok(b"")),
    (&[], "c", 9, Err(ReadStop::Failed)),
    (&[0], "a", 9, Err(ReadStop::Failed)),
    (&[2], "a", 9, Err(ReadStop::Failed)),
];

#[test]
fn reads(rt: HostRuntime) -> Result<(), Fail> {
    let alloc = rt.alloc();
    for (fails, name, limit, wanted) in READS {
        let mut shelf = two_files(alloc, fails)?;
        let name = String::from_str(alloc, name)?;
        match (read_whole(alloc, &mut shelf, name, limit), wanted) {
            (Ok(bytes), Ok(all)) => assert_eq!(rt; bytes.as_slice(), all),
            (Err(stop), Err(other)) => assert!(rt; stop == other),
            _ => assert!(rt; false, "at {limit}"),
        }
    }
    Ok(())
}

// The step, the room, the writes that fail, whether all was written, and what went out.
const WRITES: [(usize, usize, &[u64], bool, &[u8]); 5] = [
    (9, 9, &[], true, b"abcde"),
    (2, 5, &[], true, b"abcde"),
    (2, 4, &[], false, b"abcd"),
    (2, 9, &[1], false, b"ab"),
    (9, 9, &[0], false, b""),
];

#[test]
fn writes(rt: HostRuntime) -> Result<(), Fail> {
    let alloc = rt.alloc();
    for (step, room, fails, all, out) in WRITES {
        assert!(rt; step > 0);
        let mut sink = MemSink::new(alloc, step, room, fails.to_vec(alloc)?)?;
        let result = write_whole(&mut sink, b"abcde");
        assert_eq!(rt; result.is_ok(), all);
        assert_eq!(rt; sink.bytes(), out);
    }
    Ok(())
}

#[test]
fn real_files(rt: HostRuntime) -> Result<(), Fail> {
    let alloc = rt.alloc();
    let mut text = Vec::new(alloc);
    text.resize(100_000, b'x')?;
    fs::write(&rt, "sv_io_test.txt", text.as_slice())?;
    let mut shelf = FileShelf::new(alloc, &rt);
    let name = String::from_str(alloc, "sv_io_test.txt")?;
    let whole = read_whole(alloc, &mut shelf, name, 100_000);
    fs::remove_file(&rt, "sv_io_test.txt")?;
    assert!(rt; whole.is_ok_and(|bytes| bytes.as_slice() == text.as_slice()));
    let absent = String::from_str(alloc, "sv_io_absent.txt")?;
    let mut missing = read_whole(alloc, &mut shelf, absent, 9);
    assert!(rt; matches!(missing, Err(ReadStop::Failed)));
    let folder = String::from_str(alloc, ".")?;
    missing = read_whole(alloc, &mut shelf, folder, 9);
    assert!(rt; matches!(missing, Err(ReadStop::Failed)));
    Ok(())
}

#[test]
fn real_stream(rt: HostRuntime) -> Result<(), Fail> {
    let mut out = OutSink::new(rt.stdout());
    assert!(rt; write_whole(&mut out, b"out\n").is_ok());
    let mut err = OutSink::new(rt.stderr());
    assert!(rt; write_whole(&mut err, b"err\n").is_ok());
    // A slice takes nothing once it is full.
    let mut room = [0u8; 3];
    let mut full = OutSink::new(room.as_mut_slice());
    assert!(rt; write_whole(&mut full, b"abcde").is_err());
    Ok(())
}
