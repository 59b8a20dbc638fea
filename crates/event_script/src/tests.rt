use crate::{Event, ScriptFault, read_script};
use std::test::Fail;

// A script, and how many events it has, or its first wrong line.
const SCRIPTS: [(&str, Result<usize, u32>); 16] = [
    ("", Ok(0)),
    ("\n\r\n \t\n", Ok(0)),
    ("# any bytes\n \t# tap\ntap 4 1\n", Ok(1)),
    ("tap 4 1\r\n\ttap\t0004  \t1 \r\ntap 9999 0", Ok(3)),
    ("tap 4 1\r", Err(1)),
    ("tap 4\r1\n", Err(1)),
    ("tap 1 1 # no\n", Err(1)),
    ("tap 12345 1\n", Err(1)),
    ("tap 1 12345\n", Err(1)),
    ("\ntap 1\ntap\n", Err(2)),
    ("tap 1 1 1\n", Err(1)),
    ("tap -1 1\n", Err(1)),
    ("tap 1 a\n", Err(1)),
    ("tap1 1\n", Err(1)),
    ("tap 1 1\nTap 1 1\n", Err(2)),
    ("\r\r\n", Err(1)),
];

#[test]
fn scripts(rt: HostRuntime) -> Result<(), Fail> {
    for (text, wanted) in SCRIPTS {
        match (read_script(rt.alloc(), text.as_bytes()), wanted) {
            (Ok(events), Ok(count)) => assert_eq!(rt; events.len(), count, "at {text}"),
            (Err(ScriptFault::NotAnEvent { line }), Err(number)) => {
                assert_eq!(rt; line, number, "at {text}");
            }
            _ => assert!(rt; false, "at {text}"),
        }
    }
    Ok(())
}

#[test]
fn taps(rt: HostRuntime) -> Result<(), Fail> {
    let events = read_script(rt.alloc(), b"tap 12 3\n#\n  tap 0 9999 ")
        .ok()
        .ok_or("refused")?;
    let wanted = [Event::Tap { x: 12, y: 3 }, Event::Tap { x: 0, y: 9999 }];
    assert_eq!(rt; events.as_slice(), wanted.as_slice());
    Ok(())
}

#[test]
fn too_many(rt: HostRuntime) -> Result<(), Fail> {
    let mut text = Vec::new(rt.alloc());
    for _ in 0..10_000u32 {
        text.extend_from_slice(b"tap 1 1\n")?;
    }
    assert!(rt; text.len() <= 100_000);
    assert!(rt; read_script(rt.alloc(), &text).is_ok());
    text.extend_from_slice(b"#\ntap 1 1\n")?;
    assert!(rt; matches!(read_script(rt.alloc(), &text), Err(ScriptFault::TooMany)));
    text.extend_from_slice(b"tap 1\n")?;
    let last = read_script(rt.alloc(), &text);
    assert!(rt; matches!(last, Err(ScriptFault::NotAnEvent { line: 10_003 })));
    Ok(())
}
