use super::*;
use std::test::Fail;

#[test]
fn names_in_order(rt: HostRuntime) -> Result<(), Fail> {
    let alloc = rt.alloc();
    let mut map = NameMap::new(alloc);
    // A name, its number, and whether it had one before.
    let rows: [(&[u8], u32, bool); 5] = [
        (b"body", 0, false),
        (b"bod", 1, false),
        (b"", 2, false),
        (b"body", 3, true),
        (b"bodyy", 4294967295, false),
    ];
    for (name, place, held) in rows {
        assert_eq!(rt; map.insert(Vec::from_slice(alloc, name)?, place)?, held);
    }
    assert!(rt; map.get(b"body") == Some(3));
    assert!(rt; map.get(b"bod") == Some(1));
    assert!(rt; map.get(b"") == Some(2));
    assert!(rt; map.get(b"bodyy") == Some(4294967295));
    assert!(rt; map.get(b"Body").is_none());
    Ok(())
}
