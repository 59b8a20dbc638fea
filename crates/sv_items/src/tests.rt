use super::*;
use std::test::Fail;

#[test]
fn holds_two(rt: HostRuntime) -> Result<(), Fail> {
    let mut list = Items::new(rt.alloc());
    list.push(1u8)?;
    list.push(3u8)?;
    list.insert(1, 2u8)?;
    assert_eq!(rt; list.as_slice(), [1, 2, 3].as_slice());
    assert_eq!(rt; Boxed::new(rt.alloc(), 7u8)?.into_inner(), 7);
    Ok(())
}

#[test]
fn takes_slices(rt: HostRuntime) -> Result<(), Fail> {
    let mut list = Items::from_slice(rt.alloc(), &[1u8, 2])?;
    list.append(Items::from_slice(rt.alloc(), &[3u8])?)?;
    assert_eq!(rt; list.into_vec().as_slice(), [1, 2, 3].as_slice());
    Ok(())
}
