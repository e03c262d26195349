// Short vectors that are made and copied.
use crate::few::Few;
use std::test::*;

#[test]
fn holds_no_more_than_fit(rt: HostRuntime) -> Result<(), Fail> {
    let Some(few) = Few::<u8, 3>::of(b"abc") else {
        return Err(Fail::new("three do not fit"));
    };
    let copy = few;
    assert!(rt; few.as_slice() == b"abc".as_slice());
    assert!(rt; copy.as_slice() == b"abc".as_slice());
    assert!(rt; few.clone()?.as_slice() == b"abc".as_slice());
    assert!(rt; Few::<u8, 3>::of(b"abcd").is_none());
    Ok(())
}
