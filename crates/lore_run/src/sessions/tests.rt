use super::Session;
use std::test::Fail;

// The pattern names the one field of a session, so that one more isn't read.
#[test]
fn stated_fields(rt: HostRuntime) -> Result<(), Fail> {
    let Session { db } = Session::new(rt.alloc())?;
    assert_eq!(rt; db.store().graph().edges(), 0);
    assert!(rt; db.history().is_none());
    Ok(())
}
