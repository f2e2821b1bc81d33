use super::Db;
use std::test::Fail;

// The pattern names all fields of a database, so that one more isn't read.
#[test]
fn stated_fields(rt: HostRuntime) -> Result<(), Fail> {
    let Db {
        store,
        history,
        blocks,
        views,
    } = Db::new(rt.alloc())?;
    assert_eq!(rt; store.graph().edges(), 0);
    assert!(rt; history.is_none());
    assert!(rt; blocks.is_none());
    assert_eq!(rt; views.len(), 0);
    Ok(())
}
