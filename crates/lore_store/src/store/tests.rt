use super::Store;
use lore_base::Mode;
use lore_base::limits::START_NODES;
use std::test::Fail;

// The pattern names all fields of a store, so that one more isn't read.
#[test]
fn stated_fields(rt: HostRuntime) -> Result<(), Fail> {
    let Store {
        labels,
        graph,
        links,
        values,
        guide,
        limit,
        mode,
    } = Store::new(rt.alloc());
    let _indexes = (labels, links, values);
    assert_eq!(rt; graph.edges(), 0);
    assert_eq!(rt; guide.len(), 0);
    assert_eq!(rt; limit, START_NODES);
    assert_eq!(rt; mode, Mode::Auto);
    Ok(())
}
