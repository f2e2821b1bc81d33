use super::Guide;
use crate::delta::GuideDelta;
use lore_base::{NoMemory, OemText, Oid, OidBuf};
use oem_set::OidSet;
use set_explorer::{GuideNode, Node, Origin};
use std::alloc::Global;
use std::test::Fail;

// A guide of one object.
fn alone(alloc: Global) -> Result<Guide, NoMemory> {
    let mut oids = OidBuf::new(alloc);
    oids.push(Oid(5))?;
    let set = OidSet::from_buf(&mut oids)?;
    let mut delta = GuideDelta::new(alloc);
    let place = delta.node(Origin::Fresh(set))?;
    delta.entry(&OemText::from_bytes(alloc, b"Guide")?, place)?;
    let mut guide = Guide::new(alloc);
    guide.commit(delta);
    Ok(guide)
}

// The patterns name all fields of a guide and of the records in it, so that one more isn't read.
#[test]
fn stated_fields(rt: HostRuntime) -> Result<(), Fail> {
    let Guide {
        nodes,
        entries,
        by_hash,
    } = alone(rt.alloc())?;
    let mut hash = 0;
    for GuideNode { set, edges } in nodes {
        assert_eq!(rt; set.as_slice(), [Oid(5)].as_slice());
        assert_eq!(rt; edges.len(), 0);
        hash = set.hash64();
    }
    for (name, node) in entries.as_slice() {
        assert_eq!(rt; name.as_bytes(), b"Guide".as_slice());
        assert_eq!(rt; *node, Node(0));
    }
    assert_eq!(rt; by_hash.as_slice(), [(hash, Node(0))].as_slice());
    Ok(())
}
