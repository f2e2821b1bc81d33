ghost use Rattle.std.specs.Prelude.{◌≡◌, [], ◌∷◌, ◌++◌, All, OnOk, OnErr};
ghost use Rattle.std.specs.declared.cmp.Ordering.TheVariants.{Less};
ghost use Rattle.lore_base.specs.Bytes.{bytes_cmp};
ghost use Rattle.dataguide.specs.Guides.{node_of};
ghost use Rattle.set_explorer.specs.Nodes.{AreAscendingEntries};

use lore_base::{NoMemory, OemText, TryCopy};
use set_explorer::Node;
use std::alloc::Global;
use std::marker::Model;

// The entries of a guide: names with their nodes, ascending by the names' bytes. Contracts see
// them as a list of (text, node).
#[derive(Drop)]
pub(crate) struct Entries {
    list: Vec<(OemText, Node)>,
}

impl Model for Entries {
    ghost use Rattle.std.specs.Prelude.{ℕ, List};
    ghost use Rattle.dataguide.specs.Types.{Node};
    ghost use Rattle.set_explorer.specs.Nodes.{AreAscendingEntries};

    ghost Value = { List (List ℕ × Node) };

    ghost view = { λ e. e.list.items };

    ghost invariant = { λ e. AreAscendingEntries e.list.items };
}

// The node of the name among ascending entries, found by binary search.
fn node_in(entries: &[(OemText, Node)], name: &OemText) -> Option<Node>
    requires { AreAscendingEntries entries.now }
    ensures { result ≡ node_of entries.now name.now }
{
    match entries.binary_search_by(|entry| entry.0.cmp(name)) {
        Ok(place) => Some(entries[place].1),
        Err(_) => None,
    }
}

impl Entries {
    // No entry. Takes no memory.
    pub(crate) fn new(alloc: Global) -> Entries
        ensures { result ≡ [] }
    {
        Entries {
            list: Vec::new(alloc),
        }
    }

    // The entries of this list. Takes no memory.
    pub(crate) fn of(list: Vec<(OemText, Node)>) -> Entries
        requires { AreAscendingEntries list.items }
        ensures { result ≡ list.items }
    {
        Entries { list }
    }

    // Puts an entry behind those that are there, whose names come before its own.
    pub(crate) fn push(&mut self, name: &OemText, node: Node) -> Result<(), NoMemory>
        requires { All (λ entry. bytes_cmp entry.0 name.now ≡ Less) self.old }
        ensures ok { OnOk result (self.new ≡ self.old ++ (name.now, node) ∷ []) }
        ensures err { OnErr result (self.new ≡ self.old) }
    {
        let text = name.try_copy(*self.list.allocator())?;
        self.list.push((text, node))?;
        Ok(())
    }

    // The names with their nodes.
    pub(crate) fn as_slice(&self) -> &[(OemText, Node)]
        ensures { result.now ≡ self.now }
    {
        self.list.as_slice()
    }

    // The node of the name; None exactly where the name isn't there. Takes no memory.
    pub(crate) fn find(&self, name: &OemText) -> Option<Node>
        ensures { result ≡ node_of self.now name.now }
    {
        node_in(self.list.as_slice(), name)
    }
}
