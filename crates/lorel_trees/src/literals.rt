ghost use Rattle.std.specs.Prelude.{◌≡◌, List, [], ◌∷◌, ◌++◌, length, map, slice_get};
ghost use Rattle.std.specs.Prelude.{IfOk, OnOk, OnErr};
ghost use Rattle.std.specs.Option.{option_copied};
ghost use Rattle.lorel_trees.specs.Trees.{LiteralTree, MemberTree, literal_tree, member_tree};
ghost use Rattle.lorel_trees.specs.Trees.{member_trees, members_of};

use lore_base::{NoMemory, OemText, TryCopy, Value};
use std::alloc::Global;

/// The text of objects. A local names an object within one literal.
#[cycle(literal)]
#[derive(Drop)]
pub enum Literal {
    /// The object that has this local elsewhere in the literal.
    Local(u32),
    /// An atomic object, perhaps with a local.
    Atom {
        local: Option<u32>,
        value: Value,
    },
    /// A complex object with its members, perhaps with a local.
    Node {
        local: Option<u32>,
        members: MemberList,
    },
}

/// The members of a complex object, in text order.
#[cycle(literal)]
#[derive(Drop)]
pub struct MemberList {
    items: Vec<Member>,
}

/// A label and the object that its edge leads to.
#[cycle(literal)]
#[derive(Drop)]
pub struct Member {
    pub label: OemText,
    pub literal: Literal,
}

impl TryCopy for Literal {
    ghost Seen = { LiteralTree };

    ghost seen = { literal_tree };

    fn try_copy(&self, alloc: Global) -> Result<Self, NoMemory> {
        copy_literal(alloc, self)
    }
}

impl TryCopy for Member {
    ghost Seen = { MemberTree };

    ghost seen = { member_tree };

    fn try_copy(&self, alloc: Global) -> Result<Self, NoMemory> {
        copy_member(alloc, self)
    }
}

impl TryCopy for MemberList {
    ghost Seen = { List MemberTree };

    ghost seen = { member_trees };

    fn try_copy(&self, alloc: Global) -> Result<Self, NoMemory> {
        copy_members(alloc, self)
    }
}

impl MemberList {
    /// The list of no member. Takes no memory.
    pub fn new(alloc: Global) -> MemberList
        ensures members { members_of result ≡ [] }
        ensures trees { member_trees result ≡ [] }
    {
        MemberList {
            items: Vec::new(alloc),
        }
    }

    /// The number of members.
    pub fn len(&self) -> usize
        ensures members { result ≡ length (members_of self.now) }
        ensures trees { result ≡ length (member_trees self.now) }
    {
        self.items.len()
    }

    /// The member at place `i`, counted from 0; None exactly where there are not so many.
    pub fn get(&self, i: usize) -> Option<&Member>
        ensures { option_copied result ≡ slice_get (members_of self.now) i }
    {
        self.items.get(i)
    }

    /// The members as a slice.
    pub fn as_slice(&self) -> &[Member]
        ensures members { result.now ≡ members_of self.now }
        ensures trees { map member_tree result.now ≡ member_trees self.now }
    {
        self.items.as_slice()
    }

    /// Puts a member behind those that are there. Where memory is refused the list stays as it is.
    pub fn push(&mut self, item: Member) -> Result<(), NoMemory>
        ensures ok { OnOk result (members_of self.new ≡ members_of self.old ++ item ∷ []) }
        ensures trees { OnOk result
            (member_trees self.new ≡ member_trees self.old ++ member_tree item ∷ []) }
        ensures err { OnErr result (members_of self.new ≡ members_of self.old) }
    {
        self.items.push(item)?;
        Ok(())
    }
}

#[cycle(copy)]
fn copy_literal(alloc: Global, literal: &Literal) -> Result<Literal, NoMemory>
    ensures { IfOk result (λ copy. literal_tree copy ≡ literal_tree literal.now) }
{
    match literal {
        Literal::Local(local) => Ok(Literal::Local(*local)),
        Literal::Atom { local, value } => {
            let value = value.try_copy(alloc)?;
            Ok(Literal::Atom {
                local: *local,
                value,
            })
        }
        Literal::Node { local, members } => {
            let members = copy_members(alloc, members)?;
            Ok(Literal::Node {
                local: *local,
                members,
            })
        }
    }
}

#[cycle(copy)]
fn copy_members(alloc: Global, members: &MemberList) -> Result<MemberList, NoMemory>
    ensures { IfOk result (λ copy. member_trees copy ≡ member_trees members.now) }
{
    let mut items = Vec::with_capacity(alloc, members.items.len())?;
    'members: for member in &members.items {
        items.push(copy_member(alloc, member)?)?;
    }
    Ok(MemberList { items })
}

#[cycle(copy)]
fn copy_member(alloc: Global, member: &Member) -> Result<Member, NoMemory>
    ensures { IfOk result (λ copy. member_tree copy ≡ member_tree member.now) }
{
    let label = member.label.try_copy(alloc)?;
    let literal = copy_literal(alloc, &member.literal)?;
    Ok(Member { label, literal })
}
