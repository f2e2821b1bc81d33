ghost use Rattle.std.specs.Prelude.{◌≡◌, ◌+◌, ◌≤◌, ◌^◌, ◌++◌, [], length, IfOk, OnOk};
ghost use Rattle.lorel_trees.specs.Trees.{literal_tree, member_trees, members_from};
ghost use Rattle.oem_text.specs.Literals.{bodies, member_bodies, arcs, member_arcs, arcs_of, target};
ghost use Rattle.oem_text.specs.inside.Views.{bodies_of, arc_of, link_arcs};

use lore_base::{NoMemory, OemText};
use lorel_trees::{Literal, Member, MemberList};
use std::alloc::Global;

// The objects and edges of a literal, in text order, as parts of it.
#[derive(Drop)]
pub(crate) struct Flat<'a> {
    pub(crate) literals: Vec<&'a Literal>,
    pub(crate) links: Vec<Link<'a>>,
}

// An edge from the object at a place. It leads to a place too, or to what a local marks.
#[derive(Clone, Copy)]
pub(crate) struct Link<'a> {
    pub(crate) parent: u32,
    pub(crate) child: u32,
    pub(crate) is_local: bool,
    pub(crate) label: &'a OemText,
}

// The objects and edges of the literal.
pub(crate) fn flatten<'a>(alloc: Global, literal: &'a Literal) -> Result<Flat<'a>, NoMemory>
    ensures bodies { IfOk result (λ flat.
        bodies_of flat.literals.items ≡ bodies (literal_tree literal.now)) }
    ensures arcs { IfOk result (λ flat.
        link_arcs flat.links.items ≡ arcs_of (literal_tree literal.now)) }
{
    let mut flat = Flat {
        literals: Vec::new(alloc),
        links: Vec::new(alloc),
    };
    add_literal(literal, &mut flat)?;
    Ok(flat)
}

// Puts the objects and edges of the literal behind those that are there.
#[cycle(flatten)]
fn add_literal<'a>(literal: &'a Literal, flat: &mut Flat<'a>) -> Result<(), NoMemory>
    ensures bodies { let tree = literal_tree literal.now in OnOk result (
        bodies_of flat.new.literals.items ≡ bodies_of flat.old.literals.items ++ bodies tree) }
    ensures arcs { let tree = literal_tree literal.now in OnOk result (
        link_arcs flat.new.links.items
        ≡ link_arcs flat.old.links.items ++ arcs (length flat.old.literals.items) tree) }
{
    match literal {
        Literal::Local(_) => {}
        Literal::Atom { .. } => flat.literals.push(literal)?,
        Literal::Node { members, .. } => {
            let parent = next_place(flat.literals.as_slice())?;
            flat.literals.push(literal)?;
            add_members(members, parent, flat)?;
        }
    }
    Ok(())
}

// The same for the members of the object at this place, and the edges that lead to them.
#[cycle(flatten)]
fn add_members<'a>(
    members: &'a MemberList,
    parent: u32,
    flat: &mut Flat<'a>,
) -> Result<(), NoMemory>
    ensures bodies { let trees = members_from (member_trees members.now) in OnOk result (
        bodies_of flat.new.literals.items
        ≡ bodies_of flat.old.literals.items ++ member_bodies trees) }
    ensures arcs { let trees = members_from (member_trees members.now) in OnOk result (
        link_arcs flat.new.links.items ≡ link_arcs flat.old.links.items
        ++ member_arcs parent (length flat.old.literals.items) trees) }
{
    'members: for member in members.as_slice() {
        let place = next_place(flat.literals.as_slice())?;
        flat.links.push(link_to(parent, place, member))?;
        add_literal(&member.literal, flat)?;
    }
    Ok(())
}

// The place of the next object. More than a place can count is more than memory holds.
fn next_place(literals: &[&Literal]) -> Result<u32, NoMemory>
    ensures { IfOk result (λ place. place ≡ length literals.now) }
{
    match u32::try_from(literals.len()) {
        Ok(place) => Ok(place),
        Err(_) => Err(NoMemory),
    }
}

// The edge to a member, whose object has this place unless it is a local.
fn link_to<'a>(parent: u32, place: u32, member: &'a Member) -> Link<'a>
    ensures { arc_of result ≡ record {
      parent = parent;
      label = member.now.label;
      target = target place (literal_tree member.now.literal);
    } }
{
    let label = &member.label;
    match &member.literal {
        Literal::Local(number) => Link {
            parent,
            child: *number,
            is_local: true,
            label,
        },
        Literal::Atom { .. } | Literal::Node { .. } => Link {
            parent,
            child: place,
            is_local: false,
            label,
        },
    }
}
