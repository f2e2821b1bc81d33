ghost use Rattle.std.specs.Prelude.{◌≡◌, ◌≢◌, ◌↔◌, ℕ, List, [], ◌∷◌, ◌++◌, All, Contains, length, map};
ghost use Rattle.std.specs.Prelude.{OnOk, IfOk, IfSome, IfNone};
ghost use Rattle.lorel_trees.specs.Trees.{literal_tree, local};
ghost use Rattle.oem_text.specs.Literals.{Body as TheBody, Arc as TheArc};
ghost use Rattle.oem_text.specs.Layouts.{placed_arc};
ghost use Rattle.oem_text.specs.inside.Views.{body_of, bodies_of, arc_of, link_arcs, placed_of};
ghost use Rattle.oem_text.specs.inside.Places.{place_in, AscendByLocal, AreMarks, HaveDouble};
ghost use Rattle.oem_text.specs.inside.Places.{AreDouble, ArePlaces, IsLost, IsFound};

use crate::flat::Link;
use lore_base::{Listing, NoMemory};
use lorel_trees::Literal;
use std::alloc::Global;

// Locals, each with the place of an object that it marks.
pub(crate) type Marks = Listing<(u32, u32)>;

// The place of the object that each local marks, in the order of locals; None exactly where a local
// marks two.
pub(crate) fn marked_places(alloc: Global, literals: &[&Literal]) -> Result<Option<Marks>, NoMemory>
    ensures some { IfOk result (λ found. IfSome found (λ places.
        ArePlaces (bodies_of literals.now) (place_in places))) }
    ensures ascend { IfOk result (λ found. IfSome found AscendByLocal) }
    ensures none { IfOk result (λ found. IfNone found (AreDouble (bodies_of literals.now))) }
{
    let mut marks = Marks::new(alloc);
    'literals: for (place, literal) in literals.iter().enumerate() {
        add_mark(&mut marks, place, literal)?;
    }
    let Some(places) = ascending(marks) else {
        return Ok(None);
    };
    Ok(Some(places))
}

// Puts the mark of the object, if it has one, behind those of the objects before it.
fn add_mark(marks: &mut Marks, place: usize, literal: &Literal) -> Result<(), NoMemory>
    ensures { OnOk result ((bodies : List TheBody)
        → AreMarks bodies marks.old → length bodies ≡ place
        → AreMarks (bodies ++ body_of (literal_tree literal.now) ∷ []) marks.new) }
{
    let Some(number) = mark_of(literal) else {
        return Ok(());
    };
    let Ok(place) = u32::try_from(place) else {
        return Err(NoMemory);
    };
    marks.push((number, place))?;
    Ok(())
}

// The marks in the order of locals; None exactly where two have one local.
fn ascending(marks: Marks) -> Option<Marks>
    ensures some { IfSome result (λ sorted. (mark : ℕ × ℕ)
        → Contains sorted mark ↔ Contains marks mark) }
    ensures ascend { IfSome result AscendByLocal }
    ensures none { IfNone result (HaveDouble marks) }
{
    let mut sorted = marks;
    sorted.sort_set();
    if sorted.as_slice().is_sorted_by(|a, b| a.0 < b.0) {
        Some(sorted)
    } else {
        None
    }
}

// The place of the object that the local marks. Its mark is looked for first where it stands while
// locals have no gap, and then by binary search.
fn place_of(marks: &[(u32, u32)], number: u32) -> Option<u32>
    requires { AscendByLocal marks.now }
    ensures { result ≡ place_in marks.now number }
{
    if let Some(place) = place_at(marks, likely_mark(marks, number), number) {
        return Some(place);
    }
    match marks.binary_search_by_key(&number, |mark| mark.0) {
        Ok(at) => Some(marks[at].1),
        Err(_) => None,
    }
}

// As far behind the first mark as the local is above that one's.
fn likely_mark(marks: &[(u32, u32)], number: u32) -> usize {
    match marks.first() {
        Some(first) => number.saturating_sub(first.0) as usize,
        None => 0,
    }
}

// The place of the object that the local marks, where its mark stands here.
fn place_at(marks: &[(u32, u32)], at: usize, number: u32) -> Option<u32>
    ensures { IfSome result (λ place. Contains marks.now (number, place)) }
{
    let mark = marks.get(at)?;
    if mark.0 == number { Some(mark.1) } else { None }
}

// The local that the literal is.
pub(crate) fn local_of(literal: &Literal) -> Option<u32>
    ensures some { IfSome result (λ number. literal_tree literal.now ≡ local number) }
    ensures none { IfNone result ((number : ℕ) → literal_tree literal.now ≢ local number) }
{
    match literal {
        Literal::Local(number) => Some(*number),
        Literal::Atom { .. } | Literal::Node { .. } => None,
    }
}

// The local that marks the object.
fn mark_of(literal: &Literal) -> Option<u32>
    ensures { result ≡ (body_of (literal_tree literal.now)).mark }
{
    match literal {
        Literal::Local(_) => None,
        Literal::Atom { local, .. } => *local,
        Literal::Node { local, .. } => *local,
    }
}

// Lets the edges that lead to locals lead to their places. Answers the first local that has none.
pub(crate) fn place_links(links: &mut [Link], places: &Marks) -> Option<u32>
    requires { AscendByLocal places.now }
    ensures placed { IfNone result ((bodies : List TheBody)
        → ArePlaces bodies (place_in places.now)
        → map placed_of links.new ≡ map (placed_arc bodies) (link_arcs links.old)) }
    ensures found { IfNone result (All (IsFound (place_in places.now)) (link_arcs links.old)) }
    ensures lost { IfSome result (λ number.
        (arc : TheArc) × Contains (link_arcs links.old) arc
        × IsLost (place_in places.now) number arc) }
{
    'links: for link in links.iter_mut() {
        match placed_link(*link, places) {
            Some(placed) => *link = placed,
            None => return Some(link.child),
        }
    }
    None
}

// The edge to the place of its local; None exactly where that has none.
fn placed_link<'a>(link: Link<'a>, places: &Marks) -> Option<Link<'a>>
    requires { AscendByLocal places.now }
    ensures placed { IfSome result (λ placed. (bodies : List TheBody)
        → ArePlaces bodies (place_in places.now)
        → placed_of placed ≡ placed_arc bodies (arc_of link.entry)) }
    ensures found { IfSome result (λ _. IsFound (place_in places.now) (arc_of link.entry)) }
    ensures lost { IfNone result
        (IsLost (place_in places.now) link.entry.child (arc_of link.entry)) }
{
    if !link.is_local {
        return Some(link);
    }
    match place_of(places.as_slice(), link.child) {
        Some(place) => Some(Link {
            parent: link.parent,
            child: place,
            is_local: false,
            label: link.label,
        }),
        None => None,
    }
}
