ghost use Rattle.std.specs.Prelude.{IsTrue, IfOk};
ghost use Rattle.lorel_eval.specs.inside.Ready.{ready_tree};
ghost use Rattle.lorel_eval.specs.inside.Early.{FailsByKnown, SomeFailsByKnown};

use crate::conditions::cond_holds;
use crate::known_starts::is_due;
use crate::ready_conds::{ReadyCond, ReadyOperand};
use crate::subject::Subject;
use index_traits::{Adjacent, ValueOf};
use lore_base::limits::RANGES;
use lore_base::{NoMemory, Oid, Steps};
use std::alloc::Global;
use std::sync::ledger::Ledger;

// What a member of a condition asks: they are tested early in this order.
#[derive(Clone, Copy, PartialEq, Eq)]
enum Kind {
    // It compares what a path reaches with a value.
    WithValue,
    // It compares what two paths reach.
    OfPaths,
    Other,
}

/// Whether the objects in the known slots tell that the condition fails: it does itself, or some
/// member of its topmost `and` does. Members that read no slot but those before the last known one
/// were told when theirs was filled, and aren't tested again. With `by_values` members that compare
/// what two paths reach aren't tested.
pub(crate) fn fails_early<A: Adjacent, G: ValueOf, L: Ledger>(
    alloc: Global,
    subject: &Subject<A, G>,
    cond: &ReadyCond,
    known: &[bool; RANGES],
    by_values: bool,
    steps: &mut Steps<L>,
) -> Result<bool, NoMemory>
    ensures { IfOk result (λ answer. IsTrue answer
        → FailsByKnown subject.now known.now (ready_tree cond.now)) }
{
    match cond {
        ReadyCond::And(members) => {
            some_fails(alloc, subject, members.as_slice(), known, by_values, steps)
        }
        _ => member_fails(alloc, subject, cond, known, steps),
    }
}

// Whether some of the members fails. Those that compare are tested first: it costs least.
fn some_fails<A: Adjacent, G: ValueOf, L: Ledger>(
    alloc: Global,
    subject: &Subject<A, G>,
    members: &[ReadyCond],
    known: &[bool; RANGES],
    by_values: bool,
    steps: &mut Steps<L>,
) -> Result<bool, NoMemory>
    ensures { IfOk result (λ answer. IsTrue answer
        → SomeFailsByKnown subject.now known.now members.now) }
{
    if some_of_kind_fails(alloc, subject, members, known, Kind::WithValue, steps)? {
        return Ok(true);
    }
    if some_of_paths_fails(alloc, subject, members, known, by_values, steps)? {
        return Ok(true);
    }
    some_of_kind_fails(alloc, subject, members, known, Kind::Other, steps)
}

// Whether some of the members fails that compare what two paths reach, unless values alone are asked.
fn some_of_paths_fails<A: Adjacent, G: ValueOf, L: Ledger>(
    alloc: Global,
    subject: &Subject<A, G>,
    members: &[ReadyCond],
    known: &[bool; RANGES],
    by_values: bool,
    steps: &mut Steps<L>,
) -> Result<bool, NoMemory>
    ensures { IfOk result (λ answer. IsTrue answer
        → SomeFailsByKnown subject.now known.now members.now) }
{
    if by_values {
        return Ok(false);
    }
    some_of_kind_fails(alloc, subject, members, known, Kind::OfPaths, steps)
}

// Whether some of the members of this kind fails.
fn some_of_kind_fails<A: Adjacent, G: ValueOf, L: Ledger>(
    alloc: Global,
    subject: &Subject<A, G>,
    members: &[ReadyCond],
    known: &[bool; RANGES],
    kind: Kind,
    steps: &mut Steps<L>,
) -> Result<bool, NoMemory>
    ensures { IfOk result (λ answer. IsTrue answer
        → SomeFailsByKnown subject.now known.now members.now) }
{
    'members: for member in members {
        if is_of_kind_and_fails(alloc, subject, member, known, kind, steps)? {
            return Ok(true);
        }
    }
    Ok(false)
}

// Whether the member is of this kind and fails.
fn is_of_kind_and_fails<A: Adjacent, G: ValueOf, L: Ledger>(
    alloc: Global,
    subject: &Subject<A, G>,
    member: &ReadyCond,
    known: &[bool; RANGES],
    kind: Kind,
    steps: &mut Steps<L>,
) -> Result<bool, NoMemory>
    ensures { IfOk result (λ answer. IsTrue answer
        → FailsByKnown subject.now known.now (ready_tree member.now)) }
{
    if kind_of(member) != kind {
        return Ok(false);
    }
    member_fails(alloc, subject, member, known, steps)
}

fn kind_of(cond: &ReadyCond) -> Kind {
    match cond {
        ReadyCond::Compare { left, right, .. } => kind_of_sides(left, right),
        ReadyCond::Same { .. } => Kind::OfPaths,
        _ => Kind::Other,
    }
}

fn kind_of_sides(left: &ReadyOperand, right: &ReadyOperand) -> Kind {
    match (left, right) {
        (ReadyOperand::At(_), ReadyOperand::At(_)) => Kind::OfPaths,
        _ => Kind::WithValue,
    }
}

// Whether a condition fails that reads known slots alone, the last one among them.
fn member_fails<A: Adjacent, G: ValueOf, L: Ledger>(
    alloc: Global,
    subject: &Subject<A, G>,
    cond: &ReadyCond,
    known: &[bool; RANGES],
    steps: &mut Steps<L>,
) -> Result<bool, NoMemory>
    ensures { IfOk result (λ answer. IsTrue answer
        → FailsByKnown subject.now known.now (ready_tree cond.now)) }
{
    if !is_due(cond, known) {
        return Ok(false);
    }
    let around: [Oid; 0] = [];
    if cond_holds(alloc, subject, &around, cond, steps)? {
        return Ok(false);
    }
    Ok(true)
}
