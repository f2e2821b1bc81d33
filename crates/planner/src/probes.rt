ghost use Rattle.std.specs.Prelude.{◌≡◌, ◌≢◌, ◌↔◌, ℕ, List, map, IsTrue, IfSome, IfNone};
ghost use Rattle.lore_base.specs.Paths.{path_tree, step};
ghost use Rattle.index_traits.specs.Entries.{IsProbed};
ghost use Rattle.lorel_bound.specs.Bound.{bound_cond, bound_conds, conds_from};
ghost use Rattle.lorel_bound.specs.Bound.{bound_operand, bound_path};
ghost use Rattle.lorel_bound.specs.Conditions.{compare, at, constant};
ghost use Rattle.lorel_bound.specs.Plans.{Probe as TheProbe, IsFitting, DoesNotFit};
ghost use Rattle.lorel_bound.specs.Plans.{IsFirstFitting, IsTaken};
ghost use Rattle.planner.specs.Types.{Plain};
ghost use Rattle.planner.specs.inside.Probes.{probe_tree, EndsIn, PartsEndIn};

use lore_base::{OemText, Op, Path, Pattern, Value};
use lorel_bound::{BoundCond, BoundCondList, BoundOperand, BoundPath, BoundStart};

/// What a comparison asks for: a path from a slot to objects that a label leads to, and how their
/// values compare.
#[derive(Clone, Copy)]
pub(crate) struct Probe<'b> {
    pub(crate) slot: u32,
    pub(crate) rest: &'b Path,
    pub(crate) label: &'b OemText,
    pub(crate) op: Op,
    pub(crate) value: &'b Value,
}

/// The comparison that is taken of a condition: the whole of it where it fits, or the first member
/// of its topmost `and` that does.
pub(crate) fn taken(cond: &BoundCond) -> Option<Probe<'_>>
    ensures some { IfSome result (λ probe. IsTaken (bound_cond cond.now) (probe_tree probe)) }
    ensures none { IfNone result ((probe : TheProbe) → IsTaken (bound_cond cond.now) probe → ⊥) }
{
    match cond {
        BoundCond::And(members) => first_fitting(members),
        _ => fitting(cond),
    }
}

// The first member that fits.
fn first_fitting(members: &BoundCondList) -> Option<Probe<'_>>
    ensures some { IfSome result (λ probe.
        IsFirstFitting (conds_from (bound_conds members.now)) (probe_tree probe)) }
    ensures none { IfNone result ((probe : TheProbe)
        → IsFirstFitting (conds_from (bound_conds members.now)) probe → ⊥) }
{
    'members: for member in members.as_slice() {
        match fitting(member) {
            Some(probe) => return Some(probe),
            None => {}
        }
    }
    None
}

// What the condition asks for, if it is a comparison that fits.
fn fitting(cond: &BoundCond) -> Option<Probe<'_>>
    ensures some { IfSome result (λ probe. IsFitting (bound_cond cond.now) (probe_tree probe)) }
    ensures none { IfNone result (DoesNotFit (bound_cond cond.now)) }
{
    match cond {
        BoundCond::Compare { left, op, right } => comparison(left, *op, right),
        _ => None,
    }
}

// What a comparison asks for, if it fits.
fn comparison<'b>(left: &'b BoundOperand, op: Op, right: &'b BoundOperand) -> Option<Probe<'b>>
    ensures some { IfSome result (λ probe. IsFitting
        (compare (bound_operand left.now) op (bound_operand right.now)) (probe_tree probe)) }
    ensures none { IfNone result
        (DoesNotFit (compare (bound_operand left.now) op (bound_operand right.now))) }
{
    match (left, right) {
        (BoundOperand::At(path), BoundOperand::Atom(value)) => path_comparison(path, op, value),
        _ => None,
    }
}

// The same of a path and an atom.
fn path_comparison<'b>(path: &'b BoundPath, op: Op, value: &'b Value) -> Option<Probe<'b>>
    ensures some { IfSome result (λ probe. IsFitting
        (compare (at (bound_path path.now)) op (constant value.now)) (probe_tree probe)) }
    ensures none { IfNone result
        (DoesNotFit (compare (at (bound_path path.now)) op (constant value.now))) }
{
    if !is_probed(op) || value.is_complex() {
        return None;
    }
    let BoundStart::Slot(slot) = path.start else {
        return None;
    };
    let label = last_label(&path.rest)?;
    Some(Probe {
        slot,
        rest: &path.rest,
        label,
        op,
        value,
    })
}

// Whether values can be sought that compare so.
fn is_probed(op: Op) -> bool
    ensures { IsTrue result ↔ IsProbed op }
{
    !matches!(op, Op::Ne | Op::Like)
}

/// The text of the plain label that is the last part of a path.
pub fn last_label(path: &Path) -> Option<&OemText>
    ensures some { IfSome result (λ label. EndsIn (path_tree path.now) label.now) }
    ensures none { IfNone result ((label : List ℕ) → EndsIn (path_tree path.now) label → ⊥) }
{
    match path {
        Path::Seq(parts) => last_part_label(parts.as_slice()),
        _ => None,
    }
}

// The same of a path's parts.
fn last_part_label(parts: &[Path]) -> Option<&OemText>
    ensures some { IfSome result (λ label. PartsEndIn (map path_tree parts.now) label.now) }
    ensures none { IfNone result ((label : List ℕ)
        → PartsEndIn (map path_tree parts.now) label → ⊥) }
{
    match parts.last() {
        Some(part) => plain_label(part),
        None => None,
    }
}

// The text of a path that is a plain label.
fn plain_label(path: &Path) -> Option<&OemText>
    ensures some { IfSome result (λ label. path_tree path.now ≡ step (Plain label.now)) }
    ensures none { IfNone result ((label : List ℕ) → path_tree path.now ≢ step (Plain label)) }
{
    match path {
        Path::Step(Pattern::Plain(label)) => Some(label),
        _ => None,
    }
}
