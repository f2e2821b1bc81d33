ghost use Rattle.std.specs.Prelude.{◌≡◌, ◌≢◌, ◌↔◌, ℕ, ◌+◌, ◌<◌, ◌≤◌, AllPairs, Contains};
ghost use Rattle.std.specs.Prelude.{IsTrue, IfOk, IfSome, IfNone, IsPermutation, sum_by};
ghost use Rattle.std.specs.declared.cmp.Ordering.TheVariants.{Equal};
ghost use Rattle.lore_base.specs.Deltas.{ListsOnlyIn};
ghost use Rattle.doem_facts.specs.Types.{HISTORY_WEIGHT as THE_WEIGHT};
ghost use Rattle.doem_facts.specs.Held.{facts_at};
ghost use Rattle.doem_facts.specs.Facts.{Ascends};

use crate::facts::Fact;
use crate::runs::Run;
use lore_base::limits::HISTORY_WEIGHT;
use lore_base::{Listing, NoMemory};
use std::alloc::Global;

/// A copy of the facts.
pub fn copied_facts<F: Fact + Drop>(alloc: Global, facts: &[F]) -> Result<Vec<F>, NoMemory>
    ensures { IfOk result (λ copy. copy.items ≡ facts.now) }
{
    let mut copy = Vec::with_capacity(alloc, facts.len())?;
    'facts: for fact in facts {
        copy.push(fact.copied(alloc)?)?;
    }
    Ok(copy)
}

/// The facts of those runs that hold the moment, in the order of the runs.
pub fn held_facts<F: Fact + Drop>(
    alloc: Global,
    runs: &[Run<F>],
    moment: u32,
) -> Result<Vec<F>, NoMemory>
    ensures { IfOk result (λ facts. facts.items ≡ facts_at moment runs.now) }
{
    let mut facts = Vec::new(alloc);
    'runs: for run in runs {
        if run.holds(moment) {
            facts.push(run.fact.copied(alloc)?)?;
        }
    }
    Ok(facts)
}

/// The weight with that of these facts; None exactly where it is more than a history may weigh.
pub fn weigh<F: Fact>(facts: &[F], start: u64) -> Option<u64>
    requires { start ≤ THE_WEIGHT }
    ensures some { IfSome result (λ weight. weight ≡ start + sum_by F.weight_of facts.now) }
    ensures light { IfSome result (λ weight. weight ≤ THE_WEIGHT) }
    ensures none { IfNone result (THE_WEIGHT < start + sum_by F.weight_of facts.now) }
{
    let mut weight = start;
    'facts: for fact in facts {
        weight = weight.saturating_add(fact.weight());
        if weight > HISTORY_WEIGHT {
            return None;
        }
    }
    Some(weight)
}

/// Puts the facts into their order. Takes no memory. Where they are distinct, and one place in the
/// order has one fact, they ascend then.
pub fn sort_facts<F: Fact>(facts: &mut Vec<F>)
    ensures members { IsPermutation facts.old.items facts.new.items }
    ensures ascend { AllPairs (λ a b. a ≢ b) facts.old.items
        → ((a b : F) → Contains facts.old.items a → Contains facts.old.items b
        → F.order a b ≡ Equal → a ≡ b)
        → Ascends F.order facts.new.items }
{
    facts.sort_unstable_by(|a, b| a.compare(b));
}

// Whether the fact is one of the ascending ones.
fn is_among<F: Fact>(facts: &[F], fact: &F) -> bool
    requires { Ascends F.order facts.now }
    ensures { IsTrue result ↔ Contains facts.now fact.now }
{
    match facts.binary_search_by(|other| other.compare(fact)) {
        Ok(place) => {
            let found = &facts[place];
            found.is(fact)
        }
        Err(_) => false,
    }
}

/// Those of the ascending facts that aren't among the others, which ascend too, in the same order.
pub fn without<F: Fact + Drop>(
    alloc: Global,
    facts: &[F],
    others: &[F],
) -> Result<Listing<F>, NoMemory>
    requires facts { Ascends F.order facts.now }
    requires others { Ascends F.order others.now }
    ensures exact { IfOk result (λ only. ListsOnlyIn only facts.now others.now) }
    ensures ascend { IfOk result (λ only. Ascends F.order only) }
{
    let mut only = Listing::new(alloc);
    'facts: for fact in facts {
        if !is_among(others, fact) {
            only.push(fact.copied(alloc)?)?;
        }
    }
    Ok(only)
}
