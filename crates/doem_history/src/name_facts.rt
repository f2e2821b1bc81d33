ghost use Rattle.std.specs.Prelude.{◌≡◌, IfOk};
ghost use Rattle.lore_base.specs.Names.{IsNameTable};

use doem_facts::NameFact;
use lore_base::{Names, NoMemory, TryCopy};
use std::alloc::Global;

// The names with their objects, in the names' order.
pub(crate) fn name_facts(alloc: Global, names: &Names) -> Result<Vec<NameFact>, NoMemory>
    ensures facts { IfOk result (λ facts. facts.items ≡ names.now) }
    ensures table { IsNameTable names.now }
{
    let count = names.len();
    let texts = names.texts()?;
    let oids = names.objects()?;
    let mut facts = Vec::with_capacity(alloc, count)?;
    let mut place = 0;
    'texts: for text in texts.as_slice() {
        let copy = text.try_copy(alloc)?;
        facts.push((copy, oids.as_slice()[place]))?;
        place += 1;
    }
    Ok(facts)
}

// The table of these names.
pub(crate) fn name_table(alloc: Global, facts: &[NameFact]) -> Result<Names, NoMemory>
    requires { IsNameTable facts.now }
    ensures { IfOk result (λ names. names ≡ facts.now) }
{
    let mut names = Names::new(alloc);
    'facts: for fact in facts {
        names.put(fact.0.try_copy(alloc)?, fact.1)?;
    }
    Ok(names)
}
