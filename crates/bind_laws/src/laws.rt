//! Laws of the query language: bindings, answers and refusals are determined and exist, and neither
//! fusing nor binding changes a row.

ghost use Rattle.lore_base.specs.LeastWords.{HasSomeLeastWord};
ghost use Rattle.bind_laws.specs.Laws.{FusingKeepsRows, BindingKeepsRows, HasOneAnswer, HasSomeAnswer};
ghost use Rattle.bind_laws.specs.Laws.{HasOneBinding, HasSomeBinding};
ghost use Rattle.bind_laws.specs.Laws.{HasOneVerdict, HasSomeVerdict};

/// A select has one binding.
pub fn one_binding()
    ensures { HasOneBinding }
{}

/// A select that is accepted has a binding.
pub fn some_binding()
    ensures { HasSomeBinding }
{}

/// Where a path reaches an object, one of its words there is the least.
pub fn some_least_word()
    ensures { HasSomeLeastWord }
{}

/// A select has one answer.
pub fn one_answer()
    ensures { HasOneAnswer }
{}

/// A select has an answer where each of its paths starts somewhere.
pub fn some_answer()
    ensures { HasSomeAnswer }
{}

/// The valuations of the fused ranges give the rows of a select.
pub fn fusing_keeps_the_rows()
    ensures { FusingKeepsRows }
{}

/// A bound select has the rows of the select that it stands for.
pub fn binding_keeps_the_rows()
    ensures { BindingKeepsRows }
{}

/// A select is accepted, or some cause of refusal is the first that applies.
pub fn some_verdict()
    ensures { HasSomeVerdict }
{}

/// No select is both accepted and refused, and none has two first causes.
pub fn one_verdict()
    ensures { HasOneVerdict }
{}
