//! Laws of ranges: those of a select, plain and fused, are determined, and there always are some.

ghost use Rattle.lorel_ranges.specs.Laws.{HasOnePlain, HasSomePlain, HasOneFused, HasSomeFused};

/// A select has one list of plain ranges.
pub fn one_list_of_plain_ranges()
    ensures { HasOnePlain }
{}

/// A select has some list of plain ranges.
pub fn some_list_of_plain_ranges()
    ensures { HasSomePlain }
{}

/// A select has one list of fused ranges.
pub fn one_list_of_fused_ranges()
    ensures { HasOneFused }
{}

/// The plain ranges of a select can be fused.
pub fn some_list_of_fused_ranges()
    ensures { HasSomeFused }
{}
