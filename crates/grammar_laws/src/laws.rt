ghost use Rattle.grammar_laws.specs.Laws.{HasSomeToken, JoinsTwoOrMore, LeavesNoTrace, MakesChoice};
ghost use Rattle.grammar_laws.specs.Laws.{TakesLastLabel, ReachesLimit};
ghost use Rattle.grammar_laws.specs.Nesting.{CountsWhatIsWithin};
ghost use Rattle.grammar_laws.specs.Laws.{KeepsReservedWords, AreSoundParts};
ghost use Rattle.grammar_laws.specs.Laws.{AreDetermined, RefusesDeeper};
ghost use Rattle.grammar_laws.specs.Laws.{KeepsForms};
ghost use Rattle.grammar_laws.specs.PrintingLaws.{PrintsBack};
ghost use Rattle.grammar_laws.specs.PrintedText.{ArePrintedBack};

/// No statement has the empty list of tokens.
pub fn no_empty_statement()
    ensures { HasSomeToken }
{}

/// A single member of an `or` or `and` is itself, and two or more make a list.
pub fn lists_of_two_or_more()
    ensures { JoinsTwoOrMore }
{}

/// Parentheses round a condition leave no trace.
pub fn parentheses_leave_no_trace()
    ensures { LeavesNoTrace }
{}

/// A group of a path is a choice of sequences, also where it has one.
pub fn groups_are_choices()
    ensures { MakesChoice }
{}

/// Tokens determine the statement that has them, and how deep any text with them nests.
pub fn tokens_determine_the_statement()
    ensures { AreDetermined }
{}

/// A text that nests deeper than the limit is no statement.
pub fn nothing_nests_deeper()
    ensures { RefusesDeeper }
{}

/// The target of `+=` and `-=` is the longest path that stands there, without its last plain label.
pub fn targets_lose_a_label()
    ensures { TakesLastLabel }
{}

/// A derivation nests as deep as the deepest one within, and braces, groups, parentheses, `not` and
/// quantifiers enclose it by one level.
pub fn nesting_counts_what_is_within()
    ensures { CountsWhatIsWithin }
{}

/// The limit of nesting is reached by braces, and by groups, parentheses, `not` and quantifiers
/// inside each other.
pub fn nesting_reaches_its_limit()
    ensures { ReachesLimit }
{}

/// A reserved word is a label and no name.
pub fn reserved_words()
    ensures { KeepsReservedWords }
{}

/// A literal or dump text is sound where it is part of a sound statement.
pub fn sound_parts()
    ensures { AreSoundParts }
{}

/// The texts and numbers of what is sound keep their forms and limits.
pub fn sound_forms()
    ensures { KeepsForms }
{}

/// The canonical tokens of a statement are tokens of it, and nest no deeper than any text with its
/// tree.
pub fn canonical_tokens()
    ensures { PrintsBack }
{}

/// The text that `print_statement` gives for a sound statement whose texts are UTF-8 has the
/// statement's canonical tokens, and so it is parsed as the same statement.
pub fn printed_statements()
    ensures { ArePrintedBack }
{}
