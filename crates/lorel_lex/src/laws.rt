ghost use Rattle.lorel_lex.specs.Scan.{HasOneCut, HasSomeCut};
ghost use Rattle.lorel_lex.specs.Tokens.{HasOneOutcome, HasSomeOutcome};
ghost use Rattle.lorel_lex.specs.Writing.{AreReadBack, IsLineReadBack, AreQuotesReadBack};

/// A script has at most one cut into chunks and a rest.
pub fn one_cut()
    ensures { HasOneCut }
{}

/// Each script has a cut into chunks and a rest.
pub fn some_cut()
    ensures { HasSomeCut }
{}

/// A chunk has at most one outcome: one list of tokens or one fault.
pub fn one_outcome()
    ensures { HasOneOutcome }
{}

/// Each chunk has an outcome: a list of tokens or a fault.
pub fn some_outcome()
    ensures { HasSomeOutcome }
{}

/// Tokens that have their form, and whose texts are UTF-8, are read back where they are written
/// with blank bytes between them, as a line of them is.
pub fn written_tokens()
    ensures any { AreReadBack }
    ensures line { IsLineReadBack }
{}

/// A text that is written in quotes with its escapes is read as itself, and as no other text.
pub fn written_quotes()
    ensures { AreQuotesReadBack }
{}
