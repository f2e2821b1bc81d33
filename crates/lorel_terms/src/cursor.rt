ghost use Rattle.std.specs.Prelude.{◌≡◌, length, map, slice_get};
ghost use Rattle.std.specs.Option.{option_copied};
ghost use Rattle.lorel_terms.specs.Outcomes as spec;
ghost use Rattle.lorel_terms.specs.Outcomes.{Reads};

use crate::faults::ParseFault;
use lorel_tokens::{Kind, Sign, Token};
use std::marker::Model;

/// A place in the tokens of a chunk, seen by contracts as the kinds of the tokens from it on.
#[derive(Drop)]
pub struct Cursor<'t> {
    rest: &'t [Token],
}

impl<'t> Model for Cursor<'t> {
    ghost use Rattle.std.specs.Prelude.{List, map};
    ghost use Rattle.lorel_terms.specs.Types.{Kind};

    ghost Value = { List Kind };

    ghost view = { λ cursor. map (λ token. token.kind) cursor.rest.now };
}

impl<'t> Cursor<'t> {
    /// The place before these tokens.
    pub fn new(tokens: &'t [Token]) -> Cursor<'t>
        ensures { result ≡ map (λ token. token.kind) tokens.now }
    {
        Cursor { rest: tokens }
    }

    /// How many tokens there are from here on.
    pub fn len(&self) -> usize
        ensures { result ≡ length self.now }
    {
        self.rest.len()
    }

    /// The next token; None exactly where there is none.
    pub(crate) fn peek(&self) -> Option<&'t Kind>
        ensures { option_copied result ≡ slice_get self.now 0 }
    {
        Some(&self.rest.first()?.kind)
    }

    /// Goes past the next token, where there is one.
    pub(crate) fn skip(&mut self)
        ensures { self.new ≡ spec.next self.old }
    {
        if let Some((_, rest)) = self.rest.split_first() {
            self.rest = rest;
        }
    }

    /// Whether the next token is this symbol.
    #[tactic(auto, unfolding(crate::specs::Outcomes::sees))]
    pub(crate) fn sees(&self, sign: Sign) -> bool
        ensures { result ≡ spec.sees sign self.now }
    {
        match self.peek() {
            Some(Kind::Symbol(other)) => *other == sign,
            _ => false,
        }
    }

    /// Whether the next token is this word.
    #[tactic(auto, unfolding(crate::specs::Outcomes::sees_word))]
    pub(crate) fn sees_word(&self, wanted: &[u8]) -> bool
        ensures { result ≡ spec.sees_word wanted.now self.now }
    {
        match self.peek() {
            Some(Kind::Word(text)) => text.as_bytes() == wanted,
            _ => false,
        }
    }

    /// Whether the next token is this symbol, which is then taken.
    pub fn eat(&mut self, sign: Sign) -> bool
        ensures found { result ≡ spec.sees sign self.old }
        ensures after { self.new ≡ spec.after sign self.old }
    {
        let found = self.sees(sign);
        if found {
            self.skip();
        }
        found
    }

    /// Whether the next token is this word, which is then taken.
    pub fn eat_word(&mut self, wanted: &[u8]) -> bool
        ensures found { result ≡ spec.sees_word wanted.now self.old }
        ensures after { self.new ≡ spec.after_word wanted.now self.old }
    {
        let found = self.sees_word(wanted);
        if found {
            self.skip();
        }
        found
    }

    /// Takes this symbol.
    #[tactic(auto, unfolding(crate::specs::Outcomes::expect))]
    pub fn expect(&mut self, sign: Sign) -> Result<(), ParseFault>
        ensures { Reads (λ found. found) (spec.expect sign self.old) result self.new }
    {
        if self.eat(sign) {
            Ok(())
        } else {
            Err(ParseFault::Syntax)
        }
    }

    /// Takes this word.
    #[tactic(auto, unfolding(crate::specs::Outcomes::expect_word))]
    pub fn expect_word(&mut self, wanted: &[u8]) -> Result<(), ParseFault>
        ensures { Reads (λ found. found) (spec.expect_word wanted.now self.old) result self.new }
    {
        if self.eat_word(wanted) {
            Ok(())
        } else {
            Err(ParseFault::Syntax)
        }
    }

    /// Takes the next token, whatever it is.
    pub fn take(&mut self) -> Result<&'t Kind, ParseFault>
        ensures { Reads (λ kind. kind.now) (spec.taken self.old) result self.new }
    {
        let Some(kind) = self.peek() else {
            return Err(ParseFault::Syntax);
        };
        self.skip();
        Ok(kind)
    }
}
