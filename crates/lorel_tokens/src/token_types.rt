ghost use Rattle.std.specs.Prelude.{◌≡◌};
ghost use Rattle.lorel_tokens.specs.Types.{Kind as TheKind, Token as TheToken};
ghost use Rattle.lorel_tokens.specs.Shapes.{sign_text};

use lore_base::{Listing, NoMemory, OemText, TryCopy};
use std::alloc::Global;

/// A token of a chunk, with its place: the bytes of the chunk from `start` up to `end` are the
/// token.
#[derive(Debug, Drop)]
pub struct Token {
    pub kind: Kind,
    pub start: u32,
    pub end: u32,
}

/// The tokens of a chunk, in order.
pub type TokenList = Listing<Token>;

// A list of as many tokens as a chunk may have bytes stays below 3 GiB.
const _: () = prove!(size_of::<Token>() <= 40);

/// What a token is. Texts stand without their quotes and with their escapes resolved.
#[derive(Debug, Drop)]
pub enum Kind {
    /// An identifier.
    Word(OemText),
    /// A pattern of labels, with at least one `%`.
    Wild(OemText),
    /// `path-of`.
    PathOf,
    Number(i64),
    /// `&` and a number.
    Local(u32),
    /// A text in double quotes.
    Chars(OemText),
    /// A label in single quotes.
    Quoted(OemText),
    Symbol(Sign),
}

impl TryCopy for Kind {
    ghost Seen = { TheKind };

    ghost seen = { λ kind. kind };

    fn try_copy(&self, alloc: Global) -> Result<Self, NoMemory> {
        match self {
            Kind::Word(text) => Ok(Kind::Word(text.try_copy(alloc)?)),
            Kind::Wild(text) => Ok(Kind::Wild(text.try_copy(alloc)?)),
            Kind::PathOf => Ok(Kind::PathOf),
            Kind::Number(number) => Ok(Kind::Number(*number)),
            Kind::Local(local) => Ok(Kind::Local(*local)),
            Kind::Chars(text) => Ok(Kind::Chars(text.try_copy(alloc)?)),
            Kind::Quoted(text) => Ok(Kind::Quoted(text.try_copy(alloc)?)),
            Kind::Symbol(sign) => Ok(Kind::Symbol(*sign)),
        }
    }
}

impl TryCopy for Token {
    ghost Seen = { TheToken };

    ghost seen = { λ token. token };

    fn try_copy(&self, alloc: Global) -> Result<Self, NoMemory> {
        Ok(Token {
            kind: self.kind.try_copy(alloc)?,
            start: self.start,
            end: self.end,
        })
    }
}

/// The symbols `{ } ( ) , . : := = == != < <= > >= += -= ? * + | # @`, in this order.
#[derive(Clone, Copy, Debug, PartialEq, Eq)]
pub enum Sign {
    LeftBrace,
    RightBrace,
    LeftParen,
    RightParen,
    Comma,
    Dot,
    Colon,
    Assign,
    Equal,
    SameAs,
    NotEqual,
    Less,
    LessEqual,
    Greater,
    GreaterEqual,
    PlusAssign,
    MinusAssign,
    Question,
    Star,
    Plus,
    Bar,
    Hash,
    At,
}

impl Sign {
    /// The bytes of the symbol.
    pub fn text(self) -> &'static [u8]
        ensures { result.now ≡ sign_text self }
    {
        match self {
            Sign::LeftBrace => b"{",
            Sign::RightBrace => b"}",
            Sign::LeftParen => b"(",
            Sign::RightParen => b")",
            Sign::Comma => b",",
            Sign::Dot => b".",
            Sign::Colon => b":",
            Sign::Assign => b":=",
            Sign::Equal => b"=",
            Sign::SameAs => b"==",
            Sign::NotEqual => b"!=",
            Sign::Less => b"<",
            Sign::LessEqual => b"<=",
            Sign::Greater => b">",
            Sign::GreaterEqual => b">=",
            Sign::PlusAssign => b"+=",
            Sign::MinusAssign => b"-=",
            Sign::Question => b"?",
            Sign::Star => b"*",
            Sign::Plus => b"+",
            Sign::Bar => b"|",
            Sign::Hash => b"#",
            Sign::At => b"@",
        }
    }
}
