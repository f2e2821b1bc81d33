ghost use Rattle.std.specs.Prelude.{◌≡◌, ◌-◌, [], ◌∷◌, ◌++◌, length, take, IfOk, OnOk};
ghost use Rattle.std.specs.List.{flat_map};
ghost use Rattle.lore_base.specs.Quotes.{escape, in_quotes};
ghost use Rattle.lorel_tokens.specs.declared.token_types.Kind.TheVariants as k;
ghost use Rattle.lorel_ast.specs.Printing.{print_label};
ghost use Rattle.lorel_ast.specs.inside.Puts.{Puts};

use itoa::Buffer;
use lore_base::{NoMemory, OemText, is_identifier};
use lorel_tokens::Sign;
use std::alloc::Global;
use std::marker::Model;

/// Writes tokens, each with a space behind it.
#[derive(Drop)]
pub struct TokenWriter {
    bytes: Vec<u8>,
}

impl Model for TokenWriter {
    ghost use Rattle.std.specs.Prelude.{ℕ, List};

    ghost Value = { List ℕ };

    ghost view = { λ w. w.bytes.items };
}

impl TokenWriter {
    /// A writer that has written nothing. Takes no memory.
    pub fn new(alloc: Global) -> TokenWriter
        ensures { result ≡ [] }
    {
        TokenWriter {
            bytes: Vec::new(alloc),
        }
    }

    // These bytes, behind what is written.
    fn put(&mut self, bytes: &[u8]) -> Result<(), NoMemory>
        ensures { OnOk result (self.new ≡ self.old ++ bytes.now) }
    {
        self.bytes.extend_from_slice(bytes)?;
        Ok(())
    }

    // A byte of a text between these quotes.
    fn escaped(&mut self, quote: u8, byte: u8) -> Result<(), NoMemory>
        ensures { OnOk result (self.new ≡ self.old ++ escape quote byte) }
    {
        if byte == quote {
            return self.put(&[b'\\', quote]);
        }
        match byte {
            b'\\' => self.put(b"\\\\"),
            b'\n' => self.put(b"\\n"),
            b'\r' => self.put(b"\\r"),
            b'\t' => self.put(b"\\t"),
            _ => self.put(&[byte]),
        }
    }

    // The bytes of a text, each as it is written between these quotes.
    fn contents(&mut self, quote: u8, text: &[u8]) -> Result<(), NoMemory>
        ensures { OnOk result (self.new ≡ self.old ++ flat_map (escape quote) text.now) }
    {
        'bytes: for byte in text {
            self.escaped(quote, *byte)?;
        }
        Ok(())
    }

    // A text in quotes.
    fn quoted(&mut self, quote: u8, text: &[u8]) -> Result<(), NoMemory>
        ensures { OnOk result (self.new ≡ self.old ++ in_quotes quote text.now) }
    {
        self.put(&[quote])?;
        self.contents(quote, text)?;
        self.put(&[quote])?;
        Ok(())
    }

    /// An identifier.
    #[tactic(auto, unfolding(lorel_lex::specs::Writing::spaced))]
    pub fn word(&mut self, word: &[u8]) -> Result<(), NoMemory>
        ensures { OnOk result (Puts (λ rest. k.Word word.now ∷ rest) self.old self.new) }
    {
        self.put(word)?;
        self.put(b" ")?;
        Ok(())
    }

    /// A pattern of labels.
    #[tactic(auto, unfolding(lorel_lex::specs::Writing::spaced))]
    pub fn pattern(&mut self, pattern: &[u8]) -> Result<(), NoMemory>
        ensures { OnOk result (Puts (λ rest. k.Wild pattern.now ∷ rest) self.old self.new) }
    {
        self.put(pattern)?;
        self.put(b" ")?;
        Ok(())
    }

    /// `path-of`.
    #[tactic(auto, unfolding(lorel_lex::specs::Writing::spaced))]
    pub fn path_of(&mut self) -> Result<(), NoMemory>
        ensures { OnOk result (Puts (λ rest. k.PathOf ∷ rest) self.old self.new) }
    {
        self.put(b"path-of ")?;
        Ok(())
    }

    /// A number, without leading zeros.
    #[tactic(auto, unfolding(lorel_lex::specs::Writing::spaced))]
    pub fn number(&mut self, number: i64) -> Result<(), NoMemory>
        ensures { OnOk result (Puts (λ rest. k.Number number ∷ rest) self.old self.new) }
    {
        let mut buffer = Buffer::new();
        self.put(buffer.format(number).as_bytes())?;
        self.put(b" ")?;
        Ok(())
    }

    /// A local, without leading zeros.
    #[tactic(auto, unfolding(lorel_lex::specs::Writing::spaced))]
    pub fn local(&mut self, local: u32) -> Result<(), NoMemory>
        ensures { OnOk result (Puts (λ rest. k.Local local ∷ rest) self.old self.new) }
    {
        let mut buffer = Buffer::new();
        self.put(b"&")?;
        self.put(buffer.format(local).as_bytes())?;
        self.put(b" ")?;
        Ok(())
    }

    /// A text.
    #[tactic(auto, unfolding(lorel_lex::specs::Writing::spaced))]
    pub fn text(&mut self, text: &[u8]) -> Result<(), NoMemory>
        ensures { OnOk result (Puts (λ rest. k.Chars text.now ∷ rest) self.old self.new) }
    {
        self.quoted(b'"', text)?;
        self.put(b" ")?;
        Ok(())
    }

    // A quoted label.
    #[tactic(auto, unfolding(lorel_lex::specs::Writing::spaced))]
    fn quoted_label(&mut self, label: &[u8]) -> Result<(), NoMemory>
        ensures { OnOk result (Puts (λ rest. k.Quoted label.now ∷ rest) self.old self.new) }
    {
        self.quoted(b'\'', label)?;
        self.put(b" ")?;
        Ok(())
    }

    /// A label: bare where it is an identifier, and else in quotes.
    pub fn label(&mut self, label: &[u8]) -> Result<(), NoMemory>
        ensures { OnOk result (Puts (print_label label.now) self.old self.new) }
    {
        if is_identifier(label) {
            self.word(label)?;
            Ok(())
        } else {
            self.quoted_label(label)?;
            Ok(())
        }
    }

    /// A symbol.
    #[tactic(auto, unfolding(lorel_lex::specs::Writing::spaced))]
    pub fn symbol(&mut self, sign: Sign) -> Result<(), NoMemory>
        ensures { OnOk result (Puts (λ rest. k.Symbol sign ∷ rest) self.old self.new) }
    {
        self.put(sign.text())?;
        self.put(b" ")?;
        Ok(())
    }

    /// What is written, without the last space.
    pub fn line(mut self, alloc: Global) -> Result<OemText, NoMemory>
        ensures { IfOk result (λ text. text ≡ take (length self - 1) self) }
    {
        let len = self.bytes.len();
        self.bytes.truncate(len.saturating_sub(1));
        OemText::from_vec(alloc, self.bytes)
    }
}
