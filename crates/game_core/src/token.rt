// Tokens and their offsets.
use crate::Name;
use frac128::Frac;
use std::marker::Model;

/// A token of a game file.
#[derive(Debug, Drop)]
pub enum Token {
    /// `{`
    Left,
    /// `}`
    Right,
    /// `,`
    Comma,
    /// A quoted text, without its quotes and with `\"` read as a quote.
    Text(Name),
    /// A run of letters, digits and the bytes `+`, `-`, `.`, `/` that begins with a letter.
    Word(Name),
    /// A run that begins with no letter, as its value.
    Number(Frac),
}

/// A token with its span in the source: the byte offsets, from 0, of its first byte and of the byte
/// after it.
#[derive(Debug, Drop)]
pub struct Spanned {
    /// The token.
    pub token: Token,
    /// The offset of its first byte.
    pub start: usize,
    /// The offset of the byte after it.
    pub end: usize,
}

/// The tokens of a source in order, and the source's length in bytes. No span passes that length,
/// and each number has a numerator and a denominator below 2^63 in size.
#[derive(Debug, Drop)]
pub struct Tokens {
    list: Vec<Spanned>,
    source_length: usize,
}

impl Model for Tokens {
    ghost use Rattle.game_core.specs.TokenList.{TokenList, code_of_tokens};

    ghost Value = { TokenList };

    ghost coded = { code_of_tokens };

    ghost use Rattle.game_core.specs.Spacing.{AreSpaced};

    ghost view = { λ t. record { list = t.list.items; length = t.source_length } };

    ghost invariant = { λ t. AreSpaced 0 t.source_length t.list.items };
}

impl Tokens {
    ghost use Rattle.std.specs.Prelude.{◌≡◌};
    ghost use Rattle.game_core.specs.Spacing.{AreSpaced};

    /// These tokens of a source of this length. Takes no memory.
    pub fn new(list: Vec<Spanned>, source_length: usize) -> Tokens
        requires { AreSpaced 0 source_length list.items }
        ensures { result ≡ record { list = list.items; length = source_length } }
    {
        Tokens {
            list,
            source_length,
        }
    }

    /// The tokens in order.
    pub fn list(&self) -> &[Spanned]
        ensures list { result.now ≡ self.now.list }
        ensures are_spaced { AreSpaced 0 self.now.length self.now.list }
    {
        self.list.as_slice()
    }

    /// The number of bytes of the source.
    pub fn source_length(&self) -> usize
        ensures { result ≡ self.now.length }
    {
        self.source_length
    }
}
