// Reads the tokens of a source.
ghost use Rattle.std.specs.Prelude.{◌≡◌, ℕ, List, ◌∷◌, IfOk, IfErr};
ghost use Rattle.answers.specs.Answers.{Gives, IsSingle};
ghost use Rattle.game_text.specs.Numbers.{IsNumber};
ghost use Rattle.game_text.specs.Tokens.{FirstIs, IsBlank};
ghost use Rattle.game_text.specs.Reading.{IsNext, IsNoMark, RefusesNumber, StopsAt};
ghost use Rattle.game_text.specs.Laws.{EverySourceHasAnAnswer};
ghost use Rattle.game_text.specs.Stops.{tokens_of};
ghost use Rattle.game_text.specs.declared.reading.TextStop.TheVariants.{Fault, Memory};

use crate::number::{NumberFault, read_number};
use crate::spans::{bare_length, is_letter, without_blanks};
use crate::text::{closing, text};
use frac128::Frac;
use game_core::{Name, Spanned, Token, Tokens};
use std::alloc::{AllocError, AllocFailed, Global};
use std::fmt;

/// The kind of a fault in a text.
#[derive(Clone, Copy, Debug, PartialEq, Eq)]
pub enum TextKind {
    /// A byte that begins no token.
    BadChar,
    /// A quoted text that is not closed; the offset is that of its opening quote.
    OpenText,
    /// A run that is no number; the offset is that of its first byte.
    BadNumber,
    /// A number that passes a limit; the offset is that of its first byte.
    NumberTooLarge,
}

impl fmt::Display for TextKind {
    ghost use Rattle.std.specs.Prelude.{Some};
    ghost use Rattle.game_text.specs.Texts.{text_kind_text};

    ghost output = { λ kind. Some (text_kind_text kind) };

    fn fmt<W: fmt::Write>(&self, f: &mut fmt::Formatter<W>) -> fmt::Result {
        f.write_str(match self {
            TextKind::BadChar => "bad character",
            TextKind::OpenText => "unclosed text",
            TextKind::BadNumber => "bad number",
            TextKind::NumberTooLarge => "number too large",
        })
    }
}

/// A fault in a text: its kind, and the byte offset at which it stands, from 0.
#[derive(Clone, Copy, Debug, PartialEq, Eq)]
pub struct TextFault {
    /// The offset.
    pub at: usize,
    /// The kind.
    pub kind: TextKind,
}

/// Why the tokens of a text were not read.
#[derive(Clone, Copy, Debug, PartialEq, Eq)]
pub enum TextStop {
    /// The first fault of the text.
    Fault(TextFault),
    /// Memory ran out.
    Memory,
}

impl From<AllocError> for TextStop {
    ghost use Rattle.std.specs.Prelude.{◌≡◌};
    ghost use Rattle.game_text.specs.declared.reading.TextStop.TheVariants.{Memory};

    ghost from_gives = { λ _ e. e ≡ Memory };

    fn from(_error: AllocError) -> TextStop {
        TextStop::Memory
    }
}

impl<T: Drop> From<AllocFailed<T>> for TextStop {
    ghost use Rattle.std.specs.Prelude.{◌≡◌};
    ghost use Rattle.game_text.specs.declared.reading.TextStop.TheVariants.{Memory};

    ghost from_gives = { λ _ e. e ≡ Memory };

    fn from(_error: AllocFailed<T>) -> TextStop {
        TextStop::Memory
    }
}

// The token that opens with the quote before these bytes, and the bytes after it.
fn next_text(alloc: Global, bytes: &[u8], at: usize) -> Result<(Token, &[u8]), TextStop>
    ensures token { IfOk result (λ x. IsNext (34 ∷ bytes.now) x.1.now x.0) }
    ensures fault { IfErr result (StopsAt (34 ∷ bytes.now) at) }
{
    let closing = closing(bytes);
    let [_, rest @ ..] = closing else {
        return Err(fault(TextKind::OpenText, at));
    };
    let text = text(alloc, bytes, bytes.len() - closing.len())?;
    Ok((Token::Text(Name::new(text)), rest))
}

fn number(run: &[u8]) -> Result<Frac, TextKind>
    ensures number { IfOk result (IsNumber run.now) }
    ensures fault { IfErr result (RefusesNumber run.now) }
{
    match read_number(run) {
        Ok(number) => Ok(number),
        Err(NumberFault::Bad) => Err(TextKind::BadNumber),
        Err(NumberFault::TooLarge) => Err(TextKind::NumberTooLarge),
    }
}

// The word or number that comes next, and the bytes after it.
#[tactic(auto, using(crate::proofs::PrefixLemmas::prefix_lengths))]
fn next_run(alloc: Global, bytes: &[u8], at: usize) -> Result<(Token, &[u8]), TextStop>
    requires { FirstIs IsNoMark bytes.now }
    ensures token { IfOk result (λ x. IsNext bytes.now x.1.now x.0) }
    ensures fault { IfErr result (StopsAt bytes.now at) }
{
    let (run, rest) = bytes.split_at(bare_length(bytes));
    let [first, ..] = run else {
        return Err(fault(TextKind::BadChar, at));
    };
    if is_letter(*first) {
        let word = Vec::from_slice(alloc, run)?;
        return Ok((Token::Word(Name::new(word)), rest));
    }
    match number(run) {
        Ok(number) => Ok((Token::Number(number), rest)),
        Err(kind) => Err(fault(kind, at)),
    }
}

// The token that comes next, where no blank does, and the bytes after it.
fn next_token(alloc: Global, bytes: &[u8], at: usize) -> Result<(Token, &[u8]), TextStop>
    requires { FirstIs (λ b. ¬ (IsBlank b)) bytes.now }
    ensures token { IfOk result (λ x. IsNext bytes.now x.1.now x.0) }
    ensures fault { IfErr result (StopsAt bytes.now at) }
{
    match bytes {
        [b'{', rest @ ..] => Ok((Token::Left, rest)),
        [b'}', rest @ ..] => Ok((Token::Right, rest)),
        [b',', rest @ ..] => Ok((Token::Comma, rest)),
        [b'"', rest @ ..] => next_text(alloc, rest, at),
        _ => next_run(alloc, bytes, at),
    }
}

fn fault(kind: TextKind, at: usize) -> TextStop
    ensures { result ≡ Fault (record { at = at; kind = kind }) }
{
    TextStop::Fault(TextFault { at, kind })
}

/// Reads the tokens of a source.
///
/// # Errors
///
/// `Fault` exactly where the bytes are no list of tokens, with the first fault; `Memory` where
/// memory ran out.
pub fn read_tokens(alloc: Global, bytes: &[u8]) -> Result<Tokens, TextStop>
    ensures { Gives Memory (tokens_of bytes.now) result }
{
    let mut list = Vec::new(alloc);
    let mut rest = without_blanks(bytes);
    while !rest.is_empty() {
        let start = bytes.len() - rest.len();
        let (token, after) = next_token(alloc, rest, start)?;
        let end = bytes.len() - after.len();
        list.push(Spanned { token, start, end })?;
        rest = without_blanks(after);
    }
    Ok(Tokens::new(list, bytes.len()))
}

/// A byte string has one answer at most: a list of tokens, or a first fault.
pub fn tokens_are_single()
    ensures { (bytes : List ℕ) → IsSingle (tokens_of bytes) }
{}

/// Every byte string has an answer: a list of tokens, or a first fault.
pub fn sources_have_answers()
    ensures { EverySourceHasAnAnswer }
{}
