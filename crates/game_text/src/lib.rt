//! The text of game files: its tokens with their offsets, and the numbers among them.
//!
//! Callers may rely on: `read_tokens` gives the one answer of a text, its tokens or its first
//! fault; `read_number` a number's exact value, or what is wrong, without memory.
//! Definitions: `specs::Tokens` has tokens and faults, `specs::Numbers` the texts, values and
//! limits of numbers, `specs::Stops` what bytes answer (`tokens_of`), `specs::Laws` that each has
//! an answer, `specs::Texts` how a fault's kind is displayed.
//! Private words: `specs::Reading` and `specs::NumberReading`, which say how the code reads.
//! Lemmas for callers: `proofs::DigitLemmas`, and `OneListLaws`, that there is one answer at most.
//! A change here touches: the tokens of docs/FORMAT.md, `ne_printer`, `gambit_tools`.
#![tactic(auto)]

mod number;
mod parts;
mod reading;
mod sizes;
mod spans;
mod text;
mod values;

pub use game_core::{Spanned, Token, Tokens};
pub use number::{NumberFault, numbers_have_one_form, numbers_have_one_value, read_number};
pub use reading::{
    TextFault, TextKind, TextStop, read_tokens, sources_have_answers, tokens_are_single,
};
