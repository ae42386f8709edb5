//! Numbers that threads claim from one word, each once; work that is shared among threads by such
//! claims; and idle workers, who may help with it.
//!
//! Callers may rely on: `shared_map`, whose list has at each index what the function gives there,
//! however many workers, and `helped_map`, the same by helpers; a pass with all parts knows each
//! number below its count claimed once; `Helpers` gives a worker only where the pieces are enough
//! for one.
//! Definitions: `specs::ClaimWord` has `PassState`, what contracts see of a `Pass`, with
//! `HasEachBelow` and `KnowsWhole`.
//! Private words: `specs::Pieces`, and `KeepsClaims`, the rule of the claim word.
//! A change here touches: `basis_enum`, which computes its levels by `helped_map`; `enummixed`,
//! whose enumerations share `Helpers`; and gate tests, which alone call `shared_map`.
#![tactic(auto)]

mod claim_word;
mod helpers;
mod helping;
mod sharing;

pub use claim_word::{Claims, Pass};
pub use helpers::{FEWEST_SHARED, Helpers};
pub use helping::{PIECES_ALONE, helped_map, make_room};
pub use sharing::shared_map;
