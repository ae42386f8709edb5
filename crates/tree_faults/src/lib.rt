//! The faults of tokens that stand for no game tree: of which kind they are, and where (definitions
//! and laws).
//!
//! Callers may rely on: `faults_are_single`, that tokens have one fault at most, and one exactly
//! where they are no file; `stops_are_faults`, that where reading finds a fault there is one.
//! Definitions: `specs::TreeFaults` has what begins a file and the points of a node at which tokens
//! stop, `FaultKinds` the kinds of faults and where they are.
//! Lemmas for callers: `proofs::FaultLaws`, on faults; `ShortRestLemmas`, that the tokens after a
//! part are short.
//! A change here touches: `efg_reader`, which finds such faults, the faults of trees in
//! docs/FORMAT.md, and what `run` says of contents.
#![tactic(auto)]

ghost use mathlib.Core.Logic.{inl};
ghost use Rattle.std.specs.Prelude.{ℕ, ◌≡◌, ◌⊎◌, ◌<◌, ◌^◌, List, length, Err};
ghost use Rattle.game_core.specs.TokenList.{TokenList, bare};
ghost use Rattle.game_core.specs.declared.token.Token.{Token as token};
ghost use Rattle.file_parts.specs.Faults.{IsFaultFrom};
ghost use Rattle.tree_grammar.specs.TreeParsing.{parse_tree};
ghost use Rattle.tree_grammar.specs.declared.kinds.EfgKind.{EfgKind};
ghost use Rattle.tree_faults.specs.TreeFaults.{IsFile, BeginsFile};
ghost use Rattle.tree_faults.specs.FaultKinds.{IsKind, IsFault};

/// The tokens of a source have one fault at most; they have none where they are a file of a tree,
/// and one where they are none. (There are fewer than 2^32 of them.)
pub fn faults_are_single()
    ensures one { (tokens : TokenList) (kind other : EfgKind) (at offset : ℕ)
        → IsFault tokens kind at
        → IsFault tokens other offset → (kind ≡ other) × (at ≡ offset) }
    ensures of_no_file { (tokens : TokenList) (kind : EfgKind) (at : ℕ) → IsFile (bare tokens.list)
        → IsFault tokens kind at → ⊥ }
    ensures of_others { (tokens : TokenList) → length tokens.list < 2 ^ 32
        → IsFile (bare tokens.list) ⊎ ((kind : EfgKind) × (at : ℕ) × IsFault tokens kind at) }
{}

/// Where the reading of a tree stops with a fault, the tokens have that fault.
pub fn stops_are_faults()
    ensures { (tokens : List token) (kind : EfgKind) (rest : List token) → length tokens < 2 ^ 32
        → parse_tree tokens ≡ Err (inl (kind, rest))
        → IsFaultFrom IsFile BeginsFile IsKind tokens kind rest }
{}
