//! Lists, options, results and tests, for contracts and proofs: what the library of the toolchain
//! leaves out.
//!
//! Callers may rely on: `lists_are_ordered`: the order of lists of numbers is strict, and lists in
//! order are determined by their members.
//! Definitions: `specs::Options` has `>>=`, by which a definition goes on with what it found;
//! `specs::Orders` the order of lists; `specs::Listed` the list of the numbers that pass a test,
//! and the index of a number in a list; `specs::Products` the pairs of two lists.
//! Lemmas for callers: `proofs::OptionLemmas`, `ElementLemmas` (lists, their elements and members,
//! and lists in an order), `AscendingNumberLemmas`, `ListedLemmas`, `NumberLemmas` and
//! `OrderLemmas`; `DeniedLemmas` and `ChosenElementLemmas`, on what cannot be denied of finitely
//! many numbers and elements; `LeastKeyLemmas`, on the item with the least key and the numbers of a
//! range that pass a test; `MappedErrorLemmas`, on results whose error is mapped. A lemma that names
//! a word of another crate stands in that crate.
//! A change here touches: the order of reduced strategies and of choice lists, and what the readers
//! of files take off their tokens.
#![tactic(auto)]

ghost use Rattle.lists.specs.Laws.{ListsAreOrdered};

/// The order of lists is strict, and lists in order are determined by their members.
pub fn lists_are_ordered()
    ensures { ListsAreOrdered }
{}
