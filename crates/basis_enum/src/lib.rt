//! The vertices of a polytope, found level by level among the bases that lexicographic pivots
//! reach.
//!
//! Callers may rely on: `enumerate` gives each vertex once, in the order of masks, with the number
//! of bases, which are no fewer, or the first step that does not fit, or the limit: one of these,
//! and only one (`vertices_are_single`, `vertices_are_answered`); the pivots that are counted are
//! one fewer than the bases. `enumerate_with` gives the same by `Helpers`, idle workers that
//! several enumerations share; `all_labels` gives the mask of all labels.
//! Definitions: `specs::Reached` has the bases of a system in stages, level by level, `Levels` what
//! levels are, `Bases` bases as numbers, `Enumeration` what a system answers; `linear_systems` says
//! what vertices are. `Texts` says how a basis is displayed.
//! Private words: `specs::Children`, `Found`, `Marks`, `Merged`, `Next` and `Walks`.
//! Lemmas for callers: `proofs::OneAnswerLaws`, that there is one answer at most.
//! A change here touches: `label_pairing`, `enummixed`, and the counts of `make`.
#![tactic(auto)]

ghost use Rattle.basis_enum.specs.AnsweredLaws.{ReachedAreAnswered, VerticesAreAnswered};
ghost use Rattle.basis_enum.specs.Enumeration.{VerticesAreSingle};
ghost use Rattle.basis_enum.specs.Laws.{NumbersOrderBases, CompleteLevelsCover, CompleteLevelsAreExtreme};
ghost use Rattle.basis_enum.specs.Reached.{ReachedAreSingle};

mod bases;
mod children;
mod enumeration;
mod found_pivots;
mod marking;
mod spent;
mod stop;
mod vertex;
mod walk;
mod workshop;

pub use claims::Helpers;
pub use enumeration::{enumerate, enumerate_with};
pub use marking::all_labels;
pub use stop::{Basis, EnumerationStop};
pub use vertex::{Vertex, Vertices};

/// A system has one answer at most: its vertices, or why they are not listed.
pub fn vertices_are_single()
    ensures { VerticesAreSingle }
{}

/// What a system reaches is one thing at most: all its bases, or one reason why not.
pub fn reached_are_single()
    ensures { ReachedAreSingle }
{}

/// A system has an answer: its vertices, or why they are not listed.
pub fn vertices_are_answered()
    ensures { VerticesAreAnswered }
{}

/// A system has an answer: all its bases, or a reason why not.
pub fn reached_are_answered()
    ensures { ReachedAreAnswered }
{}

/// Bases as numbers have the order of the ascending lists of basic variables.
pub fn numbers_order_bases()
    ensures { NumbersOrderBases }
{}

/// Where the enumeration is complete, the basic solutions of the reached tableaux are the extreme
/// points.
pub fn complete_levels_cover()
    ensures cover { CompleteLevelsCover }
    ensures extreme { CompleteLevelsAreExtreme }
{}
