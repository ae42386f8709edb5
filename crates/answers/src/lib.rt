//! What a computation in stages may answer, and its laws; and want of memory, the one answer of
//! which no contract says when it comes.
//!
//! Callers may rely on: `stages_are_single`, that stages have at most one answer if each has;
//! `stages_give` and `reasons_are_told`, what a call gives that computes them.
//! Definitions: `specs::Answers` has `Answer`, `IsSingle`, `Gives`, and how stages are put
//! together; `specs::Answered` has `IsAnswered`, that there is an answer.
//! Lemmas for callers: `proofs::AnswerLemmas`, by which a relation made of stages is single and a
//! call gives what it says; `AnsweredLemmas`, by which it has an answer.
//! A change here touches: the contract of nearly every call that can be refused, up to that of
//! `run`.
#![tactic(auto)]

ghost use Rattle.std.specs.Prelude.{Ok, Err, Result};
ghost use Rattle.answers.specs.Answers.{Answer, IsSingle, Gives, then, refused_by, map_err};

mod memory;

pub use memory::Memory;

/// Two stages, of which the second may speak of what the first gives.
pub trait Stages<E, Y, Z> {
    /// The refusal for want of memory.
    ghost memory: { E };

    /// The first stage.
    ghost first: { Answer E Y };

    /// The second stage, by the value of the first.
    ghost second: { Y → Answer E Z };
}

/// Stages one after another have at most one answer, if each has.
pub fn stages_are_single<E, Y, Z, S: Stages<E, Y, Z>>()
    ensures { IsSingle S.first → ((y : Y) → S.first (Ok y) → IsSingle (S.second y))
        → IsSingle (then S.first S.second) }
{}

/// The answer of the second of two stages is that of both, and so is a refusal of the first.
pub fn stages_give<E, Y, Z, S: Stages<E, Y, Z>>()
    ensures second { (y : Y) (answer : Result Z E) → S.first (Ok y)
        → Gives S.memory (S.second y) answer
        → Gives S.memory (then S.first S.second) answer }
    ensures first { (r : E) → Gives S.memory S.first (Err r)
        → Gives S.memory (then S.first S.second) (Err r) }
{}

/// A stage whose reasons to stop are told by refusals.
pub trait Reasons<R, E, Y> {
    /// The reason for want of memory.
    ghost memory: { R };

    /// The refusal for a reason.
    ghost told: { R → E };

    /// The stage.
    ghost stage: { Answer R Y };
}

/// A stage with at most one answer has so when its reasons are told by refusals, and its call gives
/// it.
pub fn reasons_are_told<R, E, Y, S: Reasons<R, E, Y>>()
    ensures single { IsSingle S.stage → IsSingle (refused_by S.told S.stage) }
    ensures given { (answer : Result Y R) → Gives S.memory S.stage answer
        → Gives (S.told S.memory) (refused_by S.told S.stage) (map_err S.told answer) }
{}
