//! Tables as text that others lay out: web pages, and the games of the LaTeX package sgame.
//!
//! Callers may rely on: `html` and `sgame` give exactly the text of the layout, or which player is
//! wrong, or that the text is too long; `layouts_are_single`, `layouts_are_answered`.
//! Definitions: `specs::Layouts` has the layouts, made of `Marks` and `Names`; `specs::Converted`
//! what is answered; `specs::Examples` the prisoners' dilemma laid out.
//! Lemmas for callers: `proofs::OneLayoutLaws`, that a table has at most one answer.
//! A change here touches: the text of `convert`, byte for byte, and its refusals.
#![tactic(auto)]

mod cells;
mod convert;
mod marks;
mod names;
mod stops;
mod tables;

pub use convert::{
    html, layouts_are_answered, layouts_are_single, prisoners_dilemma_is_laid_out, sgame,
};
pub use stops::ConvertStop;
