//! Why a run of `gambit` is refused: the status with which the program ends, and the one line on
//! standard error.
//!
//! Callers may rely on: `Refusal::status` and `Refusal::line` are those that are defined;
//! `Refusal::fixed_line` gives the line of a refusal that names no number, without memory.
//! Definitions: `specs::Refusals` has the status and the line of each refusal, which names the site
//! of a step as `Site` displays it; `specs::Told` the refusal for each layer's reason to stop.
//! Private words: the module `lines`, which writes the lines that name numbers.
//! A change here touches: `gambit_tools`: the statuses and lines of the contract of `run`.
#![tactic(auto)]

mod lines;
mod refusal;
mod site;
mod told;

pub use refusal::Refusal;
pub use site::Site;
