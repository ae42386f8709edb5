//! The two systems of best replies of a game of two players.
//!
//! Callers may rely on: `polytopes` gives both systems, or the first reason why there are none;
//! `systems_are_the_polytopes`, of the points of both.
//! Definitions: `specs::Shifts` has the shift that makes a player's payoffs positive, `Polytopes`
//! the two systems, `Laws` what their points are, `Stops` what a game answers (`polytopes_in`).
//! Private words: `specs::Shapes`, systems of slacks whose cells stand in a list, and the shifted
//! payoffs.
//! Lemmas for callers: `proofs::PolytopeLemmas`, what the two systems of a game are;
//! `EnumerableLemmas`, what `basis_enum` asks of them; `LeastLemmas`, that the least payoff is
//! below each; `SingleLemmas`.
//! A change here touches: `enummixed`, and what it and `make` answer and refuse.
#![tactic(auto)]

mod laws;
mod shifts;
mod stop;
mod systems;
mod table_systems;

pub use laws::{polytopes_are_answered, polytopes_are_single, systems_are_the_polytopes};
pub use stop::PolyStop;
pub use table_systems::polytopes;
