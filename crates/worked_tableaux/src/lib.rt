//! Tableaux, pairs of vertices, the bases of cubes, work that is shared by claims, and what gates
//! see of its workers, as tests over their crates. Nothing here is called by the program.
#![tactic(auto)]

#[cfg(test)]
mod cubes;
#[cfg(test)]
mod gates;
#[cfg(test)]
mod helpers;
#[cfg(test)]
mod pairings;
#[cfg(test)]
mod shared;
#[cfg(test)]
mod stop;
#[cfg(test)]
mod systems;
