//! Trees as they are read, recall and sequence forms, and the real inputs and sinks, as tests over
//! their crates. The program calls nothing here.
#![tactic(auto)]

#[cfg(test)]
mod games;
#[cfg(test)]
mod reading;
#[cfg(test)]
mod real_files;
#[cfg(test)]
mod recall;
#[cfg(test)]
mod sequences;
