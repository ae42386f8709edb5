//! Fractions, numbers, limits, tokens, tables, lines and command lines, as tests over their crates.
//! Nothing here is called by the program.
#![tactic(auto)]

#[cfg(test)]
mod command_lines;
#[cfg(test)]
mod fractions;
#[cfg(test)]
mod limits;
#[cfg(test)]
mod lines;
#[cfg(test)]
mod numbers;
#[cfg(test)]
mod tables;
#[cfg(test)]
mod tokens;
