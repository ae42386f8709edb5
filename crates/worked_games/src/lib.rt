//! Tests over `gambit_tools::run` that need an inside: calls of the inputs and sinks that fail,
//! what is read of an input, and what a gate sees of the workers. The program calls nothing here.
#![tactic(auto)]

#[cfg(test)]
mod case;
#[cfg(test)]
mod error_sink;
#[cfg(test)]
mod failing_calls;
#[cfg(test)]
mod long_input;
#[cfg(test)]
mod workers;
