//! What lies outside of a run: the inputs that it reads, the sinks that it writes to, and the gate
//! that its workers pass.
//!
//! Callers may rely on: the clauses of `Inputs` and `Sink`, which every implementation keeps;
//! `MemInputs` and `MemSink` do exactly what their states say; a `Gate` changes no answer;
//! `read_some` hands on what a source gives.
//! Definitions: `specs::Inputs` and `specs::Sink` say what contracts see of both, `specs::Counts`
//! how calls that fail are counted, `specs::RealInputs` and `specs::RealSink` what the real ones
//! keep.
//! Private words: the modules `selection` and `tries`.
//! A change here touches: the contract of `run`, and `claims`, `basis_enum` and `enummixed`, which
//! pass the gate.
#![tactic(auto)]

mod gate;
mod inputs;
mod mem_inputs;
mod mem_sink;
mod real_inputs;
mod real_sink;
mod selection;
mod sink;
mod tries;

pub use gate::{Gate, OpenGate};
pub use inputs::{Inputs, OpenFailed, ReadFailed};
pub use mem_inputs::MemInputs;
pub use mem_sink::MemSink;
pub use real_inputs::{RealInputs, read_some};
pub use real_sink::RealSink;
pub use sink::{Sink, WriteFailed};
