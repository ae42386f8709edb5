//! The program: the real inputs and outputs, handed to `gambit_tools::run`.
#![tactic(auto)]

use gambit_tools::{Refusal, Usage, refuse, run};
use outside::{OpenGate, RealInputs, RealSink};
use std::alloc::Global;
use std::env::{self, Env};
use std::io::ErrorKind;
use std::process::ExitCode;

// Reads the words after the program's own name. A word that is not UTF-8 makes a faulty command
// line.
fn read_words<R: Env + AllocGlobal>(rt: &R, alloc: Global) -> Result<Vec<String>, Refusal> {
    let given = match env::args(rt) {
        Ok(given) => given,
        Err(error) if error.kind() == ErrorKind::OutOfMemory => return Err(Refusal::Memory),
        Err(_) => return Err(Refusal::Usage(Usage::Words)),
    };
    Ok(given.skip(1).collect::<Vec<String>>(alloc)?)
}

fn main(rt: HostRuntime) -> ExitCode {
    let alloc = rt.alloc();
    let mut err = RealSink::new(rt.stderr());
    let status = match read_words(&rt, alloc) {
        Ok(words) => {
            let mut inputs = RealInputs::new(&rt);
            let mut out = RealSink::new(rt.stdout());
            run(
                &rt,
                alloc,
                &words,
                &mut inputs,
                &mut out,
                &mut err,
                &OpenGate,
            )
        }
        Err(refusal) => refuse(alloc, &mut err, refusal),
    };
    ExitCode::from(status)
}
