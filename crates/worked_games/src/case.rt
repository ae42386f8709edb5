// One run over memory, and what it must do.
use answers::Memory;
use gambit_tools::run;
use game_core::{Gate, MemInputs, MemSink, OpenGate};
use std::alloc::Global;
use std::thread::Threads;

/// The words of a run with a space between them, the file `game` and standard input, how the
/// outside behaves (the calls of the inputs that fail, how many bytes the output takes a call and
/// altogether, whether its flush fails, and how many bytes standard error takes), and the status
/// and bytes that are wanted.
#[derive(Clone, Copy)]
pub struct Case<'a> {
    pub words: &'a str,
    pub game: &'a str,
    pub input: &'a [u8],
    pub failing: &'a [u64],
    pub out_most: usize,
    pub room: usize,
    pub flush_fails: bool,
    pub err_room: usize,
    pub status: u8,
    pub out: &'a [u8],
    pub err: &'a str,
}

impl<'a> Case<'a> {
    /// A run with these words over standard input, with nothing that fails and ample room, which
    /// ends with status 0 and writes nothing.
    pub fn of(words: &'a str, input: &'a [u8]) -> Case<'a> {
        Case {
            words,
            game: "",
            input,
            failing: &[],
            out_most: 1000,
            room: 1000,
            flush_fails: false,
            err_room: 1000,
            status: 0,
            out: &[],
            err: "",
        }
    }

    /// Whether the run does what is wanted.
    pub fn holds<R: Threads + Sync>(&self, rt: &R, alloc: Global) -> Result<bool, Memory> {
        self.holds_through(rt, alloc, &OpenGate)
    }

    /// The same, through a gate.
    pub fn holds_through<R: Threads + Sync, G: Gate>(
        &self,
        rt: &R,
        alloc: Global,
        gate: &G,
    ) -> Result<bool, Memory> {
        let (status, out, err) = self.ends(rt, alloc, gate)?;
        let taken = out.taken() == self.out && err.taken() == self.err.as_bytes();
        Ok(status == self.status && taken)
    }

    /// How the run ends: its status and both sinks.
    pub fn ends<R: Threads + Sync, G: Gate>(
        &self,
        rt: &R,
        alloc: Global,
        gate: &G,
    ) -> Result<(u8, MemSink, MemSink), Memory> {
        let mut inputs = self.inputs(alloc)?;
        let most = self.out_most.max(1);
        let mut out = MemSink::new(alloc, most, self.room, self.flush_fails)?;
        let mut err = MemSink::new(alloc, 1000, self.err_room, false)?;
        let words = owned(alloc, self.words)?;
        let status = run(rt, alloc, &words, &mut inputs, &mut out, &mut err, gate);
        Ok((status, out, err))
    }

    // The inputs of the run.
    fn inputs(&self, alloc: Global) -> Result<MemInputs, Memory> {
        let input = Vec::from_slice(alloc, self.input)?;
        let failing = Vec::from_slice(alloc, self.failing)?;
        let mut named = Vec::new(alloc);
        let game = Vec::from_slice(alloc, self.game.as_bytes())?;
        named.push((String::from_str(alloc, "game")?, game))?;
        Ok(MemInputs::new(input, named, failing))
    }
}

// Words as a run takes them. An empty text has none.
fn owned(alloc: Global, words: &str) -> Result<Vec<String>, Memory> {
    let mut owned = Vec::new(alloc);
    if words.is_empty() {
        return Ok(owned);
    }
    for word in words.split(' ') {
        owned.push(String::from_str(alloc, word)?)?;
    }
    Ok(owned)
}
