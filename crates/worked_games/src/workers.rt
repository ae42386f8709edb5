// What a gate sees of the workers of a run.
use crate::case::Case;
use answers::Memory;
use game_core::{Gate, OpenGate};
use std::alloc::Global;
use std::sync::atomic::{AtomicBool, AtomicU64, Ordering};
use std::thread::Threads;

// How long a piece is held at most.
const TURNS: u64 = 100_000_000;

// Counts the passes, and holds one pass of piece 0 until piece 1 was passed: a worker alone would
// wait for itself.
#[derive(Drop)]
struct HoldingGate {
    held: u64,
    passes: AtomicU64,
    passes_of_first: AtomicU64,
    opened: AtomicBool,
    gave_up: AtomicBool,
}

impl HoldingGate {
    // A gate that holds the pass of piece 0 before which there were so many.
    fn new(held: u64) -> HoldingGate {
        HoldingGate {
            held,
            passes: AtomicU64::new(0),
            passes_of_first: AtomicU64::new(0),
            opened: AtomicBool::new(false),
            gave_up: AtomicBool::new(false),
        }
    }

    // Whether it was held in vain.
    fn gave_up(&self) -> bool {
        self.gave_up.load(Ordering::SeqCst)
    }

    // Waits until piece 1 was passed, or gives up.
    fn hold(&self) {
        for _ in 0..TURNS {
            if self.opened.load(Ordering::SeqCst) {
                return;
            }
        }
        self.gave_up.store(true, Ordering::SeqCst);
    }
}

impl Gate for HoldingGate {
    fn pass(&self, piece: usize) {
        self.passes.fetch_add(1, Ordering::SeqCst);
        if piece == 1 {
            self.opened.store(true, Ordering::SeqCst);
        }
        if piece == 0 && self.passes_of_first.fetch_add(1, Ordering::SeqCst) == self.held {
            self.hold();
        }
    }
}

// Whether a run does what is wanted, passes a gate twelve times and two of its workers run at once,
// where this pass of piece 0 is held.
fn shares_work<R: Threads + Sync>(
    rt: &R,
    alloc: Global,
    held: u64,
    case: Case,
) -> Result<bool, Memory> {
    let gate = HoldingGate::new(held);
    let holds = case.holds_through(rt, alloc, &gate)?;
    Ok(holds && gate.passes.load(Ordering::SeqCst) == 12 && !gate.gave_up())
}

// Whether a run without an input writes this text.
fn writes<'a, R: Threads + Sync>(
    rt: &R,
    alloc: Global,
    words: &'a str,
    text: &'a [u8],
) -> Result<bool, Memory> {
    let case = Case {
        out: text,
        ..Case::of(words, b"")
    };
    case.holds(rt, alloc)
}

// Whether one worker writes counts, and two and sixty-four workers write the same.
fn same_counts<R: Threads + Sync>(rt: &R, alloc: Global) -> Result<bool, Memory> {
    let alone = Case::of("make 1 8 8", b"");
    let (_status, out, _err) = alone.ends(rt, alloc, &OpenGate)?;
    let text = out.taken();
    if !text.starts_with(b"bases ") || !writes(rt, alloc, "make -j 2 1 8 8", text)? {
        return Ok(false);
    }
    writes(rt, alloc, "make -j 64 1 8 8", text)
}

/// Both tools hand their workers on, and four workers enumerate both polytopes at once: while one
/// holds the first basis, the other polytope goes on. Each of the seven bases is passed once for
/// its pivots, and each of the five that are not the first of their polytope once for its tableau.
#[test]
fn workers_of_both_tools(rt: HostRuntime) -> Result<(), Memory> {
    let counts = "bases 4 3\nvertices 3 2\nequilibria 1\n";
    let game = "NFG 1 R \"\" { \"A\" \"B\" } { 2 2 } 8 8 3 5 1 7 0 9";
    let rows = [
        (1, "make -j 2 1 2 2", "", counts),
        (0, "make -j 4 1 2 2", "", counts),
        (1, "enummixed -D -j 2", game, "NE,1,0,1,0\n"),
    ];
    for (held, words, input, out) in rows {
        let case = Case {
            out: out.as_bytes(),
            ..Case::of(words, input.as_bytes())
        };
        assert!(rt; shares_work(&rt, rt.alloc(), held, case)?, "{words}");
    }
    Ok(())
}

/// The counts of a table of eight rows and columns are the same for one, two and sixty-four
/// workers.
#[test]
fn any_number_of_workers(rt: HostRuntime) -> Result<(), Memory> {
    assert!(rt; same_counts(&rt, rt.alloc())?);
    Ok(())
}
