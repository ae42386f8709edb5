// What a gate sees of the workers who share a level of bases.
use crate::cubes::counted;
use crate::stop::Stop;
use game_core::Gate;
use std::sync::atomic::{AtomicBool, AtomicU64, Ordering};

// How long a piece is held at most.
const TURNS: u64 = 100_000_000;

/// Holds one pass of piece 0 until piece 1 was passed: a worker alone would wait for itself.
#[derive(Drop)]
pub struct HoldingGate {
    held: u64,
    passes_of_first: AtomicU64,
    opened: AtomicBool,
    gave_up: AtomicBool,
}

impl HoldingGate {
    /// A gate that holds the pass of piece 0 before which there were so many.
    pub fn new(held: u64) -> HoldingGate {
        HoldingGate {
            held,
            passes_of_first: AtomicU64::new(0),
            opened: AtomicBool::new(false),
            gave_up: AtomicBool::new(false),
        }
    }

    /// Whether it was held in vain.
    pub fn gave_up(&self) -> bool {
        self.gave_up.load(Ordering::SeqCst)
    }

    // Waits until piece 1 was passed, or gives up.
    fn hold(&self) {
        for _ in 0..TURNS {
            if self.opened.load(Ordering::SeqCst) {
                return;
            }
        }
        self.gave_up.store(true, Ordering::SeqCst);
    }
}

impl Gate for HoldingGate {
    fn pass(&self, piece: usize) {
        if piece == 1 {
            self.opened.store(true, Ordering::SeqCst);
        }
        if piece == 0 && self.passes_of_first.fetch_add(1, Ordering::SeqCst) == self.held {
            self.hold();
        }
    }
}

/// Two workers share the three new bases of a cube: while one holds the first, the other passes the
/// second.
#[test]
fn workers_share_a_level(rt: HostRuntime) -> Result<(), Stop> {
    let gate = HoldingGate::new(1);
    assert!(rt; counted(&rt, rt.alloc(), 3, 2, &gate)? == Ok((8, 7)));
    assert!(rt; !gate.gave_up());
    Ok(())
}
