// Workers that are idle.
ghost use Rattle.std.specs.Prelude.{◌≡◌, ◌≤◌, IsTrue};

use std::marker::Model;
use std::sync::atomic::{AtomicU32, Ordering};

/// The fewest pieces that two workers can share.
pub const FEWEST_SHARED: usize = 2;

/// Workers that are idle. Those who are at work may share them: each takes one for a while where
/// enough pieces of its work are left, and adds it again. Contracts see how many pieces are enough.
#[derive(Drop)]
pub struct Helpers {
    idle: AtomicU32,
    fewest: usize,
}

impl Model for Helpers {
    ghost use Rattle.std.specs.Prelude.{ℕ};

    ghost Value = { ℕ };

    ghost view = { λ h. h.fewest };
}

impl Helpers {
    /// `count` idle workers; `fewest` pieces are enough for one.
    pub fn new(count: u32, fewest: usize) -> Helpers
        ensures { result ≡ fewest }
    {
        Helpers {
            idle: AtomicU32::new(count),
            fewest,
        }
    }

    /// Whether some workers are idle at this moment, and so many pieces are enough for one. Never
    /// where they are not enough.
    pub fn are_free_for(&self, pieces: usize) -> bool
        ensures { IsTrue result → self.now ≤ pieces }
    {
        self.fewest <= pieces && self.idle.load(Ordering::SeqCst) > 0
    }

    /// Takes an idle worker where so many pieces are enough, and says whether it did. Never where
    /// they are not enough.
    pub fn take_for(&self, pieces: usize) -> bool
        ensures { IsTrue result → self.now ≤ pieces }
    {
        if pieces < self.fewest {
            return false;
        }
        let left = |idle: u32| -> Option<u32> { idle.checked_sub(1) };
        self.idle
            .fetch_update(Ordering::SeqCst, Ordering::SeqCst, left)
            .is_ok()
    }

    /// Adds so many workers that are idle from now on. Their number stops at 2^32 - 1.
    pub fn add(&self, count: u32) {
        let more = |idle: u32| -> Option<u32> { Some(idle.saturating_add(count)) };
        let _ = self
            .idle
            .fetch_update(Ordering::SeqCst, Ordering::SeqCst, more);
    }
}
