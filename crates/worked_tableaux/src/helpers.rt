// Helpers that are taken and added, and work that they help with: a caller that is proved, and what
// a gate sees.
ghost use Rattle.std.specs.Prelude.{◌≡◌, ◌<◌, ◌*◌, ◌^◌, map, IfOk};
ghost use Rattle.std.specs.List.{range_with_len};

use crate::stop::Stop;
use answers::Memory;
use claims::{Claims, Helpers, helped_map};
use game_core::{Gate, OpenGate};
use std::alloc::Global;
use std::sync::atomic::{AtomicBool, Ordering};
use std::thread::Threads;

// How long a piece is held at most.
const TURNS: u64 = 100_000_000;

// Three times each number below `count`, by so many helpers.
fn triples<R: Threads + Sync>(
    rt: &R,
    alloc: Global,
    count: usize,
    helpers: u32,
) -> Result<Vec<u64>, Memory>
    requires { count < 2 ^ 32 }
    ensures { IfOk result (λ v. v.items ≡ map (λ k. 3 * k) (range_with_len 0 count)) }
{
    let (claims, mut pass) = Claims::new(alloc)?;
    let helpers = Helpers::new(helpers, 2);
    let triple = |k: usize| -> u64
        requires { k < 2 ^ 32 }
        ensures { result ≡ 3 * k }
    { 3 * k as u64 };
    helped_map(
        rt, alloc, &claims, &mut pass, count, &helpers, &OpenGate, &triple,
    )
}

// Makes a helper idle at the first of a hundred pieces, and holds the last but one until the last
// was passed.
#[derive(Drop)]
struct LateGate {
    helpers: Helpers,
    opened: AtomicBool,
    gave_up: AtomicBool,
}

impl LateGate {
    // Waits until the last piece was passed, or gives up.
    fn hold(&self) {
        for _ in 0..TURNS {
            if self.opened.load(Ordering::SeqCst) {
                return;
            }
        }
        self.gave_up.store(true, Ordering::SeqCst);
    }
}

impl Gate for LateGate {
    fn pass(&self, piece: usize) {
        match piece {
            0 => self.helpers.add(1),
            98 => self.hold(),
            99 => self.opened.store(true, Ordering::SeqCst),
            _ => {}
        }
    }
}

// Whether that helper joins in, and the pass has all parts again.
fn help_late<R: Threads + Sync>(rt: &R, alloc: Global) -> Result<bool, Memory> {
    let gate = LateGate {
        helpers: Helpers::new(0, 2),
        opened: AtomicBool::new(false),
        gave_up: AtomicBool::new(false),
    };
    let (claims, mut pass) = Claims::new(alloc)?;
    let got = helped_map(
        rt,
        alloc,
        &claims,
        &mut pass,
        100,
        &gate.helpers,
        &gate,
        &|k| k,
    )?;
    let gave_up = gate.gave_up.load(Ordering::SeqCst);
    Ok(got.len() == 100 && pass.parts() == 64 && !gave_up)
}

/// Of two helpers each is taken once for three pieces, none for two; then a third, who is added.
#[test]
fn idle_helpers_are_taken(rt: HostRuntime) -> Result<(), Stop> {
    let helpers = Helpers::new(2, 3);
    assert!(rt; helpers.are_free_for(3) && !helpers.are_free_for(2));
    assert!(rt; !helpers.take_for(2));
    assert!(rt; helpers.take_for(3) && helpers.take_for(4));
    assert!(rt; !helpers.are_free_for(3) && !helpers.take_for(3));
    helpers.add(1);
    assert!(rt; helpers.take_for(3) && !helpers.take_for(3));
    Ok(())
}

/// Three times four numbers, without a helper and with more helpers than numbers.
#[test]
fn triples_of_four(rt: HostRuntime) -> Result<(), Memory> {
    for helpers in [0, 1, 7] {
        let got = triples(&rt, rt.alloc(), 4, helpers)?;
        assert!(rt; got.as_slice() == [0, 3, 6, 9].as_slice());
    }
    Ok(())
}

/// Who becomes idle while the pieces are computed joins in.
#[test]
fn late_helper_joins_in(rt: HostRuntime) -> Result<(), Memory> {
    assert!(rt; help_late(&rt, rt.alloc())?);
    Ok(())
}
