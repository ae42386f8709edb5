// Work that is shared by claims: two callers that are proved, and what gates see of the workers.
ghost use Rattle.std.specs.Prelude.{◌≡◌, ◌<◌, ◌≤◌, ◌*◌, ◌^◌, length, map, slice_index, IfOk};
ghost use Rattle.std.specs.List.{range_with_len};

use crate::gates::HoldingGate;
use answers::Memory;
use claims::{Claims, shared_map};
use game_core::{Gate, OpenGate};
use std::alloc::Global;
use std::sync::atomic::{AtomicU64, Ordering};
use std::thread::Threads;

// The squares of the numbers below `count`, by three workers.
fn squares<R: Threads + Sync>(rt: &R, alloc: Global, count: usize) -> Result<Vec<u64>, Memory>
    requires { count < 2 ^ 32 }
    ensures { IfOk result (λ v. v.items ≡ map (λ k. k * k) (range_with_len 0 count)) }
{
    let (claims, mut pass) = Claims::new(alloc)?;
    let square = |k: usize| -> u64
        requires { k < 2 ^ 32 }
        ensures { result ≡ k * k }
    { k as u64 * k as u64 };
    shared_map(rt, alloc, &claims, &mut pass, count, 3, &OpenGate, &square)
}

// Twice each number, by so many workers, who borrow the numbers.
fn doubles<R: Threads + Sync>(
    rt: &R,
    alloc: Global,
    numbers: &[u32],
    workers: u32,
) -> Result<Vec<u64>, Memory>
    requires count { length numbers.now < 2 ^ 32 }
    requires workers { (1 ≤ workers) × (workers ≤ 64) }
    ensures { IfOk result (λ v. v.items ≡ map (λ n. 2 * n) numbers.now) }
{
    let (claims, mut pass) = Claims::new(alloc)?;
    let double = |k: usize| -> u64
        requires { k < length numbers.now }
        ensures { result ≡ 2 * slice_index numbers.entry.now k }
    { 2 * numbers[k] as u64 };
    shared_map(
        rt,
        alloc,
        &claims,
        &mut pass,
        numbers.len(),
        workers,
        &OpenGate,
        &double,
    )
}

// Counts how often each piece was passed.
#[derive(Drop)]
struct CountingGate {
    passes: Vec<AtomicU64>,
}

impl CountingGate {
    // A gate for so many pieces, of which none was passed.
    fn new(alloc: Global, count: usize) -> Result<CountingGate, Memory> {
        let mut passes = Vec::new(alloc);
        for _ in 0..count {
            passes.push(AtomicU64::new(0))?;
        }
        Ok(CountingGate { passes })
    }

    // Whether each piece was passed once.
    fn passed_once(&self) -> bool {
        for passes in &self.passes {
            if passes.load(Ordering::SeqCst) != 1 {
                return false;
            }
        }
        true
    }
}

impl Gate for CountingGate {
    fn pass(&self, piece: usize) {
        if piece < self.passes.len() {
            self.passes[piece].fetch_add(1, Ordering::SeqCst);
        }
    }
}

// Whether two workers compute two numbers, of which one waits at the first until the other passed
// the second.
fn run_at_once<R: Threads + Sync>(rt: &R, alloc: Global) -> Result<bool, Memory> {
    let gate = HoldingGate::new(0);
    let (claims, mut pass) = Claims::new(alloc)?;
    let got = shared_map(rt, alloc, &claims, &mut pass, 2, 2, &gate, &|k| k)?;
    Ok(got.as_slice() == [0, 1].as_slice() && !gate.gave_up())
}

// Whether seven workers compute a thousand numbers through a gate, and the pass has all parts
// again.
fn compute_all<R: Threads + Sync>(
    rt: &R,
    alloc: Global,
    gate: &CountingGate,
) -> Result<bool, Memory> {
    let (claims, mut pass) = Claims::new(alloc)?;
    let got = shared_map(rt, alloc, &claims, &mut pass, 1000, 7, gate, &|k| k)?;
    Ok(got.len() == 1000 && pass.parts() == 64)
}

// Whether they do, and pass each piece once.
fn pass_each_once<R: Threads + Sync>(rt: &R, alloc: Global) -> Result<bool, Memory> {
    let gate = CountingGate::new(alloc, 1000)?;
    Ok(compute_all(rt, alloc, &gate)? && gate.passed_once())
}

/// The squares of ten numbers.
#[test]
fn squares_of_ten(rt: HostRuntime) -> Result<(), Memory> {
    let got = squares(&rt, rt.alloc(), 10)?;
    assert!(rt; got.as_slice() == [0, 1, 4, 9, 16, 25, 36, 49, 64, 81].as_slice());
    Ok(())
}

/// Twice three numbers, also by more workers than numbers.
#[test]
fn doubles_by_all_workers(rt: HostRuntime) -> Result<(), Memory> {
    let numbers = [4_294_967_295, 0, 17];
    for workers in [1, 2, 3, 64] {
        let got = doubles(&rt, rt.alloc(), &numbers, workers)?;
        assert!(rt; got.as_slice() == [8_589_934_590, 0, 34].as_slice());
    }
    Ok(())
}

/// Two workers run at once.
#[test]
fn two_workers_run_at_once(rt: HostRuntime) -> Result<(), Memory> {
    assert!(rt; run_at_once(&rt, rt.alloc())?);
    Ok(())
}

/// Each piece is passed once.
#[test]
fn each_piece_is_passed_once(rt: HostRuntime) -> Result<(), Memory> {
    assert!(rt; pass_each_once(&rt, rt.alloc())?);
    Ok(())
}
