// Cubes: each variable from 1 to n is at most 1, and n + 1 to 2 n are what is left up to 1.
ghost use Rattle.std.specs.Prelude.{◌≡◌, ◌+◌, ◌*◌, ◌<◌, ◌≤◌, length, IfOk};
ghost use Rattle.std.specs.List.{All};
ghost use Rattle.rational.specs.Rational.{zero_ℚ, ◌≤ℚ◌};
ghost use Rattle.basis_enum.specs.Systems.{IsEnumerable};

use crate::stop::Stop;
use basis_enum::{EnumerationStop, enumerate};
use frac128::Frac;
use game_core::{Gate, OpenGate, TooLarge, What};
use lex_tableau::{PivotCount, System, numbered};
use std::alloc::Global;
use std::marker::{Brand, Sync};
use std::sync::ledger::{Blank, Ledger};
use std::thread::Threads;

// A cell of the cube of so many variables, the right side last in each row.
#[tactic(auto, using(crate::proofs::CubeSystemLemmas::one_above))]
fn cell(size: u32, row: u32, column: u32) -> Frac
    ensures { zero_ℚ ≤ℚ result }
{
    if column == row || column == size {
        Frac::one()
    } else {
        Frac::zero()
    }
}

// The cells of the cube of so many variables, row by row.
fn cells(alloc: Global, size: u32) -> Result<Vec<Frac>, Stop>
    requires { size ≤ 64 }
    ensures length { IfOk result (λ v. length v.items ≡ size * (size + 1)) }
    ensures above { IfOk result (λ v. All (λ q. zero_ℚ ≤ℚ q) v.items) }
{
    let mut cells = Vec::new(alloc);
    for row in 0..size {
        for column in 0..size + 1 {
            cells.push(cell(size, row, column))?;
        }
    }
    Ok(cells)
}

// The cube of so many variables.
fn cube(alloc: Global, size: u32) -> Result<System, Stop>
    requires { size ≤ 64 }
    ensures { IfOk result IsEnumerable }
{
    let cells = cells(alloc, size)?;
    let basics = numbered(alloc, size + 1, size)?;
    let nonbasics = numbered(alloc, 1, size)?;
    Ok(System::new(basics, nonbasics, cells, size as usize))
}

// How many bases and vertices a cube has, or the limit that it passes.
fn counts<R: Threads + Sync, G: Gate, L: Ledger>(
    rt: &R,
    alloc: Global,
    size: u32,
    workers: u32,
    gate: &G,
    blank: Blank,
) -> Result<Result<(u64, usize), TooLarge>, Stop>
    requires few { size ≤ 64 }
    requires workers { (1 ≤ workers) × (workers ≤ 64) }
    requires blank { (L.parts ≡ blank.parts) × (L.name ≡ blank.name) × (0 < blank.parts) }
{
    let system = cube(alloc, size)?;
    let mut pivots = PivotCount::<L>::new(blank);
    match enumerate(rt, alloc, &system, workers, gate, &mut pivots) {
        Ok(vertices) => Ok(Ok((vertices.bases, vertices.list.len()))),
        Err(EnumerationStop::TooLarge(limit)) => Ok(Err(limit)),
        Err(_) => Err(Stop::Refused),
    }
}

/// The same, with pivots counted on a blank of their own.
pub(crate) fn counted<R: Threads + Sync, G: Gate>(
    rt: &R,
    alloc: Global,
    size: u32,
    workers: u32,
    gate: &G,
) -> Result<Result<(u64, usize), TooLarge>, Stop>
    requires few { size ≤ 64 }
    requires workers { (1 ≤ workers) × (workers ≤ 64) }
{
    counts::<R, G, Brand>(rt, alloc, size, workers, gate, Blank::new(1))
}

/// Cubes with few bases, with nearly as many as may be, and with too many, by one worker and by
/// seven. Of the bases of the cube of 15 dimensions the half on the levels 0 to 7 is within the
/// limit, and the next level passes it: 16384 + 6435.
#[test]
fn bases_of_cubes(rt: HostRuntime) -> Result<(), Stop> {
    let alloc = rt.alloc();
    let limit = TooLarge {
        what: What::Bases,
        count: 22819,
        limit: 20000,
    };
    for workers in [1, 7] {
        assert!(rt; counted(&rt, alloc, 1, workers, &OpenGate)? == Ok((2, 1)));
        assert!(rt; counted(&rt, alloc, 3, workers, &OpenGate)? == Ok((8, 7)));
        assert!(rt; counted(&rt, alloc, 14, workers, &OpenGate)? == Ok((16384, 16383)));
        assert!(rt; counted(&rt, alloc, 15, workers, &OpenGate)? == Err(limit));
    }
    Ok(())
}
