// The enumeration on its way, level after level.
ghost use Rattle.std.specs.Prelude.{◌≡◌, ◌≢◌, ◌<◌, ◌≤◌, ◌+◌, ℕ, length, map, IfErr, IfOk, OnOk, Err};
ghost use Rattle.std.specs.List.{AllPairs, Contains};
ghost use Rattle.std.specs.List.Sorted.{IsStrictlyIncreasing};
ghost use Rattle.lists.specs.Listed.{AreListed};
ghost use Rattle.basis_enum.specs.Systems.{IsEnumerable};
ghost use Rattle.basis_enum.specs.Children.{AreAllChildren, IsChildStop, IsExpandable};
ghost use Rattle.basis_enum.specs.Found.{AreFoundIn};
ghost use Rattle.basis_enum.specs.Levels.{most_bases};
ghost use Rattle.basis_enum.specs.Merged.{IsMerged};
ghost use Rattle.basis_enum.specs.Next.{AreNewPivots, target_of};
ghost use Rattle.basis_enum.specs.Reached.{bases_within};
ghost use Rattle.basis_enum.specs.Walks.{AddsVertices, HaveEntering, IsCountStop, IsEnumerationStop, IsLevelStop, IsWalkAt, IsWalkToEnd};

use crate::bases::{basis, merged};
use crate::children::{ChildStop, Expansion, Made, children};
use crate::found_pivots::{FoundPivot, found_from, next_pivots, targets};
use crate::marking::add_vertex;
use crate::spent::Spent;
use crate::stop::{Basis, EnumerationStop};
use crate::vertex::Vertex;
use crate::workshop::Workshop;
use answers::Memory;
use game_core::{TooLarge, What};
use lex_tableau::{PivotCount, System, Tableau};
use outside::Gate;
use std::alloc::Global;
use std::marker::Sync;
use std::mem;
use std::sync::ledger::Ledger;
use std::thread::Threads;

// How many bases may be reached.
const MOST_BASES: u64 = 20_000;

// A level: its tableaux. Beside it the bases of all levels so far, in ascending order, the vertices
// of their tableaux as they were reached, and the tableaux that are spent.
#[derive(Drop)]
pub(crate) struct Walk {
    pub level: Vec<Tableau>,
    pub known: Vec<u128>,
    pub vertices: Vec<Vertex>,
    spent: Spent,
}

// Level 0, and the pivots to the next one.
fn start<G: Gate>(
    alloc: Global,
    system: &System,
    gate: &G,
) -> Result<(Walk, Vec<FoundPivot>), EnumerationStop>
    requires enumerable { IsEnumerable system.now }
    ensures walk { IfOk result (λ p. IsWalkAt system.now 0 p.0) }
    ensures next { IfOk result (λ p. AreNewPivots p.0.level.items p.0.known.items p.1.items) }
    ensures one { IfOk result (λ p. length p.0.known.items ≡ 1) }
    ensures stop { IfErr result (IsEnumerationStop system.now) }
{
    let tableau = Tableau::start(alloc, system)?;
    let basis = basis(system.nonbasics());
    let known = Vec::from_array(alloc, [basis])?;
    gate.pass(0);
    let findings = found_from(alloc, system, &tableau, 0, basis, known.as_slice())?;
    let level = Vec::from_array(alloc, [tableau])?;
    let mut vertices = Vec::new(alloc);
    add_vertex(&mut vertices, findings.vertex)?;
    let next = next_pivots(findings.found);
    let walk = Walk {
        level,
        known,
        vertices,
        spent: Spent::new(alloc)?,
    };
    Ok((walk, next))
}

// These variables, which differ from one another, in ascending order.
fn ascending(alloc: Global, variables: &[u32]) -> Result<Vec<u32>, Memory>
    requires { AllPairs (λ v w. v ≢ w) variables.now }
    ensures { IfOk result (λ v. AreListed (Contains variables.now) v.items) }
{
    let mut list = variables.to_vec(alloc)?;
    list.sort_unstable();
    Ok(list)
}

// The refusal of the next level.
fn refusal(alloc: Global, expansion: &Expansion, number: u32, stop: ChildStop) -> EnumerationStop
    requires expandable { IsExpandable expansion.now }
    requires entering { HaveEntering expansion.now.level.now expansion.now.next.now }
    requires stop { IsChildStop expansion.now stop }
    ensures { IsLevelStop expansion.now.level.now expansion.now.next.now number result }
{
    match stop {
        ChildStop::Unfit { place, unfit } => {
            let pivot = expansion.next[place];
            match ascending(alloc, expansion.level[pivot.parent as usize].basics()) {
                Ok(variables) => EnumerationStop::Range {
                    level: number,
                    basis: Basis::new(variables),
                    entering: pivot.entering,
                    unfit,
                },
                Err(_) => EnumerationStop::Memory,
            }
        }
        ChildStop::Memory => EnumerationStop::Memory,
    }
}

// The tableaux of the level after this one, and the pivots from there to new bases. The vertices of
// that level are added.
fn next_level<R: Threads + Sync, G: Gate, L: Ledger>(
    workshop: &Workshop<R, G>,
    expansion: &Expansion,
    number: u32,
    vertices: &mut Vec<Vertex>,
    pivots: &mut PivotCount<L>,
) -> Result<Made, EnumerationStop>
    requires expandable { IsExpandable expansion.now }
    requires entering { HaveEntering expansion.now.level.now expansion.now.next.now }
    ensures children { IfOk result (λ made. AreAllChildren expansion.now made.tableaux.items) }
    ensures found { IfOk result
        (λ made. AreFoundIn made.tableaux.items expansion.now.known.now made.found.items) }
    ensures vertices { IfOk result (λ made. AddsVertices expansion.now.system.now
        made.tableaux.items vertices.old.items vertices.new.items) }
    ensures stop { IfErr result
        (IsLevelStop expansion.now.level.now expansion.now.next.now number) }
    ensures counted { OnOk result (pivots.new ≡ pivots.old + length expansion.now.next.now) }
    ensures bounded { pivots.new ≤ pivots.old + length expansion.now.next.now }
    ensures risen { pivots.old ≤ pivots.new }
{
    match children(workshop, expansion, vertices, pivots) {
        Ok(made) => Ok(made),
        Err(stop) => Err(refusal(workshop.alloc, expansion, number, stop)),
    }
}

// Refuses too many bases.
fn check_count(bases: usize, next: &[FoundPivot]) -> Result<(), EnumerationStop>
    requires { bases ≤ most_bases }
    ensures few { OnOk result (bases + length next.now ≤ most_bases) }
    ensures stop { IfErr result (λ stop. bases_within (bases + length next.now) (Err stop)) }
{
    let count = bases as u64 + next.len() as u64;
    Ok(TooLarge::within(What::Bases, MOST_BASES, count)?)
}

// The bases that are known, and with them those to which these pivots lead.
fn known_after(
    alloc: Global,
    known: &[u128],
    next: &[FoundPivot],
) -> Result<Vec<u128>, EnumerationStop>
    requires few { length known.now ≤ most_bases }
    requires known { IsStrictlyIncreasing known.now }
    requires rising { IsStrictlyIncreasing (map target_of next.now) }
    requires new { (b : ℕ) → Contains known.now b → ¬ (Contains (map target_of next.now) b) }
    ensures few { OnOk result (length known.now + length next.now ≤ most_bases) }
    ensures merged { IfOk result (λ v. IsMerged known.now (map target_of next.now) v.items) }
    ensures stop { IfErr result (IsCountStop (length known.now + length next.now)) }
{
    check_count(known.len(), next)?;
    let new = targets(alloc, next)?;
    Ok(merged(alloc, known, new.as_slice())?)
}

// Goes on to the next level by the pivots to it, and finds those from there. The tableaux of this
// level are spent.
fn advance<R: Threads + Sync, G: Gate, L: Ledger>(
    workshop: &Workshop<R, G>,
    system: &System,
    walk: &mut Walk,
    next: &[FoundPivot],
    number: u32,
    pivots: &mut PivotCount<L>,
) -> Result<Vec<FoundPivot>, EnumerationStop>
    requires enumerable { IsEnumerable system.now }
    requires walk { IsWalkAt system.now number walk.old }
    requires next { AreNewPivots walk.old.level.items walk.old.known.items next.now }
    requires some { 0 < length next.now }
    ensures walk { OnOk result (IsWalkAt system.now (number + 1) walk.new) }
    ensures next { IfOk result
        (λ v. AreNewPivots walk.new.level.items walk.new.known.items v.items) }
    ensures stop { IfErr result (IsEnumerationStop system.now) }
    ensures counted { OnOk result (pivots.new + length walk.old.known.items
        ≡ pivots.old + length walk.new.known.items) }
    ensures bounded { pivots.new + length walk.old.known.items ≤ pivots.old + most_bases }
    ensures risen { pivots.old ≤ pivots.new }
{
    let known = known_after(workshop.alloc, walk.known.as_slice(), next)?;
    let expansion = Expansion {
        system,
        level: walk.level.as_slice(),
        next,
        known: known.as_slice(),
        spent: walk.spent.share_among(next.len()),
    };
    let vertices = &mut walk.vertices;
    let Made { tableaux, found } = next_level(workshop, &expansion, number, vertices, pivots)?;
    walk.spent.add(mem::replace(&mut walk.level, tableaux));
    walk.known = known;
    Ok(next_pivots(found))
}

// Goes from level to level, to the last one.
pub(crate) fn reach<R: Threads + Sync, G: Gate, L: Ledger>(
    workshop: &Workshop<R, G>,
    system: &System,
    pivots: &mut PivotCount<L>,
) -> Result<Walk, EnumerationStop>
    requires enumerable { IsEnumerable system.now }
    ensures walk { IfOk result (IsWalkToEnd system.now) }
    ensures stop { IfErr result (IsEnumerationStop system.now) }
    ensures counted { IfOk result (λ w. pivots.new + 1 ≡ pivots.old + length w.known.items) }
    ensures bounded { pivots.new < pivots.old + most_bases }
    ensures risen { pivots.old ≤ pivots.new }
{
    let (mut walk, mut next) = start(workshop.alloc, system, workshop.gate)?;
    let mut number = 0;
    while !next.is_empty() {
        next = advance(workshop, system, &mut walk, next.as_slice(), number, pivots)?;
        number += 1;
    }
    Ok(walk)
}
