// The tableaux of the next level.
ghost use Rattle.std.specs.Prelude.{◌≡◌, ◌<◌, ◌≤◌, ◌+◌, ◌++◌, ◌∷◌, [], length, option_to_list, IfOk, IfErr, IfSome, MatchResult, OnOk};
ghost use Rattle.lex_tableau.specs.PivotStops.{IsPivotStop};
ghost use Rattle.basis_enum.specs.Levels.{IsPivot, parent_of};
ghost use Rattle.basis_enum.specs.Children.{AreAllChildren, ArePiecesFrom, IsChildAt, IsChildStop, IsChildStopAt, IsExpandable, IsMadeFrom, IsPivoted, IsReachedAt};
ghost use Rattle.basis_enum.specs.Found.{AreFoundIn, AreReady};
ghost use Rattle.basis_enum.specs.Next.{pivot_of};
ghost use Rattle.basis_enum.specs.Walks.{AddsVertices, AddsMoreVertices};

use crate::found_pivots::{Findings, FoundPivot, found_from};
use crate::marking::add_vertex;
use crate::spent::SpentShare;
use crate::vertex::Vertex;
use crate::workshop::Workshop;
use answers::Memory;
use claims::{Claims, PIECES_ALONE, helped_map};
use frac128::Unfit;
use lex_tableau::{PivotCount, PivotStop, System, Tableau};
use outside::{Gate, OpenGate};
use std::alloc::{AllocError, AllocFailed, Global};
use std::marker::{Brand, Sync};
use std::sync::ledger::{Blank, Ledger};
use std::thread::Threads;

/// A level and what is read while the next one is made: the system, the tableaux of the level, the
/// pivots from there to new bases, and the bases that are known, these new ones among them. The new
/// tableaux are written over those that are spent.
#[derive(Drop)]
pub(crate) struct Expansion<'a, 's> {
    pub system: &'a System,
    pub level: &'a [Tableau],
    pub next: &'a [FoundPivot],
    pub known: &'a [u128],
    pub spent: SpentShare<'s>,
}

// Why the next level has no tableaux: the place of a pivot with its first step that does not fit;
// `Memory` where memory ran out.
#[derive(Drop)]
pub(crate) enum ChildStop {
    Unfit { place: usize, unfit: Unfit },
    Memory,
}

impl From<Memory> for ChildStop {
    ghost use Rattle.std.specs.Prelude.{◌≡◌};
    ghost use Rattle.basis_enum.specs.declared.children.ChildStop.TheVariants as stops;

    ghost from_gives = { λ _ e. e ≡ stops.Memory };

    fn from(_memory: Memory) -> ChildStop {
        ChildStop::Memory
    }
}

impl From<AllocError> for ChildStop {
    ghost use Rattle.std.specs.Prelude.{◌≡◌};
    ghost use Rattle.basis_enum.specs.declared.children.ChildStop.TheVariants as stops;

    ghost from_gives = { λ _ e. e ≡ stops.Memory };

    fn from(_refused: AllocError) -> ChildStop {
        ChildStop::Memory
    }
}

impl<T: Drop> From<AllocFailed<T>> for ChildStop {
    ghost use Rattle.std.specs.Prelude.{◌≡◌};
    ghost use Rattle.basis_enum.specs.declared.children.ChildStop.TheVariants as stops;

    ghost from_gives = { λ _ e. e ≡ stops.Memory };

    fn from(_refused: AllocFailed<T>) -> ChildStop {
        ChildStop::Memory
    }
}

// A tableau of the next level, and what it gives.
#[derive(Drop)]
struct Reached {
    tableau: Tableau,
    findings: Findings,
}

// The tableau after a pivot, in the room of one that is spent. The pivot is counted on a blank, and
// the count is not used.
fn pivoted<L: Ledger>(
    alloc: Global,
    spent: Option<Tableau>,
    level: &[Tableau],
    pivot: &FoundPivot,
    blank: Blank,
) -> Result<Tableau, PivotStop>
    requires level { AreReady level.now }
    requires pivot { IsPivot level.now (pivot_of pivot.now) }
    requires blank { (L.parts ≡ blank.parts) × (L.name ≡ blank.name) × (0 < blank.parts) }
    ensures child { IfOk result (IsPivoted level.now (pivot_of pivot.now)) }
    ensures stop { IfErr result
        (IsPivotStop (parent_of level.now (pivot_of pivot.now)) pivot.now.row pivot.now.column) }
{
    let mut pivots = PivotCount::<L>::new(blank);
    let parent = &level[pivot.parent as usize];
    parent.pivoted(
        alloc,
        spent,
        pivot.row as usize,
        pivot.column as usize,
        &mut pivots,
    )
}

// The tableau of a new basis.
fn child(alloc: Global, expansion: &Expansion, place: usize) -> Result<Tableau, ChildStop>
    requires expandable { IsExpandable expansion.now }
    requires place_in { place < length expansion.now.next.now }
    ensures child { IfOk result (IsChildAt expansion.now place) }
    ensures stop { IfErr result (IsChildStopAt expansion.now place) }
{
    match pivoted::<Brand>(
        alloc,
        expansion.spent.take(),
        expansion.level,
        &expansion.next[place],
        Blank::new(1),
    ) {
        Ok(tableau) => Ok(tableau),
        Err(PivotStop::Unfit(unfit)) => Err(ChildStop::Unfit { place, unfit }),
        Err(PivotStop::Memory) => Err(ChildStop::Memory),
    }
}

// Two pieces of work, one after the other: the tableau of a new basis, and what it gives. The
// worker passes the gate before the first one, and here before the second.
fn piece<G: Gate>(
    alloc: Global,
    expansion: &Expansion,
    place: usize,
    gate: &G,
) -> Result<Reached, ChildStop>
    requires expandable { IsExpandable expansion.now }
    requires place_in { place < length expansion.now.next.now }
    ensures { MatchResult result (IsReachedAt expansion.now place)
        (IsChildStopAt expansion.now place) }
{
    let tableau = child(alloc, expansion, place)?;
    gate.pass(place);
    let findings = found_from(
        alloc,
        expansion.system,
        &tableau,
        place as u32,
        expansion.next[place].target,
        expansion.known,
    )?;
    Ok(Reached { tableau, findings })
}

// What is made of the next level so far: its tableaux, in order, and the pivots from there to new
// bases, in no stated order.
#[derive(Drop)]
pub(crate) struct Made {
    pub tableaux: Vec<Tableau>,
    pub found: Vec<FoundPivot>,
}

// Adds a tableau, its pivots and its vertex to those of its level.
fn add_reached(reached: Reached, made: &mut Made, vertices: &mut Vec<Vertex>) -> Result<(), Memory>
    ensures tableaux { OnOk result
        (made.new.tableaux.items ≡ made.old.tableaux.items ++ reached.tableau ∷ []) }
    ensures found { OnOk result
        (made.new.found.items ≡ made.old.found.items ++ reached.findings.found.items) }
    ensures vertices { OnOk result
        (vertices.new.items ≡ vertices.old.items ++ option_to_list reached.findings.vertex) }
{
    let mut reached = reached;
    made.tableaux.push(reached.tableau)?;
    made.found.append(&mut reached.findings.found)?;
    add_vertex(vertices, reached.findings.vertex)
}

// Makes the next pieces on this thread, 16 of them at most.
#[tactic(auto, using(crate::proofs::NextLevelLemmas::stop_made, crate::proofs::WalkLemmas::adding_start))]
fn make_children<R, G: Gate, L: Ledger>(
    workshop: &Workshop<R, G>,
    expansion: &Expansion,
    made: &mut Made,
    vertices: &mut Vec<Vertex>,
    pivots: &mut PivotCount<L>,
) -> Result<(), ChildStop>
    requires expandable { IsExpandable expansion.now }
    requires made { IsMadeFrom expansion.now made.old }
    requires left { length made.old.tableaux.items < length expansion.now.next.now }
    ensures made { OnOk result (IsMadeFrom expansion.now made.new) }
    ensures more { OnOk result (length made.old.tableaux.items < length made.new.tableaux.items) }
    ensures vertices { OnOk result (AddsMoreVertices expansion.now.system.now
        made.old.tableaux.items made.new.tableaux.items vertices.old.items vertices.new.items) }
    ensures stop { IfErr result (IsChildStop expansion.now) }
    ensures counted { OnOk result (pivots.new + length made.old.tableaux.items
        ≡ pivots.old + length made.new.tableaux.items) }
    ensures bounded { pivots.new + length made.old.tableaux.items
        ≤ pivots.old + length expansion.now.next.now }
    ensures risen { pivots.old ≤ pivots.new }
{
    let first = made.tableaux.len();
    let end = expansion.next.len().min(first + PIECES_ALONE);
    for place in first..end {
        workshop.gate.pass(place);
        let reached = piece(workshop.alloc, expansion, place, workshop.gate)?;
        pivots.tick();
        add_reached(reached, made, vertices)?;
    }
    Ok(())
}

// A gate whose pieces count from another number on.
#[derive(Drop)]
struct GateFrom<'a, G> {
    gate: &'a G,
    first: usize,
}

impl<G: Gate> Gate for GateFrom<'_, G> {
    fn pass(&self, piece: usize) {
        self.gate.pass(self.first.saturating_add(piece));
    }
}

// A piece in a box, so that lists of pieces are short. Nothing where its pivot has a step that does
// not fit, or memory ran out.
fn boxed_piece<G: Gate>(
    alloc: Global,
    expansion: &Expansion,
    place: usize,
    gate: &G,
) -> Option<Box<Reached>>
    requires expandable { IsExpandable expansion.now }
    requires place_in { place < length expansion.now.next.now }
    ensures { IfSome result (λ b. IsReachedAt expansion.now place b.value) }
{
    let reached = piece(alloc, expansion, place, gate).ok()?;
    expansion.spent.free_surplus();
    Box::new(alloc, reached).ok()
}

// The pieces from a number on, which helpers share.
fn shared_pieces<R: Threads + Sync, G: Gate>(
    workshop: &Workshop<R, G>,
    expansion: &Expansion,
    first: usize,
) -> Result<Vec<Option<Box<Reached>>>, Memory>
    requires expandable { IsExpandable expansion.now }
    requires first_in { first ≤ length expansion.now.next.now }
    ensures { IfOk result (λ v. ArePiecesFrom expansion.now first v.items) }
{
    let alloc = workshop.alloc;
    let gate = workshop.gate;
    let (claims, mut pass) = Claims::new(alloc)?;
    let count = expansion.next.len() - first;
    let work = |number: usize| -> Option<Box<Reached>>
        requires expandable { IsExpandable expansion.now }
        requires place_in { first + number < length expansion.now.next.now }
        ensures { IfSome result (λ b. IsReachedAt expansion.entry.now (first + number) b.value) }
    { boxed_piece(alloc, expansion, first + number, gate) };
    let gate = GateFrom { gate, first };
    helped_map(
        workshop.rt,
        alloc,
        &claims,
        &mut pass,
        count,
        workshop.helpers,
        &gate,
        &work,
    )
}

// What is in a box; where there is none, the piece is made again, so that its refusal is told.
fn unboxed(
    alloc: Global,
    expansion: &Expansion,
    place: usize,
    boxed: Option<Box<Reached>>,
) -> Result<Reached, ChildStop>
    requires expandable { IsExpandable expansion.now }
    requires place_in { place < length expansion.now.next.now }
    requires boxed { IfSome boxed (λ b. IsReachedAt expansion.now place b.value) }
    ensures { MatchResult result (IsReachedAt expansion.now place)
        (IsChildStopAt expansion.now place) }
{
    match boxed {
        Some(reached) => Ok(Box::into_inner(reached)),
        None => piece(alloc, expansion, place, &OpenGate),
    }
}

// How many pivots pieces found.
fn found_count(pieces: &[Option<Box<Reached>>]) -> usize {
    let mut count: usize = 0;
    for piece in pieces.iter() {
        if let Some(reached) = piece {
            count = count.saturating_add(reached.findings.found.len());
        }
    }
    count
}

// Makes all pieces that are left, which helpers share.
fn share_children<R: Threads + Sync, G: Gate, L: Ledger>(
    workshop: &Workshop<R, G>,
    expansion: &Expansion,
    made: &mut Made,
    vertices: &mut Vec<Vertex>,
    pivots: &mut PivotCount<L>,
) -> Result<(), ChildStop>
    requires expandable { IsExpandable expansion.now }
    requires made { IsMadeFrom expansion.now made.old }
    requires left { length made.old.tableaux.items < length expansion.now.next.now }
    ensures made { OnOk result (IsMadeFrom expansion.now made.new) }
    ensures all { OnOk result (length made.new.tableaux.items ≡ length expansion.now.next.now) }
    ensures vertices { OnOk result (AddsMoreVertices expansion.now.system.now
        made.old.tableaux.items made.new.tableaux.items vertices.old.items vertices.new.items) }
    ensures stop { IfErr result (IsChildStop expansion.now) }
    ensures counted { OnOk result (pivots.new + length made.old.tableaux.items
        ≡ pivots.old + length made.new.tableaux.items) }
    ensures bounded { pivots.new + length made.old.tableaux.items
        ≤ pivots.old + length expansion.now.next.now }
    ensures risen { pivots.old ≤ pivots.new }
{
    let first = made.tableaux.len();
    let pieces = shared_pieces(workshop, expansion, first)?;
    made.found.reserve(found_count(&pieces))?;
    for piece in pieces {
        let reached = unboxed(workshop.alloc, expansion, made.tableaux.len(), piece)?;
        pivots.tick();
        add_reached(reached, made, vertices)?;
    }
    Ok(())
}

// Makes further pieces: all that are left, where they are enough for helpers who are idle and who
// share them, and else some.
fn make_more<R: Threads + Sync, G: Gate, L: Ledger>(
    workshop: &Workshop<R, G>,
    expansion: &Expansion,
    made: &mut Made,
    vertices: &mut Vec<Vertex>,
    pivots: &mut PivotCount<L>,
) -> Result<(), ChildStop>
    requires expandable { IsExpandable expansion.now }
    requires made { IsMadeFrom expansion.now made.old }
    requires left { length made.old.tableaux.items < length expansion.now.next.now }
    ensures made { OnOk result (IsMadeFrom expansion.now made.new) }
    ensures more { OnOk result (length made.old.tableaux.items < length made.new.tableaux.items) }
    ensures vertices { OnOk result (AddsMoreVertices expansion.now.system.now
        made.old.tableaux.items made.new.tableaux.items vertices.old.items vertices.new.items) }
    ensures stop { IfErr result (IsChildStop expansion.now) }
    ensures counted { OnOk result (pivots.new + length made.old.tableaux.items
        ≡ pivots.old + length made.new.tableaux.items) }
    ensures bounded { pivots.new + length made.old.tableaux.items
        ≤ pivots.old + length expansion.now.next.now }
    ensures risen { pivots.old ≤ pivots.new }
{
    let left = expansion.next.len() - made.tableaux.len();
    if workshop.helpers.are_free_for(left) {
        share_children(workshop, expansion, made, vertices, pivots)
    } else {
        make_children(workshop, expansion, made, vertices, pivots)
    }
}

/// The tableaux of the next level, and the pivots from there to new bases, in no stated order. The
/// vertices of the level are added. Helpers share the pieces from the time on at which they are
/// idle, where enough are left.
pub(crate) fn children<R: Threads + Sync, G: Gate, L: Ledger>(
    workshop: &Workshop<R, G>,
    expansion: &Expansion,
    vertices: &mut Vec<Vertex>,
    pivots: &mut PivotCount<L>,
) -> Result<Made, ChildStop>
    requires expandable { IsExpandable expansion.now }
    ensures children { IfOk result (λ made. AreAllChildren expansion.now made.tableaux.items) }
    ensures found { IfOk result
        (λ made. AreFoundIn made.tableaux.items expansion.now.known.now made.found.items) }
    ensures vertices { IfOk result (λ made. AddsVertices expansion.now.system.now
        made.tableaux.items vertices.old.items vertices.new.items) }
    ensures stop { IfErr result (IsChildStop expansion.now) }
    ensures counted { OnOk result (pivots.new ≡ pivots.old + length expansion.now.next.now) }
    ensures bounded { pivots.new ≤ pivots.old + length expansion.now.next.now }
    ensures risen { pivots.old ≤ pivots.new }
{
    let mut made = Made {
        tableaux: Vec::with_capacity(workshop.alloc, expansion.next.len())?,
        found: Vec::new(workshop.alloc),
    };
    while made.tableaux.len() < expansion.next.len() {
        make_more(workshop, expansion, &mut made, vertices, pivots)?;
    }
    Ok(made)
}
