// The pivots from tableaux to new bases.
ghost use Rattle.std.specs.Prelude.{◌≡◌, ◌<◌, length, map, IfOk, MatchOption};
ghost use Rattle.std.specs.List.Sorted.{IsStrictlyIncreasing};
ghost use Rattle.std.specs.Ordering.{nat_cmp};
ghost use Rattle.lex_tableau.specs.Rows.{IsTableau};
ghost use Rattle.basis_enum.specs.Bases.{HaveDigits, basis_of, neighbour_of};
ghost use Rattle.basis_enum.specs.Found.{AreFound, LeadsBack, IsFound, IsReady};
ghost use Rattle.basis_enum.specs.Marks.{AreUpTo, IsVertexOf};
ghost use Rattle.basis_enum.specs.Next.{AreSmall, IsNextOf, rank_of, target_of};
ghost use Rattle.basis_enum.specs.Systems.{IsEnumerable, variable_count};

use crate::bases::{is_known, neighbour};
use crate::marking::vertex_of;
use crate::vertex::Vertex;
use answers::Memory;
use lex_tableau::{System, Tableau};
use std::alloc::Global;
use std::cmp::Ordering;

// A pivot on a lexicographic row: the basis to which it leads, the place of its tableau in the
// level, the variable that enters, the row and the column.
#[derive(Clone, Copy)]
pub(crate) struct FoundPivot {
    pub target: u128,
    pub parent: u32,
    pub entering: u32,
    pub row: u32,
    pub column: u32,
}

// What a tableau gives: its pivots to new bases, and its vertex, where it has one.
#[derive(Drop)]
pub(crate) struct Findings {
    pub found: Vec<FoundPivot>,
    pub vertex: Option<Vertex>,
}

// The basis to which the pivot on the lexicographic row of a column leads.
fn target(tableau: &Tableau, basis: u128, row: usize, column: usize) -> u128
    requires valid { IsTableau tableau.now }
    requires digits { HaveDigits tableau.now }
    requires basis { basis ≡ basis_of tableau.now.nonbasics }
    requires row_in { row < length tableau.now.basics }
    requires column_in { column < length tableau.now.nonbasics }
    ensures { result ≡ neighbour_of tableau.now row column }
{
    neighbour(basis, tableau.basic(row), tableau.nonbasic(column))
}

// The pivot in a column, where there is one and its basis is new.
fn pivot_in_column(
    tableau: &Tableau,
    parent: u32,
    basis: u128,
    known: &[u128],
    column: usize,
) -> Option<FoundPivot>
    requires ready { IsReady tableau.now }
    requires basis { basis ≡ basis_of tableau.now.nonbasics }
    requires known { IsStrictlyIncreasing known.now }
    requires column_in { column < length tableau.now.nonbasics }
    ensures { MatchOption result (LeadsBack tableau.now known.now column)
        (IsFound tableau.now parent known.now column) }
{
    let row = tableau.ratio_row(column)?;
    let target = target(tableau, basis, row, column);
    if is_known(known, target) {
        return None;
    }
    Some(FoundPivot {
        target,
        parent,
        entering: tableau.nonbasic(column),
        row: row as u32,
        column: column as u32,
    })
}

// The pivots from a tableau to new bases, column by column.
fn pivots_from(
    alloc: Global,
    tableau: &Tableau,
    parent: u32,
    basis: u128,
    known: &[u128],
) -> Result<Vec<FoundPivot>, Memory>
    requires ready { IsReady tableau.now }
    requires basis { basis ≡ basis_of tableau.now.nonbasics }
    requires known { IsStrictlyIncreasing known.now }
    ensures { IfOk result (λ v. AreFound tableau.now parent known.now v.items) }
{
    let mut found = Vec::with_capacity(alloc, tableau.nonbasics().len())?;
    for column in 0..tableau.nonbasics().len() {
        if let Some(pivot) = pivot_in_column(tableau, parent, basis, known, column) {
            found.push(pivot)?;
        }
    }
    Ok(found)
}

// What a tableau gives, whose place in its level is `parent`.
pub(crate) fn found_from(
    alloc: Global,
    system: &System,
    tableau: &Tableau,
    parent: u32,
    basis: u128,
    known: &[u128],
) -> Result<Findings, Memory>
    requires enumerable { IsEnumerable system.now }
    requires numbered { AreUpTo (variable_count system.now) tableau.now.basics }
    requires ready { IsReady tableau.now }
    requires basis { basis ≡ basis_of tableau.now.nonbasics }
    requires known { IsStrictlyIncreasing known.now }
    ensures found { IfOk result (λ f. AreFound tableau.now parent known.now f.found.items) }
    ensures vertex { IfOk result (λ f. IsVertexOf system.now tableau.now f.vertex) }
{
    let found = pivots_from(alloc, tableau, parent, basis, known)?;
    let vertex = vertex_of(alloc, system, tableau)?;
    Ok(Findings { found, vertex })
}

// By what pivots are ordered.
fn order_key(pivot: &FoundPivot) -> (u128, u32, u32)
    ensures { result ≡ (pivot.now.target, pivot.now.parent, pivot.now.entering) }
{
    (pivot.target, pivot.parent, pivot.entering)
}

// The order of two pivots: by the basis to which they lead, then by the parent's place, then by the
// entering variable.
fn compare(a: &FoundPivot, b: &FoundPivot) -> Ordering
    ensures { result ≡ nat_cmp (rank_of a.now) (rank_of b.now) }
{
    order_key(a).cmp(&order_key(b))
}

/// One pivot to each basis, in ascending order, and of those that lead there the first.
pub(crate) fn next_pivots(found: Vec<FoundPivot>) -> Vec<FoundPivot>
    requires { AreSmall found.items }
    ensures { IsNextOf found.items result.items }
{
    let mut found = found;
    found.sort_unstable_by(
        |a: &FoundPivot, b: &FoundPivot| -> Ordering
            ensures { result ≡ nat_cmp (rank_of a.now) (rank_of b.now) }
        { compare(a, b) },
    );
    found.dedup_by_key(|pivot: &mut FoundPivot| pivot.target);
    found
}

// The bases to which pivots lead.
pub(crate) fn targets(alloc: Global, next: &[FoundPivot]) -> Result<Vec<u128>, Memory>
    ensures { IfOk result (λ v. v.items ≡ map target_of next.now) }
{
    Ok(next.iter().map(|pivot| pivot.target).collect(alloc)?)
}
