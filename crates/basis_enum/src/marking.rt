// The vertices of tableaux' basic solutions.
ghost use Rattle.std.specs.Prelude.{◌≡◌, ◌+◌, ◌*◌, ◌/◌, ◌%◌, ◌-◌, ◌^◌, ◌++◌, ◌<◌, ◌≤◌, ◌∷◌, [], suc, min, ◌≢◌, option_to_list, IfOk, MatchBool, OnOk};
ghost use Rattle.std.specs.List.{All, Any};
ghost use Rattle.rational.specs.Rational.{zero_ℚ};
ghost use Rattle.lex_tableau.specs.Rows.{tableau as fractions_of};
ghost use Rattle.linear_systems.specs.Rows.{basic_solution};
ghost use Rattle.linear_systems.specs.Vertices.{IsZeroWord, mask_of};
ghost use Rattle.basis_enum.specs.Marks.{AreRowsOf, AreSortedOnce, AreUpTo, IsVertexOf, values_of};
ghost use Rattle.basis_enum.specs.Systems.{IsEnumerable, most_variables, variable_count};
ghost use Rattle.basis_enum.specs.Vertices.{mark_of, marks_of};

use crate::bases::MOST_VARIABLES;
use crate::vertex::Vertex;
use answers::Memory;
use frac128::Frac;
use lex_tableau::{System, Tableau};
use std::alloc::Global;

// How many values a word of a mask has: 2^64.
const TWO_TO_64: u128 = 1 << 64;

// The number with so many bits, all set.
fn ones(count: usize) -> u128
    requires { count ≤ most_variables }
    ensures { result ≡ 2 ^ count - 1 }
{
    if count == 0 {
        return 0;
    }
    u128::MAX >> (MOST_VARIABLES - count)
}

// The mask of a basic solution: bit v - 1 is set exactly where variable v is zero.
fn mask(tableau: &Tableau, count: usize) -> u128
    requires few { count ≤ most_variables }
    requires numbered { AreUpTo count tableau.now.basics }
    ensures { IsZeroWord count (λ l. basic_solution (fractions_of tableau.now) (suc l)) result }
{
    let mut mask = ones(count);
    for row in 0..tableau.basics().len() {
        if tableau.right_sign(row) != 0 {
            mask &= !(1 << (tableau.basic(row) - 1));
        }
    }
    mask
}

// The two words of a mask, the low one first.
fn words(mask: u128) -> [u64; 2]
    ensures { result ≡ mask % 2 ^ 64 ∷ mask / 2 ^ 64 ∷ [] }
{
    [(mask % TWO_TO_64) as u64, (mask / TWO_TO_64) as u64]
}

/// The mask of so many labels, at most 128: their bits are set, and no others.
pub fn all_labels(count: usize) -> [u64; 2]
    requires { count ≤ most_variables }
    ensures { result ≡ (2 ^ min count 64 - 1) ∷ (2 ^ (count - 64) - 1) ∷ [] }
{
    words(ones(count))
}

// The mask of a vertex as a number.
fn number(vertex: &Vertex) -> u128
    ensures { result ≡ mask_of (mark_of vertex.now) }
{
    u128::from(vertex.mask[0]) + TWO_TO_64 * u128::from(vertex.mask[1])
}

// The row of each basic variable, at the place of the variable: that of variable v is v - 1.
fn rows_of(tableau: &Tableau) -> [Option<usize>; MOST_VARIABLES]
    requires { AreUpTo most_variables tableau.now.basics }
    ensures { AreRowsOf tableau.now result }
{
    let mut rows = [None; MOST_VARIABLES];
    for (row, variable) in tableau.basics().iter().enumerate() {
        rows[*variable as usize - 1] = Some(row);
    }
    rows
}

// The value of a variable in a basic solution: the right side of its row, and 0 where it has none.
fn value(tableau: &Tableau, rows: &[Option<usize>], variable: u32) -> Frac
    requires rows { AreRowsOf tableau.now rows.now }
    requires above { 0 < variable }
    requires most { variable ≤ most_variables }
    ensures { result ≡ basic_solution (fractions_of tableau.now) variable }
{
    match rows[variable as usize - 1] {
        Some(row) => tableau.right(row),
        None => Frac::zero(),
    }
}

// The values of variables in a basic solution.
fn values(alloc: Global, tableau: &Tableau, variables: &[u32]) -> Result<Vec<Frac>, Memory>
    requires basics { AreUpTo most_variables tableau.now.basics }
    requires variables { AreUpTo most_variables variables.now }
    ensures { IfOk result (λ v. v.items ≡ values_of tableau.now variables.now) }
{
    let rows = rows_of(tableau);
    let mut values = Vec::with_capacity(alloc, variables.len())?;
    for variable in variables {
        values.push(value(tableau, &rows, *variable))?;
    }
    Ok(values)
}

// Whether some value is not zero.
fn is_nonzero(values: &[Frac]) -> bool
    ensures { MatchBool result
        (Any (λ q. q ≢ zero_ℚ) values.now) (All (λ q. q ≡ zero_ℚ) values.now) }
{
    values.iter().any(|value| !value.is_zero())
}

/// The vertex that is the basic solution of a tableau of the system, unless it is zero at all
/// nonbasic variables of the system.
pub(crate) fn vertex_of(
    alloc: Global,
    system: &System,
    tableau: &Tableau,
) -> Result<Option<Vertex>, Memory>
    requires enumerable { IsEnumerable system.now }
    requires numbered { AreUpTo (variable_count system.now) tableau.now.basics }
    ensures { IfOk result (IsVertexOf system.now tableau.now) }
{
    let point = values(alloc, tableau, system.nonbasics())?;
    if !is_nonzero(point.as_slice()) {
        return Ok(None);
    }
    let count = system.basics().len() + system.nonbasics().len();
    let mask = words(mask(tableau, count));
    Ok(Some(Vertex { mask, point }))
}

/// Adds a vertex, where there is one.
pub(crate) fn add_vertex(vertices: &mut Vec<Vertex>, vertex: Option<Vertex>) -> Result<(), Memory>
    ensures { OnOk result (vertices.new.items ≡ vertices.old.items ++ option_to_list vertex) }
{
    if let Some(vertex) = vertex {
        vertices.push(vertex)?;
    }
    Ok(())
}

/// The vertices in ascending order of their masks, one of each mask.
pub(crate) fn in_order(vertices: Vec<Vertex>) -> Vec<Vertex>
    ensures { AreSortedOnce (marks_of vertices.items) (marks_of result.items) }
{
    let mut vertices = vertices;
    vertices.sort_unstable_by_key(|vertex: &Vertex| number(vertex));
    vertices.dedup_by_key(|vertex: &mut Vertex| number(vertex));
    vertices
}
