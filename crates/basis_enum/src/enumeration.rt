// The vertices of a system.
ghost use Rattle.std.specs.Prelude.{◌≡◌, ◌<◌, ◌≤◌, ◌+◌, length, IfOk};
ghost use Rattle.answers.specs.Answers.{Gives, map_ok};
ghost use Rattle.basis_enum.specs.Systems.{IsEnumerable};
ghost use Rattle.basis_enum.specs.declared.stop.EnumerationStop.TheVariants as stops;
ghost use Rattle.basis_enum.specs.Enumeration.{vertices_in};
ghost use Rattle.basis_enum.specs.Levels.{most_bases};
ghost use Rattle.basis_enum.specs.Vertices.{vertex_list};

use crate::marking::in_order;
use crate::stop::EnumerationStop;
use crate::vertex::Vertices;
use crate::walk::reach;
use crate::workshop::Workshop;
use claims::{FEWEST_SHARED, Helpers};
use lex_tableau::{PivotCount, System};
use outside::Gate;
use std::alloc::Global;
use std::marker::Sync;
use std::sync::ledger::Ledger;
use std::thread::Threads;

/// The vertices of a system whose rows are all rated, whose variables are the numbers from 1 to at
/// most 128, and whose right sides are not negative: its extreme points, but for the one in which
/// all nonbasic variables are zero. Each is there once, in ascending order of the masks. So many
/// workers share the pieces of work of a level that has many, each in a thread of its own where one
/// can be made, and the answer is the same for any number of them. The gate is passed before each
/// piece, but not before one that is made again to tell its refusal. There are no more vertices
/// than bases. The count of pivots rises by one for each basis but the first.
///
/// # Errors
///
/// `Start` exactly where a step of the start does not fit: the first. Else the bases are enumerated
/// level by level, up to the first level after which it stops: `TooLarge` exactly where with the
/// next level there are more than 20,000 bases, and else `Range` exactly where a pivot to the next
/// level does not fit: the first, in the order of the bases to which they lead. `Memory` where
/// memory ran out.
pub fn enumerate<R: Threads + Sync, G: Gate, L: Ledger>(
    rt: &R,
    alloc: Global,
    system: &System,
    workers: u32,
    gate: &G,
    pivots: &mut PivotCount<L>,
) -> Result<Vertices, EnumerationStop>
    requires enumerable { IsEnumerable system.now }
    requires workers { (1 ≤ workers) × (workers ≤ 64) }
    ensures vertices { Gives stops.Memory (vertices_in system.now) (map_ok result vertex_list) }
    ensures counted { IfOk result (λ v. pivots.new + 1 ≡ pivots.old + v.bases) }
    ensures few { IfOk result (λ v. v.bases ≤ most_bases) }
    ensures fewer { IfOk result (λ v. length v.list.items ≤ v.bases) }
    ensures bounded { pivots.new < pivots.old + most_bases }
    ensures risen { pivots.old ≤ pivots.new }
{
    let helpers = Helpers::new(workers - 1, FEWEST_SHARED);
    enumerate_with(rt, alloc, system, &helpers, gate, pivots)
}

/// The vertices of a system, as `enumerate` gives them, by the calling thread and by helpers, who
/// join in while a level is made, where they are idle and enough pieces of it are left. Each helper
/// is added again.
///
/// # Errors
///
/// Those of `enumerate`, exactly where it has them.
pub fn enumerate_with<R: Threads + Sync, G: Gate, L: Ledger>(
    rt: &R,
    alloc: Global,
    system: &System,
    helpers: &Helpers,
    gate: &G,
    pivots: &mut PivotCount<L>,
) -> Result<Vertices, EnumerationStop>
    requires enumerable { IsEnumerable system.now }
    ensures vertices { Gives stops.Memory (vertices_in system.now) (map_ok result vertex_list) }
    ensures counted { IfOk result (λ v. pivots.new + 1 ≡ pivots.old + v.bases) }
    ensures few { IfOk result (λ v. v.bases ≤ most_bases) }
    ensures fewer { IfOk result (λ v. length v.list.items ≤ v.bases) }
    ensures bounded { pivots.new < pivots.old + most_bases }
    ensures risen { pivots.old ≤ pivots.new }
{
    let workshop = Workshop {
        rt,
        alloc,
        helpers,
        gate,
    };
    let walk = reach(&workshop, system, pivots)?;
    Ok(Vertices {
        bases: walk.known.len() as u64,
        list: in_order(walk.vertices),
    })
}
