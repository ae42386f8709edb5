// Masks that complete a mask, and pairs of vertices.
ghost use Rattle.std.specs.Prelude.{◌≡◌, length, IfOk};

use crate::stop::Stop;
use basis_enum::Vertex;
use game_core::{TooLarge, What};
use label_pairing::{PairStop, matches, pairs};
use std::alloc::Global;
use std::marker::Sync;
use std::thread::Threads;

// Whether the places of these words at which the bits together with those of a mask are all are
// exactly these, whatever stood there before. The mask has bit 0 of its low word and bit 1 of its
// high word; all are bits 0 to 2 and bits 1 and 2.
fn are_found(alloc: Global, low: &[u64], high: &[u64], wanted: &[bool]) -> Result<bool, Stop>
    requires { length high.now ≡ length low.now }
{
    for before in [false, true] {
        let mut found = vec![in alloc; before; low.len()]?;
        matches([1, 2], [7, 6], low, high, &mut found);
        if found.as_slice() != wanted {
            return Ok(false);
        }
    }
    Ok(true)
}

/// Both words count: a place is found where each is complete, not where one of them lacks a bit or
/// has one too many.
#[test]
fn masks_of_two_words(rt: HostRuntime) -> Result<(), Stop> {
    let alloc = rt.alloc();
    let low = [4, 6, 7, 2, 6, 14, 6, 6, 0, 7];
    let high = [6, 4, 6, 4, 2, 4, 5, 4, 0, 4];
    let wanted = [
        false, true, true, false, false, false, false, true, false, true,
    ];
    assert!(rt; are_found(alloc, &low, &high, &wanted)?);
    Ok(())
}

// The remainders of so many places modulo 8, and whether 5 together with each is 7.
fn remainders(alloc: Global, count: u64) -> Result<(Vec<u64>, Vec<bool>), Stop> {
    let mut masks = Vec::new(alloc);
    let mut complete = Vec::new(alloc);
    for place in 0..count {
        let rest = place % 8;
        masks.push(rest)?;
        complete.push(rest == 2 || rest == 3 || rest == 6 || rest == 7)?;
    }
    Ok((masks, complete))
}

/// Every number of places from 0 to 130.
#[test]
fn masks_of_each_length(rt: HostRuntime) -> Result<(), Stop> {
    let alloc = rt.alloc();
    for count in 0..131 {
        let (masks, complete) = remainders(alloc, count)?;
        let high = vec![in alloc; 0; masks.len()]?;
        let mut found = vec![in alloc; true; masks.len()]?;
        if masks.len() == high.len() && masks.len() == found.len() {
            matches([5, 0], [7, 0], &masks, &high, &mut found);
        }
        assert!(rt; found.as_slice() == complete.as_slice());
    }
    Ok(())
}

// So many vertices with bit 0 of the low word each, and no values.
fn vertices(alloc: Global, count: u32) -> Result<Vec<Vertex>, Stop>
    ensures { IfOk result (λ v. length v.items ≡ count) }
{
    let mut list = Vec::new(alloc);
    for _ in 0..count {
        list.push(Vertex {
            mask: [1, 0],
            point: Vec::new(alloc),
        })?;
    }
    Ok(list)
}

// The pairs of so many vertices with so many others, all of which have all bits.
fn paired<R: Threads + Sync>(
    rt: &R,
    alloc: Global,
    first: u32,
    second: u32,
) -> Result<Result<Vec<(u32, u32)>, PairStop>, Stop> {
    let first = vertices(alloc, first)?;
    let second = vertices(alloc, second)?;
    Ok(pairs(rt, alloc, first.as_slice(), second.as_slice(), [1, 0]))
}

/// As many pairs as may be, and 1,024 more.
#[test]
fn limit_of_pairs(rt: HostRuntime) -> Result<(), Stop> {
    let alloc = rt.alloc();
    let Ok(most) = paired(&rt, alloc, 1024, 1024)? else {
        return Err(Stop::Refused);
    };
    assert_eq!(rt; most.len(), 1_048_576);
    assert!(rt; most.first() == Some(&(0, 0)));
    assert!(rt; most.get(1024) == Some(&(1, 0)));
    assert!(rt; most.last() == Some(&(1023, 1023)));
    let limit = TooLarge {
        what: What::Pairs,
        count: 1_049_600,
        limit: 1_048_576,
    };
    let refused = paired(&rt, alloc, 1025, 1024)?;
    assert!(rt; matches!(refused, Err(PairStop::TooLarge(found)) if found == limit));
    Ok(())
}
