// The nodes that name each set of a cut.
ghost use Rattle.std.specs.Prelude.{◌≡◌, ◌<◌, ◌^◌, All, IfOk, [], replicate, length, map};
ghost use Rattle.game_core.specs.Tree.{IsBelow};
ghost use Rattle.subgames.specs.CutParts.{AreMemberLists};

use answers::Memory;
use std::alloc::Global;

/// So many empty lists.
pub(crate) fn empty_lists(alloc: Global, count: usize) -> Result<Vec<Vec<u32>>, Memory>
    ensures { IfOk result (λ lists. map (λ v. v.items) lists.items ≡ replicate count []) }
{
    let mut lists = Vec::with_capacity(alloc, count)?;
    for _ in 0..count {
        lists.push(Vec::new(alloc))?;
    }
    Ok(lists)
}

/// For each of so many sets the nodes that name it, by their numbers in order.
pub(crate) fn member_lists(
    alloc: Global,
    count: usize,
    names: &[Option<u32>],
) -> Result<Vec<Vec<u32>>, Memory>
    requires names { All (IsBelow count) names.now }
    requires few { length names.now < 2 ^ 32 }
    ensures { IfOk result
        (λ lists. AreMemberLists names.now count (map (λ v. v.items) lists.items)) }
{
    let mut lists = empty_lists(alloc, count)?;
    for number in 0..names.len() {
        if let Some(set) = names[number] {
            lists[set as usize].push(number as u32)?;
        }
    }
    Ok(lists)
}
