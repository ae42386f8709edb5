// The places of sets among their owners' own sets.
ghost use Rattle.std.specs.Prelude.{◌≡◌, ◌<◌, ◌+◌, ◌^◌, All, IfOk, IfSome, length, map, slice_index};
ghost use Rattle.game_core.specs.Tree.{IsBelow};
ghost use Rattle.game_core.specs.TreeGame.{game_of_tree};
ghost use Rattle.reduced_strategies.specs.Places.{ArePlaces};
ghost use Rattle.strategy_lists.specs.OwnNumbers.{counted, ArePlacesAmong};

use answers::Memory;
use game_core::{InfoSet, Tree};
use std::alloc::Global;

// The place of what comes next after all that was counted, where it has this owner.
fn next_place(counts: &mut [u32], owner: Option<u32>) -> u32
    requires within { IsBelow (length counts.old) owner }
    requires few { IfSome owner (λ i. slice_index counts.old i + 1 < 2 ^ 32) }
    ensures place { IfSome owner (λ i. result ≡ slice_index counts.old i) }
    ensures counts { counts.new ≡ counted counts.old owner }
{
    match owner {
        None => 0,
        Some(player) => {
            let place = counts[player as usize];
            counts[player as usize] = place + 1;
            place
        }
    }
}

// For each owner its place among the owners that are the same player, from 0; any number where
// there is none.
fn places_among(alloc: Global, players: usize, owners: &[Option<u32>]) -> Result<Vec<u32>, Memory>
    requires few { length owners.now < 2 ^ 32 }
    requires within { All (IsBelow players) owners.now }
    ensures { IfOk result
        (λ places. ArePlacesAmong owners.now places.items) }
{
    let mut counts = vec![in alloc; 0; players]?;
    let mut places = Vec::new(alloc);
    for owner in owners {
        places.push(next_place(counts.as_mut_slice(), *owner))?;
    }
    Ok(places)
}

// The player who owns each set, where one does.
fn owners(alloc: Global, sets: &[InfoSet]) -> Result<Vec<Option<u32>>, Memory>
    ensures { IfOk result (λ owners. owners.items ≡ map (λ set. set.owner) sets.now) }
{
    Ok(sets.iter().map(|set| set.owner()).collect(alloc)?)
}

/// For each set its place among its owner's own sets, from 0; any number for a set of chance.
///
/// # Errors
///
/// Memory ran out.
pub fn set_places(alloc: Global, tree: &Tree) -> Result<Vec<u32>, Memory>
    ensures { IfOk result (λ places. ArePlaces (game_of_tree tree.now) places.items) }
{
    let owners = owners(alloc, tree.sets())?;
    places_among(alloc, tree.players().len(), owners.as_slice())
}
