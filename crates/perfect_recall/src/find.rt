// Whether the players recall.
ghost use Rattle.std.specs.Prelude.{◌≡◌, ◌<◌, ◌+◌, ℕ, length, slice_index, IfOk, MatchOption, Some};
ghost use Rattle.answers.specs.Answers.{Gives, IsSingle};
ghost use Rattle.answers.specs.Answered.{IsAnswered};
ghost use Rattle.game_theory.specs.Recall.{HasPerfectRecall, HaveOneHistory};
ghost use Rattle.game_core.specs.Tree.{GameTree, IsGameTree};
ghost use Rattle.game_core.specs.TreeGame.{game_of_tree};
ghost use Rattle.perfect_recall.specs.declared.recall.RecallStop.TheVariants as stops;
ghost use Rattle.perfect_recall.specs.LastEdges.{AreLastEdges};
ghost use Rattle.perfect_recall.specs.Members.{HaveSameEdge, IsForgettingBelow, IsOtherMember, NobodyForgetsBelow};
ghost use Rattle.perfect_recall.specs.Found.{EarlierHaveOneHistory, ForgetsAt, IsRecallOf, recall_of, edge_before};

use crate::paths::last_edges;
use crate::recall::{Forgets, Recall, RecallStop};
use answers::Memory;
use game_core::{Tree, trees_are_game_trees};
use std::alloc::Global;

// The first of these nodes with another edge before it than before the first node, where there is
// one.
fn other_member(members: &[u32], edges: &[Option<(u32, u32)>]) -> Option<u32>
    requires some { 0 < length members.now }
    requires within { (j : ℕ) → j < length members.now
        → slice_index members.now j < length edges.now }
    ensures { MatchOption result (HaveSameEdge members.now edges.now (length members.now))
        (IsOtherMember members.now edges.now) }
{
    let first = edges[members[0] as usize];
    for member in members {
        if edges[*member as usize] != first {
            return Some(*member);
        }
    }
    None
}

// Where the owner of a set forgets at this set, but at none before it.
fn forgets_at(
    tree: &Tree,
    edges: &[Option<(u32, u32)>],
    player: u32,
    number: usize,
) -> Option<Forgets>
    requires length { length edges.now ≡ length tree.now.nodes }
    requires edges { AreLastEdges (game_of_tree tree.now) edges.now }
    requires set { number < length tree.now.sets }
    requires own { (game_of_tree tree.now).owner number ≡ Some player }
    requires earlier { EarlierHaveOneHistory (game_of_tree tree.now) player number }
    ensures player { MatchOption result (HaveOneHistory (game_of_tree tree.now) player number)
        (λ f. f.player ≡ player) }
    ensures forgets { MatchOption result (HaveOneHistory (game_of_tree tree.now) player number)
        (ForgetsAt tree.now) }
{
    tree.stands_for_game_tree();
    let set = &tree.sets()[number];
    let members = set.members();
    let second_node = other_member(members, edges)?;
    Some(Forgets {
        player,
        set: set.label(),
        first_node: members[0],
        second_node,
    })
}

// Who forgets first at the sets up to this one, where this is found at the sets before it.
fn with_set(
    tree: &Tree,
    edges: &[Option<(u32, u32)>],
    number: usize,
    found: Option<Forgets>,
) -> Option<Forgets>
    requires length { length edges.now ≡ length tree.now.nodes }
    requires edges { AreLastEdges (game_of_tree tree.now) edges.now }
    requires set { number < length tree.now.sets }
    requires found { MatchOption found (NobodyForgetsBelow tree.now number)
        (IsForgettingBelow tree.now number) }
    ensures { MatchOption result (NobodyForgetsBelow tree.now (number + 1))
        (IsForgettingBelow tree.now (number + 1)) }
{
    let Some(player) = tree.owner(number) else {
        return found;
    };
    if let Some(forgets) = found {
        if forgets.player <= player {
            return found;
        }
    }
    forgets_at(tree, edges, player, number).or(found)
}

// The first player who forgets, and where; nothing where no player does.
fn first_forgetting(tree: &Tree, edges: &[Option<(u32, u32)>]) -> Option<Forgets>
    requires length { length edges.now ≡ length tree.now.nodes }
    requires edges { AreLastEdges (game_of_tree tree.now) edges.now }
    ensures { MatchOption result (NobodyForgetsBelow tree.now (length tree.now.sets))
        (IsForgettingBelow tree.now (length tree.now.sets)) }
{
    let mut found = None;
    for number in 0..tree.sets().len() {
        found = with_set(tree, edges, number, found);
    }
    found
}

// The edge before a set, where all players recall.
fn edge_before_set(tree: &Tree, edges: &[Option<(u32, u32)>], number: usize) -> Option<(u32, u32)>
    requires length { length edges.now ≡ length tree.now.nodes }
    requires edges { AreLastEdges (game_of_tree tree.now) edges.now }
    requires recall { (i : ℕ) → HasPerfectRecall (game_of_tree tree.now) i }
    requires set { number < length tree.now.sets }
    ensures { result
        ≡ edge_before (game_of_tree tree.now) number ((game_of_tree tree.now).owner number) }
{
    let set = &tree.sets()[number];
    let members = set.members();
    edges[members[0] as usize]
}

// The edges before the sets, where all players recall.
fn edges_before_sets(
    alloc: Global,
    tree: &Tree,
    edges: &[Option<(u32, u32)>],
) -> Result<Vec<Option<(u32, u32)>>, Memory>
    requires length { length edges.now ≡ length tree.now.nodes }
    requires edges { AreLastEdges (game_of_tree tree.now) edges.now }
    requires recall { (i : ℕ) → HasPerfectRecall (game_of_tree tree.now) i }
    ensures { IfOk result (λ before. IsRecallOf (game_of_tree tree.now) before.items) }
{
    let sets = tree.sets().len();
    let mut before = Vec::with_capacity(alloc, sets)?;
    for number in 0..sets {
        before.push(edge_before_set(tree, edges, number))?;
    }
    Ok(before)
}

/// The last own sets and actions before the sets of a tree in which each player has perfect recall.
///
/// # Errors
///
/// `Forgets` exactly where a player lacks perfect recall: the first such player, that player's
/// first set in which two nodes have different own histories, the set's first node, and its first
/// node with another own history. `Memory` where memory ran out.
pub fn find_recall(alloc: Global, tree: &Tree) -> Result<Recall, RecallStop>
    ensures { Gives stops.Memory (recall_of tree.now) result }
{
    let edges = last_edges(alloc, tree)?;
    if let Some(forgets) = first_forgetting(tree, &edges) {
        return Err(RecallStop::Forgets(forgets));
    }
    let before = edges_before_sets(alloc, tree, &edges)?;
    Ok(Recall::new(before))
}

/// A tree has one answer at most: its recall, or the player who forgets first.
pub fn recalls_are_single()
    ensures { (t : GameTree) → IsGameTree t → IsSingle (recall_of t) }
{
    trees_are_game_trees();
}

/// Every tree has an answer.
pub fn recalls_are_answered()
    ensures { (t : GameTree) → IsGameTree t → IsAnswered (recall_of t) }
{
    trees_are_game_trees();
}
