// The choices that are equilibria at nodes.
ghost use Rattle.std.specs.Prelude.{◌≡◌, ◌*◌, ◌<◌, ◌≤◌, ◌^◌, ℕ, IfOk, false, length, true};
ghost use Rattle.game_core.specs.Table.{most_payoffs};
ghost use Rattle.game_core.specs.TreeGame.{game_of_tree};
ghost use Rattle.game_theory.specs.Profiles.{Game};
ghost use Rattle.game_theory.specs.OwnSets.{action_counts, player_sets};
ghost use Rattle.enumpure_trees.specs.Choices.{whole_choices};
ghost use Rattle.enumpure_trees.specs.Games.{AllPlayBest, AreColumnsOf, HasColumns, KeepsThose, PlaysBestAtAll, choosers, strategy_count, strategy_counts};
ghost use Rattle.enumpure_trees.specs.PassingNumbers.{ArePassing};
ghost use Rattle.enumpure_trees.specs.Values.{choice_values, value_count};

use answers::Memory;
use enumpure::{Column, keep_best_replies};
use frac128::Frac;
use game_core::Tree;
use std::alloc::Global;

// The owners of the players' sets.
fn owners(alloc: Global, tree: &Tree, sets: &[u32]) -> Result<Vec<u32>, Memory>
    requires { sets.now ≡ player_sets (game_of_tree tree.now) }
    ensures { IfOk result (λ owners. owners.items ≡ choosers true (game_of_tree tree.now)) }
{
    let mut owners = Vec::with_capacity(alloc, sets.len())?;
    for set in sets {
        owners.push(tree.owner(*set as usize).unwrap_or(0))?;
    }
    Ok(owners)
}

// All players.
fn all_players(alloc: Global, tree: &Tree) -> Result<Vec<u32>, Memory>
    ensures { IfOk result (λ players. players.items ≡ choosers false (game_of_tree tree.now)) }
{
    tree.stands_for_game_tree();
    Ok((0..tree.players().len() as u32).collect(alloc)?)
}

// How many choices of one action at each own set a player has.
fn strategy_count(tree: &Tree, player: u32) -> usize
    requires { strategy_count (game_of_tree tree.now) player < 2 ^ 64 }
    ensures { result ≡ strategy_count (game_of_tree tree.now) player }
{
    tree.stands_for_game_tree();
    let mut count = 1;
    for set in tree.sets_of(player) {
        count *= tree.action_count(*set as usize);
    }
    count
}

// How many of these choices each player has.
fn player_counts(alloc: Global, tree: &Tree) -> Result<Vec<usize>, Memory>
    requires { whole_choices (game_of_tree tree.now) < 2 ^ 64 }
    ensures { IfOk result
        (λ counts. counts.items ≡ strategy_counts false (game_of_tree tree.now)) }
{
    tree.stands_for_game_tree();
    let mut counts = Vec::new(alloc);
    for player in 0..tree.players().len() {
        counts.push(strategy_count(tree, player as u32))?;
    }
    Ok(counts)
}

// What profiles pay at nodes: profile by profile, in each node by node, and in each player by
// player.
#[derive(Clone, Copy)]
struct Columns<'a> {
    numbers: &'a [Frac],
    nodes: usize,
    players: usize,
}

// Leaves out the profiles at which, in the game at some node, one player has a strategy with a
// greater payoff. The player has so many strategies, and `stride` leads to the number of the
// profile with the player's next strategy.
fn keep_best_at_all(
    passing: &mut [bool],
    columns: Columns,
    player: usize,
    stride: usize,
    strategies: usize,
)
    requires fits { columns.nodes * columns.players < 2 ^ 64 }
    requires player { player < columns.players }
    requires payoffs { (games : ℕ → Game) × (j : ℕ)
        × HasColumns games j columns player (length passing.old) stride strategies }
    ensures { (games : ℕ → Game) (j : ℕ)
        → HasColumns games j columns.entry player (length passing.old) stride strategies
        → KeepsThose (PlaysBestAtAll games columns.entry.nodes j) passing.old passing.new }
{
    for node in 0..columns.nodes {
        let column = Column {
            numbers: columns.numbers,
            offset: node * columns.players + player,
            step: columns.nodes * columns.players,
        };
        keep_best_replies(passing, column, stride, strategies);
    }
}

// Leaves out the profiles at which, in the game at some node, one of those who choose has a
// strategy with a greater payoff. `choosers` has the players whose payoffs they compare, and
// `strategies` how many strategies they have. One who has a single strategy is passed over, and
// plays a best reply at each profile.
fn keep_mutual_at_all(
    passing: &mut [bool],
    columns: Columns,
    choosers: &[u32],
    strategies: &[usize],
)
    requires fits { columns.nodes * columns.players < 2 ^ 64 }
    requires payoffs { (games : ℕ → Game)
        × AreColumnsOf games choosers.now strategies.now columns (length passing.old) }
    ensures { (games : ℕ → Game)
        → AreColumnsOf games choosers.now strategies.now columns.entry (length passing.old)
        → KeepsThose (λ n. (p : ℕ) → p < columns.entry.nodes → AllPlayBest (games p) n)
        passing.old passing.new }
{
    let mut stride = 1;
    for index in 0..choosers.len() {
        if strategies[index] > 1 {
            let player = choosers[index] as usize;
            keep_best_at_all(passing, columns, player, stride, strategies[index]);
        }
        stride *= strategies[index];
    }
}

/// The choices of one action at each player's set, and what they are worth at nodes.
#[derive(Clone, Copy)]
pub(crate) struct ValuedChoices<'a> {
    /// The players' sets.
    pub(crate) sets: &'a [u32],
    /// How many actions each of them has.
    pub(crate) counts: &'a [usize],
    /// How many choices there are.
    pub(crate) number: usize,
    /// Their values: choice by choice, in each node by node, and in each player by player.
    pub(crate) values: &'a [Frac],
}

/// For each choice, by its number, whether it is an equilibrium at each of these nodes, at which it
/// has these values: of the agent form where `agents` is set, and else of the players.
pub(crate) fn passing_choices(
    alloc: Global,
    agents: bool,
    tree: &Tree,
    nodes: &[u32],
    choices: ValuedChoices,
) -> Result<Vec<bool>, Memory>
    requires sets { choices.sets.now ≡ player_sets (game_of_tree tree.now) }
    requires counts { choices.counts.now ≡ action_counts (game_of_tree tree.now) }
    requires number { choices.number ≡ whole_choices (game_of_tree tree.now) }
    requires few { value_count (game_of_tree tree.now) nodes.now ≤ most_payoffs }
    requires values { choices.values.now ≡ choice_values (game_of_tree tree.now) nodes.now }
    ensures { IfOk result
        (λ passing. ArePassing agents (game_of_tree tree.now) nodes.now passing.items) }
{
    tree.stands_for_game_tree();
    let columns = Columns {
        numbers: choices.values,
        nodes: nodes.len(),
        players: tree.players().len(),
    };
    let mut passing = vec![in alloc; true; choices.number]?;
    let room = passing.as_mut_slice();
    if agents {
        let owners = owners(alloc, tree, choices.sets)?;
        keep_mutual_at_all(room, columns, &owners, choices.counts);
    } else {
        let all = all_players(alloc, tree)?;
        let counts = player_counts(alloc, tree)?;
        keep_mutual_at_all(room, columns, &all, &counts);
    }
    Ok(passing)
}
