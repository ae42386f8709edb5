// The reduced strategic form.
ghost use Rattle.std.specs.Prelude.{◌≡◌, map, IfOk};
ghost use Rattle.answers.specs.Answers.{Gives, IsSingle};
ghost use Rattle.answers.specs.Answered.{IsAnswered};
ghost use Rattle.game_core.specs.Table.{IsTable};
ghost use Rattle.game_core.specs.Tree.{GameTree, IsGameTree};
ghost use Rattle.game_core.specs.TreeGame.{game_of_tree};
ghost use Rattle.reduced_strategies.specs.StrategicForm.{AreStrategies};
ghost use Rattle.reduced_form.specs.declared.stop.ReduceStop.TheVariants as stops;
ghost use Rattle.reduced_form.specs.ReducedForm.{PaysCompletions, strategy_name};
ghost use Rattle.reduced_form.specs.Stops.{reduced_form_of};

use crate::cells::cells;
use crate::limits::{check_choices, count_all};
use crate::names::names_of_all;
use crate::stop::ReduceStop;
use crate::strategies::Strategies;
use answers::Memory;
use frac128::Frac;
use game_core::{Table, Tree, copied, copied_names, trees_are_game_trees};
use std::alloc::Global;
use std::marker::Model;
use strategy_lists::{Decisions, set_places};

/// The reduced strategic form of a tree. Players and strategies are numbered from 0.
#[derive(Debug, Drop)]
pub struct Reduced {
    choices: Strategies,
    table: Table,
}

impl Model for Reduced {
    ghost use Rattle.reduced_form.specs.ReducedForm.{ReducedForm, code_of_form};

    ghost Value = { ReducedForm };

    ghost coded = { code_of_form };

    ghost view = { λ r. record { choices = r.choices; table = r.table } };
}

impl Reduced {
    ghost use Rattle.std.specs.Prelude.{◌≡◌};

    /// For each player the reduced strategies in order, and in each for each own set in order its
    /// action, counted from 1, or 0 for none.
    pub fn choices(&self) -> &Strategies
        ensures { result.now ≡ self.now.choices }
    {
        &self.choices
    }

    /// The table of the strategies' profiles, with the tree's title and players.
    pub fn table(&self) -> &Table
        ensures { result.now ≡ self.now.table }
    {
        &self.table
    }
}

// The reduced strategies of each player.
fn strategies_of_all(alloc: Global, decisions: &Decisions) -> Result<Strategies, Memory>
    ensures { IfOk result (AreStrategies (game_of_tree decisions.now)) }
{
    let players = decisions.tree().players().len();
    let mut strategies = Vec::with_capacity(alloc, players)?;
    for player in 0..players {
        strategies.push(decisions.list(alloc, player as u32)?)?;
    }
    Ok(Strategies::new(strategies))
}

// The table of these strategies with these payoffs.
fn table_of(
    alloc: Global,
    tree: &Tree,
    strategies: &Strategies,
    payoffs: Vec<Frac>,
) -> Result<Table, Memory>
    requires { IsTable (record {
      title = tree.now.title;
      players = tree.now.players;
      strategies = map (map strategy_name) strategies.now;
      payoffs = payoffs.items;
    }) }
    ensures { IfOk result (λ table. table ≡ record {
      title = tree.now.title;
      players = tree.now.players;
      strategies = map (map strategy_name) strategies.now;
      payoffs = payoffs.items;
    }) }
{
    let title = copied(alloc, tree.title())?;
    let players = copied_names(alloc, tree.players())?;
    let names = names_of_all(alloc, strategies)?;
    Ok(Table::new(title, players, names, payoffs))
}

/// The reduced strategic form of a tree: all reduced strategies of each player, each once, in
/// order, with the table of their profiles, in which each cell pays what every completion of its
/// profile pays on the tree.
///
/// # Errors
///
/// `TooLarge` exactly where the form would have more than 1,048,576 payoffs or, where it has not,
/// more than 67,108,864 choices, which are counted before anything is built. `Range` exactly where
/// both counts are within their limits and a step of a payoff does not fit: the first. `Memory`
/// where memory ran out.
pub fn reduce(alloc: Global, tree: &Tree) -> Result<Reduced, ReduceStop>
    ensures answer { Gives stops.Memory (reduced_form_of tree.now) result }
    ensures completions { IfOk result (PaysCompletions tree.now) }
{
    trees_are_game_trees();
    // Its contract gives what the type keeps.
    let _players = tree.players();
    let places = set_places(alloc, tree)?;
    let decisions = Decisions::new(alloc, tree, &places)?;
    let counts = count_all(alloc, &decisions)?;
    check_choices(tree, &counts)?;
    let choices = strategies_of_all(alloc, &decisions)?;
    let payoffs = cells(alloc, tree, &places, &choices, &counts)?;
    let table = table_of(alloc, tree, &choices, payoffs)?;
    Ok(Reduced { choices, table })
}

/// A tree has one answer at most: its reduced form within the limits, or why it has none.
pub fn forms_are_single()
    ensures { (tree : GameTree) → IsSingle (reduced_form_of tree) }
{}

/// Every tree has an answer.
pub fn forms_are_answered()
    ensures { (tree : GameTree) → IsGameTree tree → IsAnswered (reduced_form_of tree) }
{
    trees_are_game_trees();
}
