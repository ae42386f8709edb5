// The text of the choices that pass.
ghost use Rattle.std.specs.Prelude.{Bool};
ghost use Rattle.answers.specs.Answers.{Gives, IsSingle, map_ok};
ghost use Rattle.answers.specs.Answered.{IsAnswered};
ghost use Rattle.game_core.specs.TreeGame.{game_of_tree};
ghost use Rattle.game_theory.specs.Trees.{IsTree, Tree as game_tree};
ghost use Rattle.enumpure_trees.specs.PassingStops.{passing_text};
ghost use Rattle.enumpure_trees.specs.declared.stop.ChoiceStop.TheVariants as stops;

use crate::choices::{action_counts, player_sets};
use crate::passing::{ValuedChoices, passing_choices};
use crate::stop::ChoiceStop;
use crate::test_nodes::test_nodes;
use crate::values::choice_values;
use enumpure::list_profiles;
use game_core::Tree;
use std::alloc::Global;

/// The lines of the choices that pass, each once, in descending order of the lines' entries. A
/// choice is one action at each player's set. It passes where it is an equilibrium at each node at
/// which it is tested: of the agent form where `agents` is set, and else of the players; at each
/// node where a subgame begins where `perfect` is set, and else at the tree's root alone.
///
/// # Errors
///
/// `TooLarge` exactly where choices times nodes times players are more than 1,048,576, or where the
/// values have no other refusal and the lines have more than 67,108,864 bytes; `Range` where a step
/// of a value does not fit: the first; `Memory` where memory ran out.
pub fn list_passing_choices(
    alloc: Global,
    agents: bool,
    perfect: bool,
    tree: &Tree,
) -> Result<Vec<u8>, ChoiceStop>
    ensures { Gives stops.Memory (passing_text agents perfect (game_of_tree tree.now))
        (map_ok result (λ text. text.items)) }
{
    tree.stands_for_game_tree();
    let nodes = test_nodes(alloc, perfect, tree)?;
    let sets = player_sets(alloc, tree)?;
    let counts = action_counts(alloc, tree, &sets)?;
    let (number, values) = choice_values(alloc, tree, &sets, &counts, &nodes)?;
    let choices = ValuedChoices {
        sets: &sets,
        counts: &counts,
        number,
        values: &values,
    };
    let passing = passing_choices(alloc, agents, tree, &nodes, choices)?;
    Ok(list_profiles(alloc, &counts, &passing)?)
}

/// A tree has at most one answer: the text, or why there is none.
pub fn passing_texts_are_single()
    ensures { (agents perfect : Bool) (t : game_tree) → IsSingle (passing_text agents perfect t) }
{}

/// Every tree has an answer.
pub fn passing_texts_are_answered()
    ensures { (agents perfect : Bool) (t : game_tree) → IsTree t
        → IsAnswered (passing_text agents perfect t) }
{}
