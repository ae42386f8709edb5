// The check of lines with behaviour on a tree.
ghost use Rattle.answers.specs.Answers.{Gives, map_ok};
ghost use Rattle.game_core.specs.TreeGame.{game_of_tree};
ghost use Rattle.perfect_recall.specs.Found.{IsRecallOf};
ghost use Rattle.verdicts.specs.TreeScratches.{IsScratchOf};
ghost use Rattle.ne_checker.specs.CheckLaws.{TreeChecksTell};
ghost use Rattle.ne_checker.specs.AnsweredLaws.{TreeChecksAreAnswered};
ghost use Rattle.ne_checker.specs.LineChecks.{TreeChecksAreSingle, tree_check, tree_line};
ghost use Rattle.ne_checker.specs.declared.stops.CheckStop.TheVariants as stops;

use crate::kept_text::{keep, within_limit};
use crate::stops::{CheckStop, faulty, unread};
use crate::texts::{better_reply, equilibrium};
use behaviour_profile::{Behaviour, profiles_are_single, tested_entries_are_behaviours};
use game_core::{Tree, trees_are_game_trees};
use ne_printer::{first_line, read_line};
use perfect_recall::Recall;
use std::alloc::Global;
use verdicts::{
    Scratch, TreeVerdict, check_tree, tree_verdicts_are_single, tree_verdicts_exist,
    tree_verdicts_find_equilibria,
};

// The text of the verdict on a line.
fn tree_line(
    alloc: Global,
    tree: &Tree,
    recall: &Recall,
    scratch: &mut Scratch,
    number: u64,
    line: &[u8],
) -> Result<Vec<u8>, CheckStop>
    requires recall { IsRecallOf (game_of_tree tree.now) recall.now }
    requires scratch { IsScratchOf tree.now scratch.old }
    ensures scratch { IsScratchOf tree.now scratch.new }
    ensures text { Gives stops.Memory (tree_line tree.now number line.now)
        (map_ok result (λ text. text.items)) }
{
    tree.stands_for_game_tree();
    tested_entries_are_behaviours();
    let entries = read_line(alloc, line).map_err(|stop| unread(number, stop))?;
    let behaviour = Behaviour::try_new(tree, entries).map_err(|fault| faulty(number, fault))?;
    match check_tree(tree, recall, &behaviour, scratch) {
        TreeVerdict::Equilibrium => Ok(equilibrium(alloc)?),
        TreeVerdict::Better {
            player,
            payoff,
            best,
        } => {
            let reply = scratch.reply();
            Ok(better_reply(alloc, player, payoff, best, reply)?)
        }
        TreeVerdict::Range { unfit } => Err(CheckStop::Range {
            line: number,
            unfit,
        }),
    }
}

/// The verdicts on the behaviour on a tree whose lines these are: for each line `equilibrium`, or
/// with commas between them `better`, the first player with a better reply, what the behaviour pays
/// the player, what the best reply pays, and its action at each of the player's sets in order.
/// Players and actions count from 1.
///
/// # Errors
///
/// At the first line where there is a reason: `BadLine` where it does not have the entries of
/// behaviour, `Range` where a step of arithmetic does not fit. `TooLarge` where all lines have
/// verdicts, of more than 67,108,864 bytes; `Memory` where memory ran out.
pub fn check_tree_lines(
    alloc: Global,
    tree: &Tree,
    recall: &Recall,
    text: &[u8],
) -> Result<Vec<u8>, CheckStop>
    requires { IsRecallOf (game_of_tree tree.now) recall.now }
    ensures { Gives stops.Memory (tree_check tree.now text.now)
        (map_ok result (λ text. text.items)) }
{
    let mut scratch = Scratch::new(alloc, tree)?;
    let mut verdicts = Vec::new(alloc);
    let mut rest = text;
    let mut number = 1;
    while let Some((line, following)) = first_line(rest) {
        let verdict = tree_line(alloc, tree, recall, &mut scratch, number, line)?;
        keep(&mut verdicts, &verdict)?;
        rest = following;
        number += 1;
    }
    within_limit(verdicts)
}

/// A tree in which all players recall and a text have at most one answer.
pub fn tree_checks_are_single()
    ensures { TreeChecksAreSingle }
{
    profiles_are_single();
    tree_verdicts_are_single();
}

/// A tree in which all players recall and a text have an answer.
pub fn tree_checks_are_answered()
    ensures { TreeChecksAreAnswered }
{
    trees_are_game_trees();
    tested_entries_are_behaviours();
    tree_verdicts_exist();
}

/// Each text on a tree in which all players recall tells of all lines: of an equilibrium that it
/// is one, and else of the first player with a better reply, and of a reply that pays the most.
pub fn tree_checks_tell_equilibria()
    ensures { TreeChecksTell }
{
    trees_are_game_trees();
    tested_entries_are_behaviours();
    tree_verdicts_find_equilibria();
}
