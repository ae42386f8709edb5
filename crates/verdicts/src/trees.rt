// The check of a behaviour on a tree.
ghost use Rattle.game_core.specs.TreeGame.{game_of_tree};
ghost use Rattle.perfect_recall.specs.Found.{IsRecallOf};
ghost use Rattle.verdicts.specs.TreeScratches.{IsScratchOf, reply_of};
ghost use Rattle.verdicts.specs.TreeVerdicts.{tree_verdict};
ghost use Rattle.behaviour_profile.specs.EntryStarts.{AreBehaviourEntries};
ghost use Rattle.verdicts.specs.AnsweredLaws.{TreeVerdictsExist};
ghost use Rattle.verdicts.specs.TreeVerdictLaws.{
  TreeVerdictsAreSingle,
  TreeVerdictsFindEquilibria,
};

use crate::scratch::Scratch;
use crate::trees_player::PlayerPayoffs;
use behaviour_profile::Behaviour;
use frac128::{Frac, Unfit};
use game_core::{Tree, sets_are_numbered_by_first_nodes, trees_are_game_trees};
use perfect_recall::Recall;

/// What a check of a behaviour on a tree finds. Players are numbered from 0.
#[derive(Clone, Copy, Debug, PartialEq, Eq)]
pub enum TreeVerdict {
    /// No player has a reply that pays more.
    Equilibrium,
    /// A player has one, and no player before.
    Better {
        /// The player.
        player: u32,
        /// What the behaviour pays the player.
        payoff: Frac,
        /// What the best reply pays.
        best: Frac,
    },
    /// A step does not fit: the first.
    Range {
        /// The step.
        unfit: Unfit,
    },
}

/// Whether a behaviour is an equilibrium of a tree in which all players recall, and where it is
/// none the first player with a better reply, and the best reply, which `scratch` has then. Takes
/// no memory.
pub fn check_tree(
    tree: &Tree,
    recall: &Recall,
    behaviour: &Behaviour,
    scratch: &mut Scratch,
) -> TreeVerdict
    requires recall { IsRecallOf (game_of_tree tree.now) recall.now }
    requires entries { AreBehaviourEntries tree.now behaviour.now }
    requires scratch { IsScratchOf tree.now scratch.old }
    ensures scratch { IsScratchOf tree.now scratch.new }
    ensures verdict { tree_verdict tree.now behaviour.now result (reply_of scratch.new) }
{
    tree.stands_for_game_tree();
    scratch.forget_reply();
    let entries = behaviour.entries();
    for player in 0..tree.players().len() {
        let player = player as u32;
        match scratch.check(tree, entries, player) {
            Err(unfit) => return TreeVerdict::Range { unfit },
            Ok(PlayerPayoffs { payoff, best }) => {
                if payoff.is_less(best) {
                    scratch.keep_reply(tree, player);
                    return TreeVerdict::Better {
                        player,
                        payoff,
                        best,
                    };
                }
            }
        }
    }
    TreeVerdict::Equilibrium
}

/// A tree in which all players recall and the entries of a behaviour have at most one verdict, with
/// one reply.
pub fn tree_verdicts_are_single()
    ensures { TreeVerdictsAreSingle }
{
    trees_are_game_trees();
    sets_are_numbered_by_first_nodes();
}

/// Behaviour on a tree in which all players recall has a verdict.
pub fn tree_verdicts_exist()
    ensures { TreeVerdictsExist }
{
    trees_are_game_trees();
    sets_are_numbered_by_first_nodes();
}

/// A verdict of equilibrium on valid behaviour is right, a better reply is the first player's that
/// has one and the best, at each set the first action that is worth the most, and where all steps
/// fit the verdict of equilibrium comes exactly at equilibria.
pub fn tree_verdicts_find_equilibria()
    ensures { TreeVerdictsFindEquilibria }
{
    trees_are_game_trees();
}
