//! The tools `lp` and `lcp` on a game that was read: a sequence form, its solution by a linear
//! program or by complementary pivots, and the text of what is found.
//!
//! Callers may rely on: `lp_text` and `lcp_text` give the text that is defined, or the refusal that
//! the first failing stage gives; `two_players` refuses other games; `lp_texts_are_solutions` and
//! `lcp_texts_are_equilibria` say what each text is, `solutions_are_single` that there is at most
//! one answer, and `solutions_are_answered` that there is one, as `strategic_tables_are_single` and
//! `strategic_tables_are_answered` of the strategic form.
//! Definitions: `specs::StrategicForms` has the strategic form that all tools take; `TwoPlayers`
//! says which sequence form a tool works on, `Lp` and `Lcp` what each answers, `Entries` the line
//! of two plans, `Perfect` what they answer of a tree that is solved subgame by subgame; `LpLaws`,
//! `LcpLaws` and `PerfectTexts` what holds of each text.
//! Private words: `specs::Solved` and `KnownCuts`, for code between stages.
//! Lemmas for callers: `proofs::StrategicFormLemmas`, `FormSingleLemmas`.
//! A change here touches: `gambit_tools`, docs/THEOREM.md.
#![tactic(auto)]

ghost use Rattle.std.specs.Prelude.{Bool};
ghost use Rattle.answers.specs.Answered.{IsAnswered};
ghost use Rattle.answers.specs.Answers.{IsSingle};
ghost use Rattle.game_core.specs.declared.game.Game.{Game};
ghost use Rattle.two_player_tools.specs.GameTypes.{IsGame};
ghost use Rattle.two_player_tools.specs.Perfect.{lcp_tool, lp_tool};
ghost use Rattle.two_player_tools.specs.StrategicForms.{strategic_table};

use game_core::{sets_are_numbered_by_first_nodes, trees_are_game_trees};
use perfect_recall::recalls_are_single;
use subgames::sets_stand_in_one_cut;

mod entries;
mod forms;
mod lcp;
mod lp;
mod perfect;
mod pivoting;
mod prices;
mod solving;

pub use forms::two_players;
pub use lcp::{lcp_text, lcp_texts_are_equilibria};
pub use lp::{lp_text, lp_texts_are_solutions};

/// A game has at most one answer: its strategic form, or the reason why it has none.
pub fn strategic_tables_are_single()
    ensures { (game : Game) → IsSingle (strategic_table game) }
{}

/// Each game has its strategic form, or a reason why it has none.
pub fn strategic_tables_are_answered()
    ensures { (game : Game) → IsGame game → IsAnswered (strategic_table game) }
{}

/// A game has at most one answer by each tool.
pub fn solutions_are_single()
    ensures lp { (strategic prices perfect : Bool) (game : Game) → IsGame game
        → IsSingle (lp_tool strategic prices perfect game) }
    ensures lcp { (strategic perfect : Bool) (game : Game) → IsGame game
        → IsSingle (lcp_tool strategic perfect game) }
{
    trees_are_game_trees();
    sets_are_numbered_by_first_nodes();
    recalls_are_single();
    sets_stand_in_one_cut();
}

/// Each game has an answer by each tool.
pub fn solutions_are_answered()
    ensures lp { (strategic prices perfect : Bool) (game : Game) → IsGame game
        → IsAnswered (lp_tool strategic prices perfect game) }
    ensures lcp { (strategic perfect : Bool) (game : Game) → IsGame game
        → IsAnswered (lcp_tool strategic perfect game) }
{
    trees_are_game_trees();
    sets_are_numbered_by_first_nodes();
    sets_stand_in_one_cut();
}
