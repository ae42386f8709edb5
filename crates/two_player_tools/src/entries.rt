// The line of two plans.
ghost use Rattle.std.specs.Prelude.{◌≡◌, ◌++◌, false, drop, length, IfOk, Ok};
ghost use Rattle.answers.specs.Answers.{Gives, map_ok, refused_by};
ghost use Rattle.behaviour_profile.specs.EntryStarts.{AreBehaviourEntries};
ghost use Rattle.behaviour_profile.specs.Plans.{plan_behaviour};
ghost use Rattle.game_theory.specs.Lines.{line_text};
ghost use Rattle.refusals.specs.Told.{behaviour_refusal};
ghost use Rattle.game_core.specs.declared.game.Game.TheVariants.{Extensive};
ghost use Rattle.sequence_form.specs.Forms.{tree_form};
ghost use Rattle.two_player_tools.specs.Entries.{plans_line};
ghost use Rattle.two_player_tools.specs.TwoPlayers.{HasForm};

use answers::Memory;
use behaviour_profile::Behaviour;
use frac128::Frac;
use game_core::{Game, Tree};
use ne_printer::line;
use refusals::Refusal;
use sequence_data::SeqForm;
use std::alloc::Global;

// The weights of all sequences but the empty one, which are those of the strategies.
fn strategies(alloc: Global, one: &[Frac], two: &[Frac]) -> Result<Vec<Frac>, Memory>
    ensures { IfOk result (λ entries. entries.items ≡ drop 1 one.now ++ drop 1 two.now) }
{
    let mut entries = Vec::new(alloc);
    if let Some((_, weights)) = one.split_first() {
        entries.extend_from_slice(weights)?;
    }
    if let Some((_, weights)) = two.split_first() {
        entries.extend_from_slice(weights)?;
    }
    Ok(entries)
}

// The line of the strategies' weights.
fn strategies_line(alloc: Global, one: &[Frac], two: &[Frac]) -> Result<Vec<u8>, Memory>
    ensures { IfOk result (λ text. text.items ≡ line_text (drop 1 one.now ++ drop 1 two.now)) }
{
    let entries = strategies(alloc, one, two)?;
    line(alloc, &entries)
}

/// The behaviour of two plans on a tree.
pub(crate) fn plan_behaviour(
    alloc: Global,
    tree: &Tree,
    form: &SeqForm,
    one: &[Frac],
    two: &[Frac],
) -> Result<Behaviour, Refusal>
    requires form { tree_form tree.now (Ok form.now) }
    requires one { length one.now ≡ form.now.first.sequences }
    requires two { length two.now ≡ form.now.second.sequences }
    ensures answer { Gives Refusal.Memory
        (refused_by behaviour_refusal (plan_behaviour tree.now one.now two.now)) result }
    ensures entries { IfOk result (AreBehaviourEntries tree.now) }
{
    Ok(Behaviour::from_plans(alloc, tree, form, one, two)?)
}

// The line of the behaviour of two plans on a tree.
fn behaviour_line(
    alloc: Global,
    tree: &Tree,
    form: &SeqForm,
    one: &[Frac],
    two: &[Frac],
) -> Result<Vec<u8>, Refusal>
    requires form { tree_form tree.now (Ok form.now) }
    requires one { length one.now ≡ form.now.first.sequences }
    requires two { length two.now ≡ form.now.second.sequences }
    ensures { Gives Refusal.Memory (plans_line false (Extensive tree.now) one.now two.now)
        (map_ok result (λ text. text.items)) }
{
    let behaviour = plan_behaviour(alloc, tree, form, one, two)?;
    Ok(line(alloc, behaviour.entries())?)
}

/// The line of two plans: the strategies' weights, or on a tree the behaviour of the plans.
pub(crate) fn plans_line(
    alloc: Global,
    strategic: bool,
    game: &Game,
    form: &SeqForm,
    one: &[Frac],
    two: &[Frac],
) -> Result<Vec<u8>, Refusal>
    requires form { HasForm strategic game.now form.now }
    requires one { length one.now ≡ form.now.first.sequences }
    requires two { length two.now ≡ form.now.second.sequences }
    ensures { Gives Refusal.Memory (plans_line strategic game.now one.now two.now)
        (map_ok result (λ text. text.items)) }
{
    match game {
        Game::Extensive(tree) if !strategic => behaviour_line(alloc, tree, form, one, two),
        _ => Ok(strategies_line(alloc, one, two)?),
    }
}
