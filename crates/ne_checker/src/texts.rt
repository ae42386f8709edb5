// The texts of verdicts.
ghost use Rattle.std.specs.Prelude.{◌≡◌, ◌++◌, [], ◌∷◌, IfOk, OnOk};
ghost use Rattle.std.specs.List.{flat_map};
ghost use Rattle.ne_checker.specs.Texts.{better_start, better_text, choice_text, equilibrium_text};

use answers::Memory;
use frac128::Frac;
use std::alloc::Global;

/// The text of an equilibrium.
pub(crate) fn equilibrium(alloc: Global) -> Result<Vec<u8>, Memory>
    ensures { IfOk result (λ text. text.items ≡ equilibrium_text) }
{
    Ok(b"equilibrium\n".to_vec(alloc)?)
}

// The text of a better reply, up to the reply.
fn better_start(alloc: Global, player: u32, payoff: Frac, best: Frac) -> Result<Vec<u8>, Memory>
    ensures { IfOk result (λ text. text.items ≡ better_start player payoff best) }
{
    let number = u64::from(player) + 1;
    let text = format!(in alloc; "better,{number},{payoff},{best}")?;
    Ok(text.into_bytes())
}

// Adds a strategy or an action.
fn push_choice(alloc: Global, text: &mut Vec<u8>, choice: u32) -> Result<(), Memory>
    ensures { OnOk result (text.new.items ≡ text.old.items ++ choice_text choice) }
{
    let number = u64::from(choice) + 1;
    let written = format!(in alloc; ",{number}")?;
    text.extend_from_slice(written.as_bytes())?;
    Ok(())
}

// Adds the actions of a reply.
fn push_reply(alloc: Global, text: &mut Vec<u8>, reply: &[u32]) -> Result<(), Memory>
    ensures { OnOk result (text.new.items
        ≡ text.old.items ++ flat_map choice_text reply.now) }
{
    for action in reply {
        push_choice(alloc, text, *action)?;
    }
    Ok(())
}

/// The text of a better strategy of a player.
pub(crate) fn better_strategy(
    alloc: Global,
    player: u32,
    payoff: Frac,
    best: Frac,
    strategy: u32,
) -> Result<Vec<u8>, Memory>
    ensures { IfOk result (λ text. text.items ≡ better_text player payoff best (strategy ∷ [])) }
{
    let mut text = better_start(alloc, player, payoff, best)?;
    push_choice(alloc, &mut text, strategy)?;
    text.push(b'\n')?;
    Ok(text)
}

/// The text of a better reply of a player.
pub(crate) fn better_reply(
    alloc: Global,
    player: u32,
    payoff: Frac,
    best: Frac,
    reply: &[u32],
) -> Result<Vec<u8>, Memory>
    ensures { IfOk result (λ text. text.items ≡ better_text player payoff best reply.now) }
{
    let mut text = better_start(alloc, player, payoff, best)?;
    push_reply(alloc, &mut text, reply)?;
    text.push(b'\n')?;
    Ok(text)
}
