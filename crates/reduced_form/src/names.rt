// The names of strategies.
ghost use Rattle.std.specs.Prelude.{◌≡◌, ◌++◌, map, IfOk, OnOk};
ghost use Rattle.std.specs.List.{flat_map};
ghost use Rattle.reduced_form.specs.ReducedForm.{action_text, strategy_name};

use crate::strategies::Strategies;
use answers::Memory;
use game_core::Name;
use std::alloc::Global;

// Adds an action to a name.
fn push_action(alloc: Global, name: &mut Vec<u8>, action: u32) -> Result<(), Memory>
    ensures { OnOk result (name.new.items ≡ name.old.items ++ action_text action) }
{
    if action == 0 {
        name.push(b'*')?;
    } else if action <= 9 {
        name.push(b'0' + action as u8)?;
    } else {
        name.extend_from_slice(format!(in alloc; "({action})")?.as_bytes())?;
    }
    Ok(())
}

// Adds the actions of a strategy to a name.
fn push_actions(alloc: Global, name: &mut Vec<u8>, choices: &[u32]) -> Result<(), Memory>
    ensures { OnOk result (name.new.items ≡ name.old.items ++ flat_map action_text choices.now) }
{
    for action in choices {
        push_action(alloc, name, *action)?;
    }
    Ok(())
}

// The name of a strategy.
fn strategy_name(alloc: Global, choices: &[u32]) -> Result<Name, Memory>
    ensures { IfOk result (λ name. name ≡ strategy_name choices.now) }
{
    let mut name = Vec::new(alloc);
    if choices.is_empty() {
        name.push(b'*')?;
    }
    push_actions(alloc, &mut name, choices)?;
    Ok(Name::new(name))
}

// The names of a player's strategies.
fn names_of_one(alloc: Global, strategies: &[Vec<u32>]) -> Result<Vec<Name>, Memory>
    ensures { IfOk result (λ names. names.items
        ≡ map strategy_name (map (λ v. v.items) strategies.now)) }
{
    let mut names = Vec::with_capacity(alloc, strategies.len())?;
    for choices in strategies {
        names.push(strategy_name(alloc, choices)?)?;
    }
    Ok(names)
}

/// The names of all players' strategies.
pub(crate) fn names_of_all(alloc: Global, strategies: &Strategies) -> Result<Vec<Vec<Name>>, Memory>
    ensures { IfOk result (λ names. map (λ v. v.items) names.items
        ≡ map (map strategy_name) strategies.now) }
{
    let lists = strategies.lists();
    let mut names = Vec::with_capacity(alloc, lists.len())?;
    for list in lists {
        names.push(names_of_one(alloc, list)?)?;
    }
    Ok(names)
}
