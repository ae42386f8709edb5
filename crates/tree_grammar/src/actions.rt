// Lists of actions.
ghost use Rattle.std.specs.Prelude.{◌≡◌, List, map, Ok};
ghost use Rattle.rational.specs.Rational.{zero_ℚ};
ghost use Rattle.game_core.specs.declared.tree.Action.{Action as action};
ghost use Rattle.game_core.specs.declared.token.Token.{Token as token};
ghost use Rattle.game_core.specs.TokenList.{bare};
ghost use Rattle.file_parts.specs.Reading.{texts_at};
ghost use Rattle.file_parts.specs.Parsing.{Parses, ParsesAlways};
ghost use Rattle.tree_grammar.specs.TreeParsing.{own_action, sum_with, parse_chances, parse_closed, parse_first_list, parse_repeated, parse_all_repeated, parse_later_list};

use crate::kinds::EfgKind;
use crate::pieces::kind_or_node;
use file_parts::{PartStop, Unexpected, closing_brace, number, opening_brace, text, unexpected};
use frac128::Frac;
use game_core::{Action, Spanned, copied};
use std::alloc::Global;
use std::cmp::Ordering;

// The sum with one more probability of the set with this number.
fn next_sum(sum: Frac, prob: Frac, set: u64) -> Result<Frac, EfgKind>
    ensures { result ≡ sum_with set sum prob }
{
    let next = match sum.add(prob) {
        Ok(next) => next,
        Err(unfit) => return Err(EfgKind::ProbabilityRange { set, unfit }),
    };
    if prob.signum() < 0 || next.cmp(Frac::one()) == Ordering::Greater {
        return Err(EfgKind::Probability { set, sum: next });
    }
    Ok(next)
}

// As many actions of chance as come, their sum, and the tokens after them. The set has this number.
#[tactic(auto, using(crate::proofs::ActionStepLemmas::summed_steps))]
fn chance_actions(
    alloc: Global,
    tokens: &[Spanned],
    set: u64,
) -> Result<(Vec<Action>, Frac, &[Spanned]), PartStop<EfgKind>>
    ensures { Parses (λ x. ((x.0.items, x.1), bare x.2.now)) result
        (parse_chances set zero_ℚ (bare tokens.now)) }
{
    let mut actions = Vec::new(alloc);
    let mut sum = Frac::zero();
    let mut rest = tokens;
    while let Some((name, after)) = text(rest) {
        let Some(next) = number(after) else {
            return Err(unexpected(EfgKind::Node, after));
        };
        let prob = next.0;
        sum = match next_sum(sum, prob, set) {
            Ok(more) => more,
            Err(kind) => return Err(unexpected(kind, after)),
        };
        let name = copied(alloc, name)?;
        actions.push(Action { name, prob })?;
        rest = next.1;
    }
    Ok((actions, sum, rest))
}

// As many actions of a player as come, and the tokens after them.
fn own_actions(
    alloc: Global,
    tokens: &[Spanned],
) -> Result<(Vec<Action>, &[Spanned]), PartStop<EfgKind>>
    ensures { Parses {Y = List action
        × List token} (λ x. (x.0.items, bare x.1.now)) result
        (Ok (map own_action (texts_at (bare tokens.now)).0, (texts_at (bare tokens.now)).1)) }
{
    let mut actions = Vec::new(alloc);
    let mut rest = tokens;
    while let Some((name, following)) = text(rest) {
        let name = copied(alloc, name)?;
        let prob = Frac::zero();
        actions.push(Action { name, prob })?;
        rest = following;
    }
    Ok((actions, rest))
}

// The tokens after the brace that closes this many actions, which is at least one.
fn closed(tokens: &[Spanned], count: usize) -> Result<&[Spanned], Unexpected<EfgKind>>
    ensures { ParsesAlways (λ rest. (tt, bare rest.now)) result
        (parse_closed count (bare tokens.now)) }
{
    match closing_brace(tokens) {
        Some(rest) if count >= 1 => Ok(rest),
        _ => Err(Unexpected::first_of(EfgKind::Node, tokens)),
    }
}

/// The actions of a set at its first use, and the tokens after them. The set has this number.
#[tactic(auto, using(crate::proofs::ActionStepLemmas::list_steps))]
pub(crate) fn first_list(
    alloc: Global,
    tokens: &[Spanned],
    owner: Option<u32>,
    set: u64,
) -> Result<(Vec<Action>, &[Spanned]), PartStop<EfgKind>>
    ensures { Parses (λ x. (x.0.items, bare x.1.now)) result
        (parse_first_list owner set (bare tokens.now)) }
{
    let Some(inner) = opening_brace(tokens) else {
        return Err(unexpected(EfgKind::SetMismatch, tokens));
    };
    match owner {
        Some(_) => {
            let (actions, following) = own_actions(alloc, inner)?;
            let rest = closed(following, actions.len())?;
            Ok((actions, rest))
        }
        None => {
            let (actions, sum, following) = chance_actions(alloc, inner, set)?;
            let rest = closed(following, actions.len())?;
            if sum != Frac::one() {
                return Err(unexpected(EfgKind::Probability { set, sum }, following));
            }
            Ok((actions, rest))
        }
    }
}

// The tokens after an action that repeats this one.
#[tactic(auto, unfolding(crate::specs::TreeParsing::parse_repeated))]
fn repeated<'a>(
    tokens: &'a [Spanned],
    owner: Option<u32>,
    action: &Action,
) -> Result<&'a [Spanned], Unexpected<EfgKind>>
    ensures { ParsesAlways (λ rest. (tt, bare rest.now)) result
        (parse_repeated owner action.now (bare tokens.now)) }
{
    let Some((_, after)) = text(tokens) else {
        let kind = kind_or_node(closing_brace(tokens).is_some(), EfgKind::SetMismatch);
        return Err(Unexpected::first_of(kind, tokens));
    };
    if owner.is_some() {
        return Ok(after);
    }
    match number(after) {
        Some((prob, rest)) if prob == action.prob => Ok(rest),
        Some(_) => Err(Unexpected::first_of(EfgKind::SetMismatch, after)),
        None => Err(Unexpected::first_of(EfgKind::Node, after)),
    }
}

// The tokens after actions that repeat these.
#[tactic(auto, using(crate::proofs::ActionStepLemmas::repeat_steps))]
fn all_repeated<'a>(
    tokens: &'a [Spanned],
    owner: Option<u32>,
    actions: &[Action],
) -> Result<&'a [Spanned], Unexpected<EfgKind>>
    ensures { ParsesAlways (λ rest. (tt, bare rest.now)) result
        (parse_all_repeated owner actions.now (bare tokens.now)) }
{
    let mut rest = tokens;
    for action in actions {
        rest = repeated(rest, owner, action)?;
    }
    Ok(rest)
}

/// The tokens after the actions of a later use, which may come, and repeat these.
#[tactic(auto, using(file_parts::proofs::ParseLemmas::fault_first), unfolding(crate::specs::TreeParsing::parse_repeated_list))]
pub(crate) fn later_list<'a>(
    tokens: &'a [Spanned],
    owner: Option<u32>,
    actions: &[Action],
) -> Result<&'a [Spanned], Unexpected<EfgKind>>
    ensures { ParsesAlways (λ rest. (tt, bare rest.now)) result
        (parse_later_list owner actions.now (bare tokens.now)) }
{
    let Some(inner) = opening_brace(tokens) else {
        return Ok(tokens);
    };
    let following = all_repeated(inner, owner, actions)?;
    match closing_brace(following) {
        Some(rest) => Ok(rest),
        None => {
            let kind = kind_or_node(text(following).is_some(), EfgKind::SetMismatch);
            Err(Unexpected::first_of(kind, following))
        }
    }
}
