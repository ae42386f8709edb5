// The outcomes, numbered by their first use.
ghost use Rattle.std.specs.Prelude.{◌≡◌, ◌<◌, [], Some, if◌then◌else◌, length, map, option_map, IfOk, OnOk};
ghost use Rattle.std.specs.List.{AllByRecursion};
ghost use Rattle.game_core.specs.Spacing.{IsShortToken};
ghost use Rattle.game_core.specs.TokenList.{bare};
ghost use Rattle.file_parts.specs.Reading.{payoff_start};
ghost use Rattle.file_parts.specs.Parsing.{Parses, ParsesAlways, parse_each, unexpected_at};
ghost use Rattle.tree_grammar.specs.TreeParsing.{closes, parse_payoff, parse_payoffs_end, parse_first_payoffs, parse_same_payoffs, parse_later_payoffs, parse_named, parse_outcome};
ghost use Rattle.tree_grammar.specs.declared.kinds.EfgKind.TheVariants.{Node, OutcomeMismatch};
ghost use Rattle.std.specs.Option.{option_or};
ghost use Rattle.written_trees.specs.Building.{finished_outcome};

use crate::kinds::EfgKind;
use crate::pieces::kind_or_node;
use crate::sets::{optional_name, or_empty};
use file_parts::{
    PartStop, Unexpected, closing_brace, label, number, opening_brace, optional_text, payoff,
    payoff_start, unexpected,
};
use frac128::Frac;
use game_core::{Name, Outcome, Spanned};
use indexmap::IndexSet;
use std::alloc::{AllocError, Global};
use std::marker::Model;

// An outcome as far as it was used.
#[derive(Drop)]
struct KeptOutcome {
    // The number that the file gives it.
    label: u64,
    // Its first name, where one came.
    name: Option<Name>,
    // The payoffs of its first use, one per player.
    payoffs: Vec<Frac>,
}

/// The outcomes that were read so far, in the order of their first use. Callers see them as a list
/// of outcomes, each with the number that the file gives it, its first name and the payoffs of its
/// first use. The number of an outcome among them counts from 0.
#[derive(Drop)]
pub struct Outcomes {
    // The numbers that the file gives them: always the labels of the outcomes.
    labels: IndexSet<u64>,
    // The outcomes.
    list: Vec<KeptOutcome>,
}

impl Model for Outcomes {
    ghost use Rattle.std.specs.Prelude.{List};
    ghost use Rattle.std.specs.Coded.{coded_list};
    ghost use Rattle.written_trees.specs.Building.{PartialOutcome};
    ghost use Rattle.tree_grammar.specs.UseCodes.{code_of_partial_outcome};

    ghost Value = { List PartialOutcome };

    ghost coded = { coded_list code_of_partial_outcome };

    ghost use Rattle.tree_grammar.specs.Uses.{partial_outcomes, AreOutcomes};

    ghost view = { partial_outcomes };

    ghost invariant = { AreOutcomes };
}

impl Outcomes {
    /// No outcomes.
    pub fn new(alloc: Global) -> Outcomes
        ensures { result ≡ [] }
    {
        Outcomes {
            labels: IndexSet::new(alloc),
            list: Vec::new(alloc),
        }
    }

    /// The outcomes of the whole tree; one without a name gets the empty one.
    ///
    /// # Errors
    ///
    /// Memory ran out.
    pub fn finish(self, alloc: Global) -> Result<Vec<Outcome>, AllocError>
        ensures { IfOk result (λ v. v.items ≡ map finished_outcome self) }
    {
        let Outcomes { list, .. } = self;
        let mut finished = Vec::new(alloc);
        for outcome in list {
            let name = or_empty(alloc, outcome.name);
            finished.push(Outcome::new(outcome.label, name, outcome.payoffs))?;
        }
        Ok(finished)
    }
}

// That no payoff comes, of which this many came before.
fn no_payoff(tokens: &[Spanned], index: usize) -> Unexpected<EfgKind>
    ensures { result
        ≡ unexpected_at
        (if closes (payoff_start index (bare tokens.now)) then OutcomeMismatch else Node)
        (payoff_start index (bare tokens.now)) }
{
    let start = payoff_start(tokens, index);
    let kind = kind_or_node(closing_brace(start).is_some(), EfgKind::OutcomeMismatch);
    Unexpected::first_of(kind, start)
}

// The tokens after the brace that closes payoffs.
fn closed(tokens: &[Spanned]) -> Result<&[Spanned], Unexpected<EfgKind>>
    ensures { ParsesAlways (λ rest. (tt, bare rest.now)) result
        (parse_payoffs_end (bare tokens.now)) }
{
    match closing_brace(tokens) {
        Some(rest) => Ok(rest),
        None => {
            let kind = kind_or_node(number(tokens).is_some(), EfgKind::OutcomeMismatch);
            Err(Unexpected::first_of(kind, tokens))
        }
    }
}

// The payoffs of this many players, and the tokens after them.
#[tactic(auto, using(file_parts::proofs::ParseLemmas::parses))]
fn payoffs(
    alloc: Global,
    tokens: &[Spanned],
    players: usize,
) -> Result<(Vec<Frac>, &[Spanned]), PartStop<EfgKind>>
    ensures { Parses (λ x. (x.0.items, bare x.1.now)) result
        (parse_each parse_payoff 0 players (bare tokens.now)) }
{
    let mut payoffs = Vec::new(alloc);
    let mut rest = tokens;
    for index in 0..players {
        let Some(next) = payoff(rest, index) else {
            return Err(PartStop::Unexpected(no_payoff(rest, index)));
        };
        payoffs.push(next.0)?;
        rest = next.1;
    }
    Ok((payoffs, rest))
}

// The payoffs of an outcome at its first use, and the tokens after them.
#[tactic(auto, using(file_parts::proofs::ParseLemmas::stops), unfolding(crate::specs::TreeParsing::parse_first_payoffs))]
fn first_payoffs(
    alloc: Global,
    tokens: &[Spanned],
    players: usize,
) -> Result<(Vec<Frac>, &[Spanned]), PartStop<EfgKind>>
    ensures { Parses (λ x. (x.0.items, bare x.1.now)) result
        (parse_first_payoffs players (bare tokens.now)) }
{
    let Some(inner) = opening_brace(tokens) else {
        return Err(unexpected(EfgKind::OutcomeMismatch, tokens));
    };
    let (payoffs, following) = payoffs(alloc, inner, players)?;
    let rest = closed(following)?;
    Ok((payoffs, rest))
}

// The tokens after payoffs that repeat these.
#[tactic(auto, using(crate::proofs::OutcomeStepLemmas::repeated_steps))]
fn repeated<'a>(
    tokens: &'a [Spanned],
    payoffs: &[Frac],
) -> Result<&'a [Spanned], Unexpected<EfgKind>>
    ensures { ParsesAlways (λ rest. (tt, bare rest.now)) result
        (parse_same_payoffs 0 payoffs.now (bare tokens.now)) }
{
    let mut rest = tokens;
    for (index, payoff_before) in payoffs.iter().enumerate() {
        let Some(next) = payoff(rest, index) else {
            return Err(no_payoff(rest, index));
        };
        if next.0 != *payoff_before {
            let start = payoff_start(rest, index);
            return Err(Unexpected::first_of(EfgKind::OutcomeMismatch, start));
        }
        rest = next.1;
    }
    Ok(rest)
}

// The tokens after the payoffs of a later use, which may come, and repeat these.
#[tactic(auto, using(file_parts::proofs::ParseLemmas::fault_first), unfolding(crate::specs::TreeParsing::parse_repeated_payoffs))]
fn later_payoffs<'a>(
    tokens: &'a [Spanned],
    payoffs: &[Frac],
) -> Result<&'a [Spanned], Unexpected<EfgKind>>
    ensures { ParsesAlways (λ rest. (tt, bare rest.now)) result
        (parse_later_payoffs payoffs.now (bare tokens.now)) }
{
    let Some(inner) = opening_brace(tokens) else {
        return Ok(tokens);
    };
    let following = repeated(inner, payoffs)?;
    closed(following)
}

// An outcome of a first use, with the payoffs that come, and the tokens after them.
fn first_use<'a>(
    alloc: Global,
    label: u64,
    name: Option<&Name>,
    players: usize,
    tokens: &'a [Spanned],
) -> Result<(KeptOutcome, &'a [Spanned]), PartStop<EfgKind>>
    ensures label { IfOk result (λ x. x.0.label ≡ label) }
    ensures name { IfOk result (λ x. x.0.name ≡ option_map (λ t. t.now) name.entry) }
    ensures read { Parses (λ x. (x.0.payoffs.items, bare x.1.now)) result
        (parse_first_payoffs players (bare tokens.now)) }
{
    let (payoffs, rest) = first_payoffs(alloc, tokens, players)?;
    let name = optional_name(alloc, name)?;
    let outcome = KeptOutcome {
        label,
        name,
        payoffs,
    };
    Ok((outcome, rest))
}

// The tokens after a later use of an outcome.
fn later_use<'a>(
    alloc: Global,
    outcome: &mut KeptOutcome,
    name: Option<&Name>,
    tokens: &'a [Spanned],
) -> Result<&'a [Spanned], PartStop<EfgKind>>
    ensures label { OnOk result (outcome.new.label ≡ outcome.old.label) }
    ensures name { OnOk result (outcome.new.name
        ≡ option_or outcome.old.name (option_map (λ t. t.now) name.entry)) }
    ensures payoffs { OnOk result (outcome.new.payoffs.items ≡ outcome.old.payoffs.items) }
    ensures read { Parses (λ rest. (tt, bare rest.now)) result
        (parse_later_payoffs outcome.old.payoffs.items (bare tokens.now)) }
{
    let rest = later_payoffs(tokens, outcome.payoffs.as_slice())?;
    if outcome.name.is_none() {
        outcome.name = optional_name(alloc, name)?;
    }
    Ok(rest)
}

// The outcomes with the one of this label, which a node uses, its number, and the tokens after it.
fn read_named<'a>(
    alloc: Global,
    outcomes: Outcomes,
    label: u64,
    players: usize,
    tokens: &'a [Spanned],
) -> Result<(Outcomes, u32, &'a [Spanned]), PartStop<EfgKind>>
    requires few { length outcomes < 4294967295 }
    ensures { Parses (λ x. ((x.0, Some x.1), bare x.2.now)) result
        (parse_named players label outcomes (bare tokens.now)) }
{
    let (name, following) = optional_text(tokens);
    let Outcomes {
        mut labels,
        mut list,
    } = outcomes;
    let (place, is_new) = labels.insert_full(label)?;
    if is_new {
        let (outcome, rest) = first_use(alloc, label, name, players, following)?;
        list.push(outcome)?;
        Ok((Outcomes { labels, list }, place as u32, rest))
    } else {
        let rest = later_use(alloc, &mut list[place], name, following)?;
        Ok((Outcomes { labels, list }, place as u32, rest))
    }
}

/// The outcome that comes at a node, in a game of so many players: the outcomes with that use, the
/// outcome's number among them from 0, or nothing where the node has none, and the tokens after it.
/// The outcome is new where none has the number that comes.
///
/// # Errors
///
/// The fault's kind and how many tokens are left there; or memory ran out.
#[tactic(auto, using(crate::proofs::LabelLemmas::outcome_steps))]
pub fn read_outcome<'a>(
    alloc: Global,
    outcomes: Outcomes,
    players: usize,
    tokens: &'a [Spanned],
) -> Result<(Outcomes, Option<u32>, &'a [Spanned]), PartStop<EfgKind>>
    requires few { length outcomes < 4294967295 }
    requires short { AllByRecursion IsShortToken (bare tokens.now) }
    ensures { Parses (λ x. ((x.0, x.1), bare x.2.now)) result
        (parse_outcome players outcomes (bare tokens.now)) }
{
    let Some((number, rest)) = label(tokens) else {
        return Err(unexpected(EfgKind::Node, tokens));
    };
    if number == 0 {
        return Ok((outcomes, None, rest));
    }
    let (outcomes, place, rest) = read_named(alloc, outcomes, number, players, rest)?;
    Ok((outcomes, Some(place), rest))
}
