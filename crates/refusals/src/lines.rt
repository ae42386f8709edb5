// The lines of refusals that tell more than their kind.
ghost use Rattle.std.specs.Prelude.{◌≡◌, IfOk, string_bytes};
ghost use Rattle.refusals.specs.Refusals.{refusal_line};
ghost use Rattle.refusals.specs.declared.refusal.Refusal.TheVariants as refusal;

use crate::site::{Site, from_one};
use answers::Memory;
use efg_reader::EfgFault;
use frac128::Unfit;
use game_core::TooLarge;
use game_text::TextFault;
use nfg_reader::NfgFault;
use perfect_recall::Forgets;
use std::alloc::Global;
use zero_sum_lp::NotConstant;

/// The line of a fault of the tokens.
pub(crate) fn text_line(alloc: Global, fault: TextFault) -> Result<String, Memory>
    ensures { IfOk result (λ line. string_bytes line ≡ refusal_line (refusal.Text fault)) }
{
    let TextFault { at, kind } = fault;
    Ok(format!(in alloc; "gambit: text fault at {at}: {kind}\n")?)
}

/// The line of a fault of a table's file.
pub(crate) fn nfg_line(alloc: Global, fault: NfgFault) -> Result<String, Memory>
    ensures { IfOk result (λ line. string_bytes line ≡ refusal_line (refusal.Nfg fault)) }
{
    let NfgFault { at, kind } = fault;
    Ok(format!(in alloc; "gambit: nfg fault at {at}: {kind}\n")?)
}

/// The line of a fault of a tree's file.
pub(crate) fn efg_line(alloc: Global, fault: EfgFault) -> Result<String, Memory>
    ensures { IfOk result (λ line. string_bytes line ≡ refusal_line (refusal.Efg fault)) }
{
    let EfgFault { at, kind } = fault;
    Ok(format!(in alloc; "gambit: efg fault at {at}: {kind}\n")?)
}

/// The line of a limit that is passed.
pub(crate) fn limit_line(alloc: Global, passed: TooLarge) -> Result<String, Memory>
    ensures { IfOk result (λ line.
        string_bytes line
        ≡ refusal_line (refusal.TooLarge passed)) }
{
    let TooLarge { what, count, limit } = passed;
    Ok(format!(in alloc; "gambit: too large: {count} {what}, limit {limit}\n")?)
}

/// The line of a game that has another number of players than two.
pub(crate) fn players_line(alloc: Global, count: u32) -> Result<String, Memory>
    ensures { IfOk result (λ line. string_bytes line ≡ refusal_line (refusal.NotTwoPlayers count)) }
{
    Ok(format!(in alloc; "gambit: {count} players, not two\n")?)
}

/// The line of a player who forgets, with the set and its first two nodes that differ.
pub(crate) fn forgets_line(alloc: Global, forgets: Forgets) -> Result<String, Memory>
    ensures { IfOk result (λ line. string_bytes line ≡ refusal_line (refusal.Forgets forgets)) }
{
    let player = from_one(forgets.player);
    let set = forgets.set;
    let first = from_one(forgets.first_node);
    let second = from_one(forgets.second_node);
    Ok(format!(in alloc;
        "gambit: player {player} forgets at set {set}, nodes {first} and {second}\n"
    )?)
}

/// The line of a game whose payoffs have no constant sum, with two places and their sums.
pub(crate) fn sums_line(alloc: Global, sums: NotConstant) -> Result<String, Memory>
    ensures { IfOk result (λ line. string_bytes line ≡ refusal_line (refusal.NotConstant sums)) }
{
    let first = from_one(sums.first);
    let first_sum = sums.first_sum;
    let second = from_one(sums.second);
    let second_sum = sums.second_sum;
    Ok(format!(in alloc;
        "gambit: not constant sum: {first} has {first_sum}, {second} has {second_sum}\n"
    )?)
}

/// The line of a line that is not a profile; lines count from 1.
pub(crate) fn profile_line(alloc: Global, number: u64) -> Result<String, Memory>
    ensures { IfOk result (λ line. string_bytes line ≡ refusal_line (refusal.BadLine number)) }
{
    Ok(format!(in alloc; "gambit: line {number} is not a profile\n")?)
}

/// The line of a player who is not there; players count from 1.
pub(crate) fn absent_line(alloc: Global, number: u32) -> Result<String, Memory>
    ensures { IfOk result (λ line. string_bytes line ≡ refusal_line (refusal.NoSuchPlayer number)) }
{
    Ok(format!(in alloc; "gambit: no player {number}\n")?)
}

/// The line of a player who is both the row and the column; players count from 1.
pub(crate) fn twice_line(alloc: Global, number: u32) -> Result<String, Memory>
    ensures { IfOk result (λ line. string_bytes line ≡ refusal_line (refusal.SamePlayer number)) }
{
    Ok(format!(in alloc; "gambit: player {number} is both row and column\n")?)
}

/// The line of a step that does not fit, with its site, its operation and its operands.
pub(crate) fn range_line(alloc: Global, site: &Site, unfit: Unfit) -> Result<String, Memory>
    ensures { IfOk result (λ line.
        string_bytes line ≡ refusal_line (refusal.Range site.now unfit)) }
{
    Ok(format!(in alloc; "gambit: range in {site}: {unfit}\n")?)
}

/// The line of a step in a subgame that does not fit, with the node at which the subgame begins.
pub(crate) fn subgame_line(
    alloc: Global,
    node: u32,
    site: &Site,
    unfit: Unfit,
) -> Result<String, Memory>
    ensures { IfOk result (λ line.
        string_bytes line ≡ refusal_line (refusal.SubgameRange node site.now unfit)) }
{
    let number = from_one(node);
    Ok(format!(in alloc; "gambit: range in subgame {number} {site}: {unfit}\n")?)
}
