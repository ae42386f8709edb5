// The lines of the profiles that pass, and the text of the pure equilibria of a table.
ghost use Rattle.std.specs.Prelude.{◌≡◌, ◌<◌, ◌≤◌, ◌^◌, ◌++◌, All, length, IfOk, OnOk};
ghost use Rattle.answers.specs.Answers.{Gives, IsSingle, map_ok};
ghost use Rattle.answers.specs.Answered.{IsAnswered};
ghost use Rattle.game_theory.specs.Profiles.{Game, IsProfile, number_of, profile_count};
ghost use Rattle.game_theory.specs.Mixed.{pure};
ghost use Rattle.game_theory.specs.Lines.{entries as entries_of, lines_text};
ghost use Rattle.game_core.specs.Table.{game_of, most_payoffs};
ghost use Rattle.game_theory.specs.Ranks.{ranked};
ghost use Rattle.enumpure.specs.Ranks.{lines_below};
ghost use Rattle.enumpure.specs.Stops.{profiles_text, pure_text};
ghost use Rattle.enumpure.specs.declared.listing.ListStop.TheVariants as stops;

use crate::lengths::text_length;
use crate::replies::mutual_best_replies;
use answers::Memory;
use frac128::Frac;
use game_core::{MOST_TEXT, Table, TooLarge, push_sure, too_long_text};
use ne_printer::push_line;
use std::alloc::Global;

/// Why the pure equilibria were not listed.
#[derive(Clone, Copy, Debug, PartialEq, Eq)]
pub enum ListStop {
    /// The text would have more than 67,108,864 bytes.
    TooLarge(TooLarge),
    /// Memory ran out.
    Memory,
}

impl From<Memory> for ListStop {
    ghost use Rattle.std.specs.Prelude.{◌≡◌};
    ghost use Rattle.enumpure.specs.declared.listing.ListStop.TheVariants as stops;

    ghost from_gives = { λ _ e. e ≡ stops.Memory };

    fn from(_memory: Memory) -> ListStop {
        ListStop::Memory
    }
}

// Writes the profile with a rank in the order of lines.
fn set_ranked(profile: &mut [u32], counts: &[usize], profiles: usize, rank: usize)
    requires players { length profile.old ≡ length counts.now }
    requires profiles { profiles ≡ profile_count counts.now }
    requires few { profiles ≤ most_payoffs }
    requires rank { rank < profiles }
    ensures { profile.new ≡ ranked counts.now rank }
{
    let mut later = profiles;
    let mut rest = rank;
    for player in 0..counts.len() {
        later /= counts[player];
        profile[player] = (rest / later) as u32;
        rest %= later;
    }
}

// Writes the entries of a pure profile over those that stood there.
fn set_entries(entries: &mut Vec<Frac>, counts: &[usize], profile: &[u32]) -> Result<(), Memory>
    requires profile { IsProfile counts.now profile.now }
    ensures { OnOk result (entries.new.items ≡ entries_of counts.now (pure profile.now)) }
{
    entries.clear();
    for player in 0..counts.len() {
        push_sure(entries, counts[player], profile[player] as usize)?;
    }
    Ok(())
}

// The number of a pure profile, where the players have so many strategies.
fn profile_number(counts: &[usize], profile: &[u32]) -> usize
    requires profile { IsProfile counts.now profile.now }
    requires few { profile_count counts.now ≤ most_payoffs }
    ensures { result ≡ number_of counts.now profile.now }
{
    let mut number = 0;
    for player in (0..profile.len()).rev() {
        number = profile[player] as usize + counts[player] * number;
    }
    number
}

// Adds the lines of the profiles that pass in the order of their ranks. Writes over `profile` and
// `entries`.
fn push_lines(
    alloc: Global,
    text: &mut Vec<u8>,
    counts: &[usize],
    passes: &[bool],
    profile: &mut [u32],
    entries: &mut Vec<Frac>,
) -> Result<(), Memory>
    requires players { length profile.old ≡ length counts.now }
    requires each { length passes.now ≡ profile_count counts.now }
    requires few { length passes.now ≤ most_payoffs }
    ensures { OnOk result (text.new.items ≡ text.old.items
        ++ lines_text (lines_below counts.now passes.now (length passes.now))) }
{
    for rank in 0..passes.len() {
        set_ranked(profile, counts, passes.len(), rank);
        if passes[profile_number(counts, profile)] {
            set_entries(entries, counts, profile)?;
            push_line(alloc, text, entries)?;
        }
    }
    Ok(())
}

// The lines of the profiles that pass, in a text that has room for so many bytes from the start.
fn write_lines(
    alloc: Global,
    counts: &[usize],
    passes: &[bool],
    bytes: usize,
) -> Result<Vec<u8>, Memory>
    requires each { length passes.now ≡ profile_count counts.now }
    requires few { length passes.now ≤ most_payoffs }
    ensures { IfOk result (λ text. text.items
        ≡ lines_text (lines_below counts.now passes.now (length passes.now))) }
{
    let mut profile = vec![in alloc; 0; counts.len()]?;
    let mut entries = Vec::new(alloc);
    let mut text = Vec::with_capacity(alloc, bytes)?;
    push_lines(alloc, &mut text, counts, passes, &mut profile, &mut entries)?;
    Ok(text)
}

/// The lines of the pure profiles that pass, each once, in descending order of the lines' entries,
/// where the players have so many strategies. `passes` says of each profile, by its number, whether
/// it passes.
///
/// # Errors
///
/// `TooLarge` exactly where the lines have more than 67,108,864 bytes, which are counted before any
/// line is written; `Memory` where memory ran out.
pub fn list_profiles(alloc: Global, counts: &[usize], passes: &[bool]) -> Result<Vec<u8>, ListStop>
    requires some { All (λ n. 0 < n) counts.now }
    requires players { length counts.now < 2 ^ 40 }
    requires each { length passes.now ≡ profile_count counts.now }
    requires few { length passes.now ≤ most_payoffs }
    ensures { Gives stops.Memory (profiles_text counts.now passes.now)
        (map_ok result (λ text. text.items)) }
{
    let bytes = text_length(counts, passes);
    if bytes > MOST_TEXT {
        return Err(ListStop::TooLarge(too_long_text()));
    }
    Ok(write_lines(alloc, counts, passes, bytes)?)
}

/// The lines of the pure equilibria of a table, for any number of players: each pure profile at
/// which no player has a strategy with a greater payoff, once, in descending order of the lines'
/// entries.
///
/// # Errors
///
/// `TooLarge` exactly where the lines have more than 67,108,864 bytes, which are counted before any
/// line is written; `Memory` where memory ran out.
pub fn list_pure_equilibria(alloc: Global, table: &Table) -> Result<Vec<u8>, ListStop>
    ensures { Gives stops.Memory (pure_text (game_of table.now))
        (map_ok result (λ text. text.items)) }
{
    let counts = table.strategy_counts(alloc)?;
    let all_best = mutual_best_replies(alloc, table)?;
    list_profiles(alloc, &counts, &all_best)
}

/// A game has at most one answer: the text, or that it is too long.
pub fn pure_texts_are_single()
    ensures { (game : Game) → IsSingle (pure_text game) }
{}

/// Every game has an answer.
pub fn pure_texts_are_answered()
    ensures { (game : Game) → IsAnswered (pure_text game) }
{}
