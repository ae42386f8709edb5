// The check of lines with mixed profiles of a table.
ghost use Rattle.answers.specs.Answers.{Gives, map_ok};
ghost use Rattle.ne_checker.specs.CheckLaws.{TableChecksTell};
ghost use Rattle.ne_checker.specs.AnsweredLaws.{TableChecksAreAnswered};
ghost use Rattle.ne_checker.specs.LineChecks.{TableChecksAreSingle, table_check, table_line};
ghost use Rattle.ne_checker.specs.declared.stops.CheckStop.TheVariants as stops;

use crate::kept_text::{keep, within_limit};
use crate::stops::{CheckStop, faulty, unread};
use crate::texts::{better_strategy, equilibrium};
use behaviour_profile::{profiles_are_single, tested_entries_are_profiles};
use game_core::Table;
use ne_printer::{first_line, read_line};
use std::alloc::Global;
use verdicts::{
    Mixed, TableVerdict, check_table, table_verdicts_exist, table_verdicts_find_equilibria,
};

// The text of the verdict on a line.
fn table_line(alloc: Global, table: &Table, number: u64, line: &[u8]) -> Result<Vec<u8>, CheckStop>
    ensures { Gives stops.Memory (table_line table.now number line.now)
        (map_ok result (λ text. text.items)) }
{
    let entries = read_line(alloc, line).map_err(|stop| unread(number, stop))?;
    let mixed = Mixed::try_new(table, entries).map_err(|fault| faulty(number, fault))?;
    match check_table(table, &mixed) {
        TableVerdict::Equilibrium => Ok(equilibrium(alloc)?),
        TableVerdict::Better {
            player,
            payoff,
            best,
            reply,
        } => Ok(better_strategy(alloc, player, payoff, best, reply)?),
        TableVerdict::Range { unfit } => Err(CheckStop::Range {
            line: number,
            unfit,
        }),
    }
}

/// The verdicts on the mixed profiles of a table whose lines these are: for each line
/// `equilibrium`, or with commas between them `better`, the first player with a better strategy,
/// what the profile pays the player, what the best strategy pays, and the first such strategy.
/// Players and strategies count from 1.
///
/// # Errors
///
/// At the first line where there is a reason: `BadLine` where it does not have the entries of a
/// mixed profile, `Range` where a step of arithmetic does not fit. `TooLarge` where all lines have
/// verdicts, of more than 67,108,864 bytes; `Memory` where memory ran out.
pub fn check_table_lines(alloc: Global, table: &Table, text: &[u8]) -> Result<Vec<u8>, CheckStop>
    ensures { Gives stops.Memory (table_check table.now text.now)
        (map_ok result (λ text. text.items)) }
{
    let mut verdicts = Vec::new(alloc);
    let mut rest = text;
    let mut number = 1;
    while let Some((line, following)) = first_line(rest) {
        let verdict = table_line(alloc, table, number, line)?;
        keep(&mut verdicts, &verdict)?;
        rest = following;
        number += 1;
    }
    within_limit(verdicts)
}

/// A table and a text have at most one answer.
pub fn table_checks_are_single()
    ensures { TableChecksAreSingle }
{
    profiles_are_single();
}

/// A table and a text have an answer.
pub fn table_checks_are_answered()
    ensures { TableChecksAreAnswered }
{
    tested_entries_are_profiles();
    table_verdicts_exist();
}

/// Each text tells of all lines: of an equilibrium that it is one, and else of the first player
/// with a better strategy, and of the first that pays the most.
pub fn table_checks_tell_equilibria()
    ensures { TableChecksTell }
{
    tested_entries_are_profiles();
    table_verdicts_find_equilibria();
}
