// What the words say to each tool.

ghost use Rattle.std.specs.Prelude.{◌≡◌, Some, map, string_bytes, IfOk, IfErr};
ghost use Rattle.words.specs.Commands.{collected};
ghost use Rattle.words.specs.Words.{answer, command_of, IsAnswer, IsNotUnderstood};
ghost use Rattle.words.specs.Words.{enumpure_of, enumpure_options, enumpure_settings};
ghost use Rattle.words.specs.Words.{enummixed_of, enummixed_options, enummixed_settings};
ghost use Rattle.words.specs.Words.{lcp_of, lcp_options, lcp_settings};
ghost use Rattle.words.specs.Words.{lp_of, lp_options, lp_settings};
ghost use Rattle.words.specs.Words.{convert_of, convert_options, convert_settings};
ghost use Rattle.words.specs.Words.{check_of, check_options, check_settings};
ghost use Rattle.words.specs.Words.{make_of, make_options, make_settings};

use crate::commands::{self, given, is_given, read_words};
use crate::texts::{
    at_most_one, file_from, is_one_or_none, layout_of, number_from, number_in_range,
};
use crate::{Settings, SettingsStop, Usage};
use std::alloc::Global;

// The most workers that share an enumeration.
const MOST_WORKERS: u32 = 64;

// The largest number that `make` takes.
const LARGEST_NUMBER: u32 = 2_147_483_647;

// The most strategies of a player in a table that `make` makes.
const MOST_STRATEGIES: u32 = 32;

// The settings of `enumpure`, by what its words give.
fn enumpure(
    alloc: Global,
    strategic: bool,
    agents: bool,
    perfect: bool,
    plain: Option<&[&str]>,
) -> Result<Settings, SettingsStop>
    ensures { IsAnswer
        (enumpure_settings strategic agents perfect (collected plain.entry)) result }
{
    if strategic && (agents || perfect) {
        return Err(SettingsStop::Usage(Usage::Words));
    }
    let file = file_from(alloc, plain)?;
    Ok(Settings::Enumpure {
        strategic,
        agents,
        perfect,
        file,
    })
}

/// Reads the words after `enumpure`.
pub(crate) fn read_enumpure(alloc: Global, words: &[String]) -> Result<Settings, SettingsStop>
    ensures { IsAnswer (answer enumpure_options enumpure_of (map string_bytes words.now)) result }
{
    let command = commands::enumpure_command(alloc)?;
    let matches = read_words(command, words)?;
    let strategic = is_given(&matches, "S");
    let agents = is_given(&matches, "A");
    let perfect = is_given(&matches, "P");
    let plain = given(&matches, "words");
    enumpure(alloc, strategic, agents, perfect, plain)
}

// The settings of `enummixed`, by what its words give.
fn enummixed(
    alloc: Global,
    all: bool,
    workers: Option<&[&str]>,
    plain: Option<&[&str]>,
) -> Result<Settings, SettingsStop>
    ensures { IsAnswer (enummixed_settings all
        (collected workers.entry)
        (collected plain.entry)) result }
{
    let workers = number_from(workers, 1, 1, MOST_WORKERS)?;
    let file = file_from(alloc, plain)?;
    Ok(Settings::Enummixed { all, workers, file })
}

/// Reads the words after `enummixed`.
pub(crate) fn read_enummixed(alloc: Global, words: &[String]) -> Result<Settings, SettingsStop>
    ensures { IsAnswer (answer enummixed_options enummixed_of (map string_bytes words.now)) result }
{
    let command = commands::enummixed_command(alloc)?;
    let matches = read_words(command, words)?;
    let all = is_given(&matches, "D");
    let workers = given(&matches, "-j");
    let plain = given(&matches, "words");
    enummixed(alloc, all, workers, plain)
}

// The settings of `lcp`, by what its words give.
fn lcp(
    alloc: Global,
    strategic: bool,
    perfect: bool,
    equilibria: Option<&[&str]>,
    plain: Option<&[&str]>,
) -> Result<Settings, SettingsStop>
    ensures { IsAnswer (lcp_settings strategic perfect
        (collected equilibria.entry)
        (collected plain.entry)) result }
{
    if strategic && perfect {
        return Err(SettingsStop::Usage(Usage::Words));
    }
    let equilibria = at_most_one(equilibria)?;
    if !is_one_or_none(equilibria) {
        return Err(SettingsStop::Usage(Usage::Words));
    }
    let file = file_from(alloc, plain)?;
    Ok(Settings::Lcp {
        strategic,
        perfect,
        file,
    })
}

/// Reads the words after `lcp`.
pub(crate) fn read_lcp(alloc: Global, words: &[String]) -> Result<Settings, SettingsStop>
    ensures { IsAnswer (answer lcp_options lcp_of (map string_bytes words.now)) result }
{
    let command = commands::lcp_command(alloc)?;
    let matches = read_words(command, words)?;
    let strategic = is_given(&matches, "S");
    let perfect = is_given(&matches, "P");
    let equilibria = given(&matches, "-e");
    let plain = given(&matches, "words");
    lcp(alloc, strategic, perfect, equilibria, plain)
}

// The settings of `lp`, by what its words give.
fn lp(
    alloc: Global,
    strategic: bool,
    prices: bool,
    perfect: bool,
    plain: Option<&[&str]>,
) -> Result<Settings, SettingsStop>
    ensures { IsAnswer (lp_settings strategic prices perfect (collected plain.entry)) result }
{
    if perfect && (strategic || prices) {
        return Err(SettingsStop::Usage(Usage::Words));
    }
    let file = file_from(alloc, plain)?;
    Ok(Settings::Lp {
        strategic,
        prices,
        perfect,
        file,
    })
}

/// Reads the words after `lp`.
pub(crate) fn read_lp(alloc: Global, words: &[String]) -> Result<Settings, SettingsStop>
    ensures { IsAnswer (answer lp_options lp_of (map string_bytes words.now)) result }
{
    let command = commands::lp_command(alloc)?;
    let matches = read_words(command, words)?;
    let strategic = is_given(&matches, "S");
    let prices = is_given(&matches, "prices");
    let perfect = is_given(&matches, "P");
    let plain = given(&matches, "words");
    lp(alloc, strategic, prices, perfect, plain)
}

// The settings of `convert`, by what its words give.
fn convert(
    alloc: Global,
    layouts: Option<&[&str]>,
    rows: Option<&[&str]>,
    columns: Option<&[&str]>,
    plain: Option<&[&str]>,
) -> Result<Settings, SettingsStop>
    ensures { IsAnswer (convert_settings
        (collected layouts.entry)
        (collected rows.entry)
        (collected columns.entry)
        (collected plain.entry)) result }
{
    let name = at_most_one(layouts)?;
    let layout = layout_of(name).ok_or(Usage::Words)?;
    let row = number_from(rows, 1, 1, u32::MAX)?;
    let column = number_from(columns, 2, 1, u32::MAX)?;
    let file = file_from(alloc, plain)?;
    Ok(Settings::Convert {
        layout,
        row,
        column,
        file,
    })
}

/// Reads the words after `convert`.
pub(crate) fn read_convert(alloc: Global, words: &[String]) -> Result<Settings, SettingsStop>
    ensures { IsAnswer (answer convert_options convert_of (map string_bytes words.now)) result }
{
    let command = commands::convert_command(alloc)?;
    let matches = read_words(command, words)?;
    let layouts = given(&matches, "-O");
    let rows = given(&matches, "-r");
    let columns = given(&matches, "-c");
    let plain = given(&matches, "words");
    convert(alloc, layouts, rows, columns, plain)
}

// The settings of `check`, by what its words give.
fn check(alloc: Global, strategic: bool, plain: Option<&[&str]>) -> Result<Settings, SettingsStop>
    ensures { IsAnswer (check_settings strategic (collected plain.entry)) result }
{
    let Some([game, rest @ ..]) = plain else {
        return Err(SettingsStop::Usage(Usage::Words));
    };
    let lines = file_from(alloc, Some(rest))?;
    let game = String::from_str(alloc, game)?;
    Ok(Settings::Check {
        strategic,
        game,
        lines,
    })
}

/// Reads the words after `check`.
pub(crate) fn read_check(alloc: Global, words: &[String]) -> Result<Settings, SettingsStop>
    ensures { IsAnswer (answer check_options check_of (map string_bytes words.now)) result }
{
    let command = commands::check_command(alloc)?;
    let matches = read_words(command, words)?;
    let strategic = is_given(&matches, "S");
    let plain = given(&matches, "words");
    check(alloc, strategic, plain)
}

// The settings of `make`, by what its words give.
fn make(workers: Option<&[&str]>, plain: Option<&[&str]>) -> Result<Settings, Usage>
    ensures settings { IfOk result
        (λ s. make_settings (collected workers.entry) (collected plain.entry)
        ≡ Some (command_of s)) }
    ensures refused { IfErr result
        (IsNotUnderstood (make_settings (collected workers.entry) (collected plain.entry))) }
{
    let workers = number_from(workers, 1, 1, MOST_WORKERS)?;
    let Some([number, rows, columns]) = plain else {
        return Err(Usage::Words);
    };
    let number = number_in_range(number, 0, LARGEST_NUMBER).ok_or(Usage::Words)?;
    let rows = number_in_range(rows, 1, MOST_STRATEGIES).ok_or(Usage::Words)?;
    let columns = number_in_range(columns, 1, MOST_STRATEGIES).ok_or(Usage::Words)?;
    Ok(Settings::Make {
        number,
        rows,
        columns,
        workers,
    })
}

/// Reads the words after `make`.
pub(crate) fn read_make(alloc: Global, words: &[String]) -> Result<Settings, SettingsStop>
    ensures { IsAnswer (answer make_options make_of (map string_bytes words.now)) result }
{
    let command = commands::make_command(alloc)?;
    let matches = read_words(command, words)?;
    let workers = given(&matches, "-j");
    let plain = given(&matches, "words");
    Ok(make(workers, plain)?)
}
