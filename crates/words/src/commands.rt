// The words of each tool, collected by a command of `clap`.

ghost use Rattle.std.specs.Prelude.{◌≡◌, [], map, string_bytes, IfOk, IfErr, None, false, true, codes};
ghost use Rattle.clap.specs.Matches.{found_of};
ghost use Rattle.clap.specs.Simple.{app_of, with_rule};
ghost use Rattle.clap.specs.Walk.{rows_of};
ghost use Rattle.words.specs.Commands.{app_with, bare, is_ascii, flag_id, flag_rule, value_id, value_rule};
ghost use Rattle.words.specs.Commands.{plain_rule, prices_rule, collected, is_counted, texts_at, SaysParts};
ghost use Rattle.words.specs.Grammar.{word_parts, Options};
ghost use Rattle.words.specs.Words.{enumpure_options, enummixed_options, lcp_options, lp_options};
ghost use Rattle.words.specs.Words.{convert_options, check_options, make_options, IsRefused};

use crate::{SettingsStop, Usage};
use clap::error::ErrorKind;
use clap::{Arg, ArgAction, ArgMatches, Command};
use std::alloc::{AllocError, Global};

// A command with plain words alone.
fn plain_command<'a>(alloc: Global) -> Result<Command<'a>, AllocError>
    ensures { IfOk result (λ c. app_of c ≡ with_rule bare plain_rule) }
{
    let words = Arg::new(alloc, "words").action(ArgAction::Append);
    let command = Command::new(alloc, "gambit")
        .no_binary_name(true)
        .disable_help_flag(true);
    command.arg(words)
}

// The command with one more letter that stands alone.
fn with_flag<'a>(
    alloc: Global,
    command: Command<'a>,
    id: &'a str,
    letter: char,
) -> Result<Command<'a>, AllocError>
    requires { id.now ≡ flag_id letter }
    ensures { IfOk result (λ c. app_of c ≡ with_rule (app_of command.entry) (flag_rule letter)) }
{
    let flag = Arg::new(alloc, id).short(letter).action(ArgAction::Count);
    command.arg(flag)
}

// The command with one more letter that takes a value.
fn with_value<'a>(
    alloc: Global,
    command: Command<'a>,
    id: &'a str,
    letter: char,
) -> Result<Command<'a>, AllocError>
    requires { id.now ≡ value_id letter }
    ensures { IfOk result (λ c. app_of c ≡ with_rule (app_of command.entry) (value_rule letter)) }
{
    let value = Arg::new(alloc, id).short(letter).action(ArgAction::Append);
    command.arg(value)
}

// The command with the option `--prices`.
fn with_prices<'a>(alloc: Global, command: Command<'a>) -> Result<Command<'a>, AllocError>
    ensures { IfOk result (λ c. app_of c ≡ with_rule (app_of command.entry) prices_rule) }
{
    let prices = Arg::new(alloc, "prices")
        .long("prices")
        .action(ArgAction::Count);
    command.arg(prices)
}

// The command with the letter `q` alone.
fn quiet_command<'a>(alloc: Global) -> Result<Command<'a>, AllocError>
    ensures { IfOk result (λ c. app_of c
        ≡ app_with (record { flags = codes "q"; valued = []; prices = false })) }
{
    let plain = plain_command(alloc)?;
    with_flag(alloc, plain, "q", 'q')
}

// The command with the letters `q` and `S`.
fn strategic_command<'a>(alloc: Global) -> Result<Command<'a>, AllocError>
    ensures { IfOk result (λ c. app_of c
        ≡ app_with (record { flags = codes "qS"; valued = []; prices = false })) }
{
    let quiet = quiet_command(alloc)?;
    with_flag(alloc, quiet, "S", 'S')
}

/// The command of `enumpure`.
pub(crate) fn enumpure_command<'a>(alloc: Global) -> Result<Command<'a>, AllocError>
    ensures { IfOk result (λ c. app_of c ≡ app_with enumpure_options) }
{
    let strategic = strategic_command(alloc)?;
    let agents = with_flag(alloc, strategic, "A", 'A')?;
    with_flag(alloc, agents, "P", 'P')
}

/// The command of `enummixed`.
pub(crate) fn enummixed_command<'a>(alloc: Global) -> Result<Command<'a>, AllocError>
    ensures { IfOk result (λ c. app_of c ≡ app_with enummixed_options) }
{
    let quiet = quiet_command(alloc)?;
    let all = with_flag(alloc, quiet, "D", 'D')?;
    with_value(alloc, all, "-j", 'j')
}

/// The command of `lcp`.
pub(crate) fn lcp_command<'a>(alloc: Global) -> Result<Command<'a>, AllocError>
    ensures { IfOk result (λ c. app_of c ≡ app_with lcp_options) }
{
    let strategic = strategic_command(alloc)?;
    let perfect = with_flag(alloc, strategic, "P", 'P')?;
    with_value(alloc, perfect, "-e", 'e')
}

/// The command of `lp`.
pub(crate) fn lp_command<'a>(alloc: Global) -> Result<Command<'a>, AllocError>
    ensures { IfOk result (λ c. app_of c ≡ app_with lp_options) }
{
    let strategic = strategic_command(alloc)?;
    let perfect = with_flag(alloc, strategic, "P", 'P')?;
    with_prices(alloc, perfect)
}

/// The command of `convert`.
pub(crate) fn convert_command<'a>(alloc: Global) -> Result<Command<'a>, AllocError>
    ensures { IfOk result (λ c. app_of c ≡ app_with convert_options) }
{
    let quiet = quiet_command(alloc)?;
    let layouts = with_value(alloc, quiet, "-O", 'O')?;
    let rows = with_value(alloc, layouts, "-r", 'r')?;
    with_value(alloc, rows, "-c", 'c')
}

/// The command of `check`.
pub(crate) fn check_command<'a>(alloc: Global) -> Result<Command<'a>, AllocError>
    ensures { IfOk result (λ c. app_of c ≡ app_with check_options) }
{
    strategic_command(alloc)
}

/// The command of `make`.
pub(crate) fn make_command<'a>(alloc: Global) -> Result<Command<'a>, AllocError>
    ensures { IfOk result (λ c. app_of c ≡ app_with make_options) }
{
    let quiet = quiet_command(alloc)?;
    with_value(alloc, quiet, "-j", 'j')
}

/// Reads the words of the tool.
pub(crate) fn read_words<'a>(
    command: Command<'a>,
    words: &'a [String],
) -> Result<ArgMatches<'a>, SettingsStop>
    ensures told { (o : Options) → app_of command.entry ≡ app_with o → is_ascii o ≡ true
        → IfOk result (SaysParts o (word_parts o (map string_bytes words.now) None)) }
    ensures stop { (o : Options) → app_of command.entry ≡ app_with o → is_ascii o ≡ true
        → IfErr result (IsRefused (word_parts o (map string_bytes words.now) None)) }
{
    match command.try_get_matches_from(words) {
        Ok(matches) => Ok(matches),
        Err(error) if error.kind() == ErrorKind::OutOfMemory => Err(SettingsStop::Memory),
        Err(_) => Err(SettingsStop::Usage(Usage::Words)),
    }
}

/// Whether the option was given.
pub(crate) fn is_given(matches: &ArgMatches<'_>, id: &str) -> bool
    ensures { result ≡ is_counted id.now (rows_of (found_of matches.now)) }
{
    matches.get_count(id) > 0
}

/// The texts that were collected under the id.
pub(crate) fn given<'b, 'a>(matches: &'b ArgMatches<'a>, id: &str) -> Option<&'b [&'a str]>
    ensures { collected result ≡ texts_at id.now (rows_of (found_of matches.now)) }
{
    matches.get_strs(id)
}
