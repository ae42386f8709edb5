//! The words of a command line, and what they say.
//!
//! Callers may rely on: `read_settings`: the settings are those that the rules give for any words,
//! and a `Usage` fault comes exactly where they give it.
//! Definitions: `specs::Grammar` says how words are read from left to right, `specs::Words` what
//! they ask for (`Command`, `command_from`).
//! Private words: `specs::Commands`, the command of `clap` for a tool's options.
//! Lemmas for callers: `proofs::RangeLemmas`, that the numbers among the words are within their
//! ranges.
//! A change here touches: the contract of `run`, `refusals`, and the words of docs/FORMAT.md.
#![tactic(auto)]

ghost use Rattle.std.specs.Prelude.{◌≡◌, Ok, map, string_bytes, IfOk, IfErr};
ghost use Rattle.words.specs.Words.{command_from, command_of, IsSettingsStop};

mod commands;
mod texts;
mod tools;

use std::alloc::{AllocError, Global};

/// Which tool is to run, and how. A file that is left out stands for standard input.
#[derive(Debug, Drop)]
pub enum Settings {
    /// List the pure equilibria of a game: those of a tree by reduced strategies where `strategic`
    /// is set, and else as behaviour. Of a tree where one of the others is set: the choices that
    /// are equilibria of the agent form where `agents` is set, and else of the players; in every
    /// subgame where `perfect` is set. `strategic` is set only where both are not.
    Enumpure {
        /// Whether `-S` is given.
        strategic: bool,
        /// Whether `-A` is given.
        agents: bool,
        /// Whether `-P` is given.
        perfect: bool,
        /// The name of the game's file; standard input without one.
        file: Option<String>,
    },
    /// List the extreme equilibria of a game of two players: looked for among all strategies where
    /// `all` is set (`-D`), and else without the strictly dominated ones. From 1 to 64 workers
    /// share the enumeration.
    Enummixed {
        /// Whether `-D` is given.
        all: bool,
        /// How many workers there are.
        workers: u32,
        /// The name of the game's file; standard input without one.
        file: Option<String>,
    },
    /// Print an equilibrium of a game of two players by complementary pivoting: of a tree by
    /// reduced strategies where `strategic` is set, and else as behaviour, that is one in every
    /// subgame where `perfect` is set.
    Lcp {
        /// Whether `-S` is given.
        strategic: bool,
        /// Whether `-P` is given.
        perfect: bool,
        /// The name of the game's file; standard input without one.
        file: Option<String>,
    },
    /// Print an equilibrium of a constant-sum game of two players by linear programming,
    /// `strategic` and `perfect` as for `Lcp`; and the prices where `prices` is set.
    Lp {
        /// Whether `-S` is given.
        strategic: bool,
        /// Whether `--prices` is given.
        prices: bool,
        /// Whether `-P` is given.
        perfect: bool,
        /// The name of the game's file; standard input without one.
        file: Option<String>,
    },
    /// Print the strategic form in a layout. `row` and `column` are the numbers of players, which
    /// count from 1.
    Convert {
        /// How the table is laid out.
        layout: Layout,
        /// The player whose strategies are the rows.
        row: u32,
        /// The player whose strategies are the columns.
        column: u32,
        /// The name of the game's file; standard input without one.
        file: Option<String>,
    },
    /// Check lines of profiles of a game, `strategic` as for `Lcp`: the name of its file, and that
    /// of the lines' file.
    Check {
        /// Whether `-S` is given.
        strategic: bool,
        /// The name of the game's file.
        game: String,
        /// The name of the lines' file; standard input without one.
        lines: Option<String>,
    },
    /// Make a table of two players from a number, which is at most 2,147,483,647, with so many
    /// strategies of the first and of the second, from 1 to 32, and count what is found in it. From
    /// 1 to 64 workers share the enumeration.
    Make {
        /// The number.
        number: u32,
        /// How many strategies the first player has.
        rows: u32,
        /// How many strategies the second player has.
        columns: u32,
        /// How many workers there are.
        workers: u32,
    },
}

/// How `convert` lays a table out.
#[derive(Clone, Copy, Debug, PartialEq, Eq)]
pub enum Layout {
    /// As tables of HTML.
    Html,
    /// In LaTeX, for the package sgame.
    Sgame,
}

/// How the words are refused.
#[derive(Clone, Copy, Debug, PartialEq, Eq)]
pub enum Usage {
    /// There is no word.
    NoTool,
    /// The first word names no tool.
    UnknownTool,
    /// The words after the tool's are not understood.
    Words,
}

/// Why the words gave no settings.
#[derive(Clone, Copy, Debug, PartialEq, Eq)]
pub enum SettingsStop {
    /// The words are refused.
    Usage(Usage),
    /// Memory ran out.
    Memory,
}

impl From<Usage> for SettingsStop {
    ghost use Rattle.std.specs.Prelude.{◌≡◌};
    ghost use Rattle.words.specs.declared.SettingsStop.TheVariants as stops;

    ghost from_gives = { λ usage e. e ≡ stops.Usage usage };

    fn from(usage: Usage) -> SettingsStop {
        SettingsStop::Usage(usage)
    }
}

impl From<AllocError> for SettingsStop {
    ghost use Rattle.std.specs.Prelude.{◌≡◌};
    ghost use Rattle.words.specs.declared.SettingsStop.TheVariants as stops;

    ghost from_gives = { λ _ e. e ≡ stops.Memory };

    fn from(_refused: AllocError) -> SettingsStop {
        SettingsStop::Memory
    }
}

/// Reads the words that stand after the program's own name.
///
/// # Errors
///
/// `Usage` exactly where the words are refused, and how; `Memory` where memory ran out.
pub fn read_settings(alloc: Global, words: &[String]) -> Result<Settings, SettingsStop>
    ensures settings { IfOk result (λ s. command_from (map string_bytes words.now)
        ≡ Ok (command_of s)) }
    ensures stop { IfErr result (IsSettingsStop (command_from (map string_bytes words.now))) }
{
    let Some((tool, rest)) = words.split_first() else {
        return Err(SettingsStop::Usage(Usage::NoTool));
    };
    match tool.as_str() {
        "enumpure" => tools::read_enumpure(alloc, rest),
        "enummixed" => tools::read_enummixed(alloc, rest),
        "lcp" => tools::read_lcp(alloc, rest),
        "lp" => tools::read_lp(alloc, rest),
        "convert" => tools::read_convert(alloc, rest),
        "check" => tools::read_check(alloc, rest),
        "make" => tools::read_make(alloc, rest),
        _ => Err(SettingsStop::Usage(Usage::UnknownTool)),
    }
}
