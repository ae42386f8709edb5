// Reads a table from the tokens of a file.
ghost use Rattle.std.specs.Prelude.{ℕ, ◌≡◌, ◌⊎◌, List, Ok, IfOk};
ghost use Rattle.answers.specs.Answers.{Gives, IsSingle};
ghost use Rattle.answers.specs.Answered.{IsAnswered};
ghost use Rattle.game_core.specs.Table.{GameTable, IsTable};
ghost use Rattle.game_core.specs.TokenList.{TokenList, bare};
ghost use Rattle.game_core.specs.declared.token.Token.{Token as token};
ghost use Rattle.nfg_reader.specs.TableFile.{IsTableFile};
ghost use Rattle.nfg_reader.specs.Faults.{IsFile, IsFault};
ghost use Rattle.nfg_reader.specs.TableParsing.{parse_table};
ghost use Rattle.nfg_reader.specs.Fronts.{front_of, table_of};
ghost use Rattle.nfg_reader.specs.Stops.{IsNfgStop, table_in};
ghost use Rattle.nfg_reader.specs.declared.reading.NfgStop.TheVariants.{Memory};

use crate::front::{Front, read_front};
use crate::outcomes::last_payoffs;
use crate::strategies::{profile_count_within_limit, strategy_names};
use file_parts::{PartStop, offset};
use frac128::Frac;
use game_core::{MOST_PAYOFFS, Table, Tokens, TooLarge, What};
use std::alloc::{AllocError, Global};
use std::fmt;

/// The kind of a fault in a file of a table.
#[derive(Clone, Copy, Debug, PartialEq, Eq)]
pub enum NfgKind {
    /// One of the first four tokens: `NFG`, 1, `R` or `D`, and the title.
    Header,
    /// The list of players.
    Players,
    /// The list of strategies.
    Strategies,
    /// The list of outcomes, or an outcome number above their number.
    Outcome,
    /// The payoffs, or the outcome numbers.
    PayoffCount,
    /// A token after the end.
    Trailing,
}

impl fmt::Display for NfgKind {
    ghost use Rattle.std.specs.Prelude.{Some};
    ghost use Rattle.nfg_reader.specs.Texts.{nfg_kind_text};

    ghost output = { λ kind. Some (nfg_kind_text kind) };

    fn fmt<W: fmt::Write>(&self, f: &mut fmt::Formatter<W>) -> fmt::Result {
        f.write_str(match self {
            NfgKind::Header => "header",
            NfgKind::Players => "players",
            NfgKind::Strategies => "strategies",
            NfgKind::Outcome => "outcome",
            NfgKind::PayoffCount => "payoff count",
            NfgKind::Trailing => "trailing",
        })
    }
}

/// A fault in a file of a table: its kind, and the byte offset from 0 of the token named, or the
/// source's length where the tokens end too early.
#[derive(Clone, Copy, Debug, PartialEq, Eq)]
pub struct NfgFault {
    /// The offset.
    pub at: usize,
    /// The kind.
    pub kind: NfgKind,
}

/// Why a table was not read.
#[derive(Clone, Copy, Debug, PartialEq, Eq)]
pub enum NfgStop {
    /// The tokens are no file of a table.
    Fault(NfgFault),
    /// There would be more than 1,048,576 payoffs.
    TooLarge(TooLarge),
    /// Memory ran out.
    Memory,
}

impl From<AllocError> for NfgStop {
    ghost use Rattle.std.specs.Prelude.{◌≡◌};
    ghost use Rattle.nfg_reader.specs.declared.reading.NfgStop.TheVariants.{Memory};

    ghost from_gives = { λ _ e. e ≡ Memory };

    fn from(_error: AllocError) -> NfgStop {
        NfgStop::Memory
    }
}

// The stop that a part's becomes.
fn stop(stopped: PartStop<NfgKind>, tokens: &Tokens) -> NfgStop
    ensures { IsNfgStop stopped tokens.now result }
{
    match stopped {
        PartStop::Unexpected(fault) => NfgStop::Fault(NfgFault {
            at: offset(tokens, fault.left),
            kind: fault.kind,
        }),
        PartStop::Memory => NfgStop::Memory,
    }
}

// The table with these parts.
fn table(alloc: Global, front: Front, payoffs: Vec<Frac>) -> Result<Table, AllocError>
    requires { IsTable (table_of (front_of front) payoffs.items) }
    ensures { IfOk result (λ t. t ≡ table_of (front_of front) payoffs.items) }
{
    let Front {
        title,
        players,
        strategies,
    } = front;
    let strategies = strategy_names(alloc, strategies)?;
    Ok(Table::new(title, players, strategies, payoffs))
}

/// Reads the table that the tokens stand for.
///
/// # Errors
///
/// `Fault` exactly where the tokens are no file of a table and their strategies do not ask for more
/// than 1,048,576 payoffs: its kind, and the offset of the first token with which no file can begin
/// any more, or the source's length where the tokens end too early. `TooLarge` exactly where the
/// strategies do ask for more. `Memory` where memory ran out.
pub fn read(alloc: Global, tokens: &Tokens) -> Result<Table, NfgStop>
    ensures { Gives Memory (table_in tokens.now) result }
{
    let (front, rest) = match read_front(alloc, tokens.list()) {
        Ok(read) => read,
        Err(stopped) => return Err(stop(stopped, tokens)),
    };
    let players = front.players.len();
    let Some(profiles) = profile_count_within_limit(alloc, players, &front.strategies)? else {
        return Err(NfgStop::TooLarge(TooLarge::first_above(What::Payoffs, MOST_PAYOFFS as u64)));
    };
    match last_payoffs(alloc, rest, players, profiles) {
        Ok(payoffs) => Ok(table(alloc, front, payoffs)?),
        Err(stopped) => Err(stop(stopped, tokens)),
    }
}

/// The tokens of a source have one answer at most, with the kind and the offset of a fault.
pub fn tables_are_single()
    ensures { (tokens : TokenList) → IsSingle (table_in tokens) }
{}

/// The tokens of a source have an answer.
pub fn tables_are_answered()
    ensures { (tokens : TokenList) → IsAnswered (table_in tokens) }
{}

/// The tokens of a source have one fault at most; they have none where they are a file of a table,
/// and one where they are none.
pub fn faults_are_single()
    ensures one { (tokens : TokenList) (kind other : NfgKind) (at offset : ℕ)
        → IsFault tokens kind at → IsFault tokens other offset → (kind ≡ other) × (at ≡ offset) }
    ensures of_no_file { (tokens : TokenList) (kind : NfgKind) (at : ℕ) → IsFile (bare tokens.list)
        → IsFault tokens kind at → ⊥ }
    ensures of_others { (tokens : TokenList)
        → IsFile (bare tokens.list) ⊎ ((kind : NfgKind) × (at : ℕ) × IsFault tokens kind at) }
{}

/// The tokens of a file stand for one table at most.
pub fn files_have_one_table()
    ensures { (tokens : List token) (one other : GameTable) → IsTableFile tokens one
        → IsTableFile tokens other → one ≡ other }
{}

/// A table is read exactly where the tokens are a file of it.
pub fn files_are_read()
    ensures sound { (tokens : List token) (table : GameTable) → parse_table tokens ≡ Ok table
        → IsTableFile tokens table }
    ensures complete { (tokens : List token) (table : GameTable) → IsTableFile tokens table
        → parse_table tokens ≡ Ok table }
{}
