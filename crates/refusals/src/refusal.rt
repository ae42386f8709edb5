// Why a run is refused.
use crate::lines::{
    absent_line, efg_line, forgets_line, limit_line, nfg_line, players_line, profile_line,
    range_line, subgame_line, sums_line, text_line, twice_line,
};
use crate::site::Site;
use answers::Memory;
use efg_reader::EfgFault;
use frac128::Unfit;
use game_core::TooLarge;
use game_text::TextFault;
use nfg_reader::NfgFault;
use perfect_recall::Forgets;
use std::alloc::Global;
use thiserror::Error;
use words::Usage;
use zero_sum_lp::NotConstant;

/// Why a run is refused. The line on standard error is that of [`Refusal::line`]; the derived text
/// is for debugging.
#[derive(Debug, Drop, Error)]
pub enum Refusal {
    /// The words are refused.
    #[error("usage")]
    Usage(Usage),
    /// An input could not be opened.
    #[error("cannot open")]
    OpenFault,
    /// An input could not be read.
    #[error("read failed")]
    ReadFault,
    /// The text could not be written or flushed.
    #[error("write failed")]
    WriteFault,
    /// An input has more than 16,777,216 bytes.
    #[error("input too long")]
    TooLong,
    /// The bytes are no list of tokens: the first fault.
    #[error("text fault")]
    Text(TextFault),
    /// The tokens are no file of a table.
    #[error("nfg fault")]
    Nfg(NfgFault),
    /// The tokens are no file of a tree.
    #[error("efg fault")]
    Efg(EfgFault),
    /// The game has another number of players than two.
    #[error("not two players")]
    NotTwoPlayers {
        /// How many players there are.
        count: u32,
    },
    /// A player forgets: the first one, at that player's first such set, which is numbered as a
    /// file numbers it. Nodes and players are numbered from 0.
    #[error("a player forgets")]
    Forgets(Forgets),
    /// The payoffs do not sum to the same number at two leaves, which are nodes of a tree or
    /// profiles of a table, from 0.
    #[error("not constant sum")]
    NotConstant(NotConstant),
    /// A count passed its limit.
    #[error("too large")]
    TooLarge(TooLarge),
    /// A step of the arithmetic does not fit 128 bits.
    #[error("range")]
    Range {
        /// Where the step stands.
        site: Site,
        /// The step.
        unfit: Unfit,
    },
    /// A step of the arithmetic in the subgame that begins at a node does not fit 128 bits. Nodes
    /// count from 0; rows, columns and variables of the site are those of the cut at the node.
    #[error("range in a subgame")]
    SubgameRange {
        /// The node.
        node: u32,
        /// Where the step stands.
        site: Site,
        /// The step.
        unfit: Unfit,
    },
    /// A line is not one of a profile of the game. Lines count from 1.
    #[error("no profile")]
    BadLine {
        /// The line.
        line: u64,
    },
    /// The game has no player with this number, from 1.
    #[error("no such player")]
    NoSuchPlayer {
        /// The number.
        number: u32,
    },
    /// The row player, with this number from 1, is the column player too.
    #[error("one player twice")]
    SamePlayer {
        /// The number.
        number: u32,
    },
    /// Memory ran out.
    #[error("out of memory")]
    Memory,
}

impl Refusal {
    ghost use Rattle.std.specs.Prelude.{◌≡◌, IfOk, MatchOption, string_bytes};
    ghost use Rattle.refusals.specs.Refusals.{status_of, refusal_line, HasFormedLine};

    /// The status with which the program ends: 1 for the game, 2 for the words, 3 for an input, 4
    /// for the output, 5 for want of memory.
    pub fn status(&self) -> u8
        ensures { result ≡ status_of self.now }
    {
        match self {
            Refusal::Usage(_) => 2,
            Refusal::OpenFault | Refusal::ReadFault => 3,
            Refusal::WriteFault => 4,
            Refusal::TooLong
            | Refusal::Text(_)
            | Refusal::Nfg(_)
            | Refusal::Efg(_)
            | Refusal::NotTwoPlayers { .. }
            | Refusal::Forgets(_)
            | Refusal::NotConstant(_)
            | Refusal::TooLarge(_)
            | Refusal::Range { .. }
            | Refusal::SubgameRange { .. }
            | Refusal::BadLine { .. }
            | Refusal::NoSuchPlayer { .. }
            | Refusal::SamePlayer { .. } => 1,
            Refusal::Memory => 5,
        }
    }

    /// The line on standard error, with its line feed, where it is the same for each refusal of its
    /// kind. Takes no memory.
    pub fn fixed_line(&self) -> Option<&'static str>
        ensures { MatchOption result (HasFormedLine self.now)
            (λ line. line.now ≡ refusal_line self.now) }
    {
        match self {
            Refusal::Usage(Usage::NoTool) => Some("gambit: no tool\n"),
            Refusal::Usage(Usage::UnknownTool) => Some("gambit: unknown tool\n"),
            Refusal::Usage(Usage::Words) => Some("gambit: words not understood\n"),
            Refusal::OpenFault => Some("gambit: cannot open\n"),
            Refusal::ReadFault => Some("gambit: read failed\n"),
            Refusal::WriteFault => Some("gambit: write failed\n"),
            Refusal::TooLong => Some("gambit: file longer than 16777216 bytes\n"),
            Refusal::Memory => Some("gambit: out of memory\n"),
            Refusal::Text(_)
            | Refusal::Nfg(_)
            | Refusal::Efg(_)
            | Refusal::NotTwoPlayers { .. }
            | Refusal::Forgets(_)
            | Refusal::NotConstant(_)
            | Refusal::TooLarge(_)
            | Refusal::Range { .. }
            | Refusal::SubgameRange { .. }
            | Refusal::BadLine { .. }
            | Refusal::NoSuchPlayer { .. }
            | Refusal::SamePlayer { .. } => None,
        }
    }

    // The line of a refusal that tells more than its kind.
    fn formed_line(&self, alloc: Global) -> Result<String, Memory>
        requires { HasFormedLine self.now }
        ensures { IfOk result (λ line. string_bytes line ≡ refusal_line self.now) }
    {
        match self {
            Refusal::Text(fault) => text_line(alloc, *fault),
            Refusal::Nfg(fault) => nfg_line(alloc, *fault),
            Refusal::Efg(fault) => efg_line(alloc, *fault),
            Refusal::NotTwoPlayers { count } => players_line(alloc, *count),
            Refusal::Forgets(forgets) => forgets_line(alloc, *forgets),
            Refusal::NotConstant(sums) => sums_line(alloc, *sums),
            Refusal::TooLarge(passed) => limit_line(alloc, *passed),
            Refusal::Range { site, unfit } => range_line(alloc, site, *unfit),
            Refusal::SubgameRange { node, site, unfit } => {
                subgame_line(alloc, *node, site, *unfit)
            }
            Refusal::BadLine { line } => profile_line(alloc, *line),
            Refusal::NoSuchPlayer { number } => absent_line(alloc, *number),
            Refusal::SamePlayer { number } => twice_line(alloc, *number),
            Refusal::Usage(_)
            | Refusal::OpenFault
            | Refusal::ReadFault
            | Refusal::WriteFault
            | Refusal::TooLong
            | Refusal::Memory => unreachable!(),
        }
    }

    /// The line on standard error, with its line feed.
    ///
    /// # Errors
    ///
    /// Memory ran out.
    pub fn line(&self, alloc: Global) -> Result<String, Memory>
        ensures { IfOk result (λ line. string_bytes line ≡ refusal_line self.now) }
    {
        match self.fixed_line() {
            Some(line) => Ok(String::from_str(alloc, line)?),
            None => self.formed_line(alloc),
        }
    }
}
