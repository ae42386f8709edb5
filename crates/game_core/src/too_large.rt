// Counts and their limits.
ghost use Rattle.std.specs.Prelude.{◌≡◌, ◌+◌, ◌<◌, ◌^◌};
ghost use Rattle.game_core.specs.Limits.{first_above, within};

use std::fmt;

/// The most rows of a complementarity problem, and the most rows and columns of a linear program
/// together.
pub const MOST_ROWS: u64 = 512;

/// What is counted against a limit.
#[derive(Clone, Copy, Debug, PartialEq, Eq)]
pub enum What {
    /// Payoffs of a table or of a reduced form, or values of choices.
    Payoffs,
    /// Choices of a reduced form: strategies times own information sets, added over the players.
    Choices,
    /// Nodes of a tree.
    Nodes,
    /// Edges from a tree's root to a node.
    Depth,
    /// Strategies of both players together.
    Labels,
    /// Reached bases of a polytope.
    Bases,
    /// Pairs of vertices that make an equilibrium.
    Pairs,
    /// Rows of a complementarity problem, or rows and columns of a linear program.
    Rows,
    /// Bytes of the text that is written.
    Text,
}

impl fmt::Display for What {
    ghost use Rattle.std.specs.Prelude.{Some};
    ghost use Rattle.game_core.specs.Texts.{what_text};

    ghost output = { λ what. Some (what_text what) };

    fn fmt<W: fmt::Write>(&self, f: &mut fmt::Formatter<W>) -> fmt::Result {
        f.write_str(match self {
            What::Payoffs => "payoffs",
            What::Choices => "choices",
            What::Nodes => "nodes",
            What::Depth => "depth",
            What::Labels => "labels",
            What::Bases => "bases",
            What::Pairs => "pairs",
            What::Rows => "rows",
            What::Text => "bytes of text",
        })
    }
}

/// A count that passed its limit.
#[derive(Clone, Copy, Debug, PartialEq, Eq)]
pub struct TooLarge {
    /// What was counted.
    pub what: What,
    /// The count, or the first number above the limit where counting stops there.
    pub count: u64,
    /// The limit.
    pub limit: u64,
}

impl TooLarge {
    /// Refuses a count above its limit. Takes no memory.
    ///
    /// # Errors
    ///
    /// The count, exactly where it is above the limit.
    pub fn within(what: What, limit: u64, count: u64) -> Result<(), TooLarge>
        ensures { within what limit count result }
    {
        if count > limit {
            return Err(TooLarge { what, count, limit });
        }
        Ok(())
    }

    /// What is told where counting stops at the first number above a limit.
    pub fn first_above(what: What, limit: u64) -> TooLarge
        requires some_above { limit + 1 < 2 ^ 64 }
        ensures { result ≡ first_above what limit }
    {
        TooLarge {
            what,
            count: limit + 1,
            limit,
        }
    }
}
