// The kinds of faults in a file of a tree.
use frac128::{Frac, Unfit};
use std::fmt;

/// The kind of a fault in a file of a tree.
#[derive(Clone, Copy, Debug, PartialEq, Eq)]
pub enum EfgKind {
    /// One of the first four tokens: `EFG`, 2, `R` or `D`, and the title.
    Header,
    /// The list of players.
    Players,
    /// A token that a node does not allow where it stands.
    Node,
    /// A player's number that is 0 or above the number of players.
    UnknownPlayer,
    /// A first use of a set without actions, or later actions that differ from the first.
    SetMismatch,
    /// A probability that is negative or takes the sum above 1, or the end of a list whose sum is
    /// not 1.
    Probability {
        /// The number that the file gives the set.
        set: u64,
        /// The sum up to the number that is named.
        sum: Frac,
    },
    /// A probability that can't be added to the sum of those before it.
    ProbabilityRange {
        /// The number that the file gives the set.
        set: u64,
        /// The step that does not fit.
        unfit: Unfit,
    },
    /// A first use of an outcome without payoffs, payoffs for more or fewer players, or later
    /// payoffs that differ from the first.
    OutcomeMismatch,
    /// The tokens end inside the nodes.
    Unfinished,
    /// A token after the end.
    Trailing,
}

impl fmt::Display for EfgKind {
    ghost use Rattle.std.specs.Prelude.{Some};
    ghost use Rattle.tree_grammar.specs.Texts.{efg_kind_text};

    ghost output = { λ kind. Some (efg_kind_text kind) };

    fn fmt<W: fmt::Write>(&self, f: &mut fmt::Formatter<W>) -> fmt::Result {
        match self {
            EfgKind::Header => f.write_str("header"),
            EfgKind::Players => f.write_str("players"),
            EfgKind::Node => f.write_str("node"),
            EfgKind::UnknownPlayer => f.write_str("unknown player"),
            EfgKind::SetMismatch => f.write_str("set mismatch"),
            EfgKind::Probability { set, sum } => {
                write!(f, "probability of set {set} sums to {sum}")
            }
            EfgKind::ProbabilityRange { set, unfit } => {
                write!(f, "probability of set {set} out of range: {unfit}")
            }
            EfgKind::OutcomeMismatch => f.write_str("outcome mismatch"),
            EfgKind::Unfinished => f.write_str("unfinished"),
            EfgKind::Trailing => f.write_str("trailing"),
        }
    }
}
