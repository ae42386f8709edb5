// Where a step of the arithmetic stands.
ghost use Rattle.std.specs.Prelude.{◌≡◌, ◌+◌};

use basis_enum::Basis;
use std::fmt;

/// Where a step of the arithmetic stands. Profiles, choices, nodes, players, sequences, rows,
/// polytopes and levels are numbered from 0, variables and the steps of a path from 1. Sequence 0
/// is the empty one.
#[derive(Debug, Drop)]
pub enum Site {
    /// In the payoff of a player at a profile of a reduced form.
    Cell {
        /// The profile.
        profile: u32,
        /// The player.
        player: u32,
    },
    /// In the value of a node for a player under a choice of one action at each player's set.
    Choice {
        /// The choice.
        choice: u32,
        /// The node.
        node: u32,
        /// The player.
        player: u32,
    },
    /// In a sequence form.
    Place {
        /// The node, or the profile.
        place: u32,
    },
    /// In the sum of both players' payoffs at a leaf.
    Sum {
        /// The node, or the profile.
        place: u32,
    },
    /// In what a cell of a sequence form pays player one above the least payoff.
    Gain {
        /// The sequence of player one.
        row: u32,
        /// The sequence of player two.
        column: u32,
    },
    /// In what a cell of a sequence form costs a player below the player's greatest payoff.
    Cost {
        /// The player.
        player: u32,
        /// The sequence of player one.
        row: u32,
        /// The sequence of player two.
        column: u32,
    },
    /// In the start of a path.
    Start {
        /// The row.
        row: u32,
    },
    /// In a pivot of a path.
    Step {
        /// The pivot's number, from 1.
        step: u64,
        /// The entering variable.
        entering: u32,
    },
    /// In a player's plan.
    Plan {
        /// The player.
        player: u32,
    },
    /// In a player's behaviour at a set.
    Behaviour {
        /// The player.
        player: u32,
        /// The number that a file gives the set.
        set: u64,
    },
    /// In the value of a game.
    Value,
    /// In what a subgame is worth to a player.
    PlayerValue {
        /// The player.
        player: u32,
    },
    /// In the shift of a player's payoffs.
    Shift {
        /// The player.
        player: u32,
        /// The profile.
        profile: u32,
    },
    /// In the start of the enumeration of a polytope.
    PolytopeStart {
        /// The polytope.
        polytope: u32,
        /// The row.
        row: u32,
    },
    /// In a pivot from a level of the enumeration of a polytope.
    Level {
        /// The polytope.
        polytope: u32,
        /// The level.
        level: u32,
        /// The basis from which the pivot goes.
        basis: Basis,
        /// The entering variable.
        entering: u32,
    },
    /// In the scaling of a vertex of a polytope.
    Scaling {
        /// The polytope.
        polytope: u32,
    },
    /// In the profile on a line, or in its check.
    Line {
        /// The line, from 1.
        line: u64,
    },
}

/// A number from 1 on, for one from 0 on.
pub(crate) fn from_one(number: u32) -> u64
    ensures { result ≡ number + 1 }
{
    number as u64 + 1
}

impl fmt::Display for Site {
    ghost use Rattle.std.specs.Prelude.{Some};
    ghost use Rattle.refusals.specs.Refusals.{site_text};

    ghost output = { λ site. Some (site_text site) };

    fn fmt<W: fmt::Write>(&self, f: &mut fmt::Formatter<W>) -> fmt::Result {
        match self {
            Site::Cell { profile, player } => {
                let profile = from_one(*profile);
                let player = from_one(*player);
                write!(f, "profile {profile} player {player}")
            }
            Site::Choice {
                choice,
                node,
                player,
            } => {
                let choice = from_one(*choice);
                let node = from_one(*node);
                let player = from_one(*player);
                write!(f, "choice {choice} node {node} player {player}")
            }
            Site::Place { place } => write!(f, "place {}", from_one(*place)),
            Site::Sum { place } => write!(f, "sum {}", from_one(*place)),
            Site::Gain { row, column } => write!(f, "gain row {row} column {column}"),
            Site::Cost {
                player,
                row,
                column,
            } => {
                let player = from_one(*player);
                write!(f, "cost player {player} row {row} column {column}")
            }
            Site::Start { row } => write!(f, "path start row {}", from_one(*row)),
            Site::Step { step, entering } => write!(f, "path step {step} entering {entering}"),
            Site::Plan { player } => write!(f, "plan player {}", from_one(*player)),
            Site::Behaviour { player, set } => {
                let player = from_one(*player);
                write!(f, "behaviour player {player} set {set}")
            }
            Site::Value => f.write_str("value"),
            Site::PlayerValue { player } => write!(f, "value of player {}", from_one(*player)),
            Site::Shift { player, profile } => {
                let player = from_one(*player);
                let profile = from_one(*profile);
                write!(f, "shift player {player} profile {profile}")
            }
            Site::PolytopeStart { polytope, row } => {
                let polytope = from_one(*polytope);
                let row = from_one(*row);
                write!(f, "polytope {polytope} start row {row}")
            }
            Site::Level {
                polytope,
                level,
                basis,
                entering,
            } => {
                let polytope = from_one(*polytope);
                write!(
                    f,
                    "polytope {polytope} level {level} basis{basis} entering {entering}"
                )
            }
            Site::Scaling { polytope } => write!(f, "scale polytope {}", from_one(*polytope)),
            Site::Line { line } => write!(f, "line {line}"),
        }
    }
}
