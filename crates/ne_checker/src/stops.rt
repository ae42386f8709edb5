// Why lines are not checked.
ghost use Rattle.std.specs.Prelude.{◌≡◌};
ghost use Rattle.ne_checker.specs.LineChecks.{faulty, unread};

use answers::Memory;
use behaviour_profile::ProfileFault;
use frac128::Unfit;
use game_core::TooLarge;
use ne_printer::LineStop;

/// Why the lines of a text were not checked. Lines count from 1.
#[derive(Clone, Copy, Debug, PartialEq, Eq)]
pub enum CheckStop {
    /// A line does not have the entries of a profile.
    BadLine {
        /// The line's number.
        line: u64,
    },
    /// A step of arithmetic does not fit.
    Range {
        /// The line's number.
        line: u64,
        /// The step.
        unfit: Unfit,
    },
    /// The text would have more than 67,108,864 bytes.
    TooLarge(TooLarge),
    /// Memory ran out.
    Memory,
}

impl From<Memory> for CheckStop {
    ghost use Rattle.std.specs.Prelude.{◌≡◌};
    ghost use Rattle.ne_checker.specs.declared.stops.CheckStop.TheVariants as stops;

    ghost from_gives = { λ _ e. e ≡ stops.Memory };

    fn from(_memory: Memory) -> CheckStop {
        CheckStop::Memory
    }
}

/// Why the line with this number was not read.
pub(crate) fn unread(line: u64, stop: LineStop) -> CheckStop
    ensures { result ≡ unread line stop }
{
    match stop {
        LineStop::Bad => CheckStop::BadLine { line },
        LineStop::Memory => CheckStop::Memory,
    }
}

/// What is wrong with the entries on the line with this number.
pub(crate) fn faulty(line: u64, fault: ProfileFault) -> CheckStop
    ensures { result ≡ faulty line fault }
{
    match fault {
        ProfileFault::Unfit(unfit) => CheckStop::Range { line, unfit },
        ProfileFault::Count | ProfileFault::Negative { .. } | ProfileFault::Sum { .. } => {
            CheckStop::BadLine { line }
        }
    }
}
