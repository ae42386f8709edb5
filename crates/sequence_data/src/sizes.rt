// The sizes of sequence forms.
ghost use Rattle.std.specs.Prelude.{◌≡◌};
ghost use Rattle.sequence_data.specs.Data.{IsSideData, side_of};
ghost use Rattle.sequence_data.specs.Sizes.{AreFew, problem_rows, program_size, sizes_of};

use crate::form::Side;

/// The sizes of a sequence form: of both players the numbers of sequences, the empty one included,
/// and of own sets.
#[derive(Clone, Copy, Debug, PartialEq, Eq)]
pub struct Counts {
    /// The sequences of the first player.
    pub sequences_one: u64,
    /// The sequences of the second player.
    pub sequences_two: u64,
    /// The sets of the first player.
    pub sets_one: u64,
    /// The sets of the second player.
    pub sets_two: u64,
}

/// The sizes of the form of two sides.
pub fn side_counts(first: &Side, second: &Side) -> Counts
    requires first_side { IsSideData first.now }
    requires second_side { IsSideData second.now }
    ensures sizes { result ≡ sizes_of (side_of first.now) (side_of second.now) }
    ensures few { AreFew result }
{
    Counts {
        sequences_one: first.sequences() as u64,
        sequences_two: second.sequences() as u64,
        sets_one: first.sets().len() as u64,
        sets_two: second.sets().len() as u64,
    }
}

/// How many rows the complementarity problem of a form of these sizes has.
pub fn rows(form: &Counts) -> u64
    requires { AreFew form.now }
    ensures { result ≡ problem_rows form.now }
{
    form.sequences_one + form.sequences_two + 2 * (form.sets_one + 1) + 2 * (form.sets_two + 1)
}

/// The size of the linear program of a form of these sizes: its rows and columns together.
pub fn program_size(form: &Counts) -> u64
    requires { AreFew form.now }
    ensures { result ≡ program_size form.now }
{
    (form.sets_one + 1) + form.sequences_two + form.sequences_one + (form.sets_two + 1)
}
