// A sequence form.
ghost use Rattle.std.specs.Prelude.{◌≡◌, ◌<◌, length, All, IfOk};
ghost use Rattle.answers.specs.Answers.{Gives};
ghost use Rattle.sequence_data.specs.Data.{IsFormData, IsSideData, LeafFits, form_of_leaves};
ghost use Rattle.sequence_data.specs.declared.stop.SeqStop.TheVariants as stops;

use crate::cells::gather;
use crate::payoffs::{Extremes, extreme_payoffs};
use crate::stop::SeqStop;
use crate::types::{Cell, Leaf, SetRow};
use frac128::Frac;
use std::alloc::{AllocError, Global};
use std::marker::Model;

/// A player's sequences: the empty one, numbered 0, and then, own set by own set, one for each
/// action.
#[derive(Debug, Drop)]
pub struct Side {
    sequences: u32,
    sets: Vec<SetRow>,
}

impl Model for Side {
    ghost use Rattle.sequence_data.specs.Data.{SideData};
    ghost use Rattle.sequence_data.specs.FormCodes.{code_of_side};

    ghost Value = { SideData };

    ghost coded = { code_of_side };

    ghost view = { λ s. record { sequences = s.sequences; sets = s.sets.items } };
}

impl Side {
    /// The side with so many sequences and these sets.
    pub fn new(sequences: u32, sets: Vec<SetRow>) -> Side
        ensures { result ≡ record { sequences = sequences; sets = sets.items } }
    {
        Side { sequences, sets }
    }

    /// How many sequences there are.
    pub fn sequences(&self) -> u32
        ensures { result ≡ self.now.sequences }
    {
        self.sequences
    }

    /// The player's own sets in order.
    pub fn sets(&self) -> &[SetRow]
        ensures { result.now ≡ self.now.sets }
    {
        self.sets.as_slice()
    }

    /// A side of its own with the same sequences and sets.
    ///
    /// # Errors
    ///
    /// Memory ran out.
    pub fn copied(&self, alloc: Global) -> Result<Side, AllocError>
        ensures { IfOk result (λ copy. copy ≡ self.now) }
    {
        let sets = Vec::from_slice(alloc, self.sets())?;
        Ok(Side::new(self.sequences, sets))
    }
}

/// The sequence form of a game with two players. Each set has an action, and comes after a sequence
/// with a smaller number than its own; the sequences from 1 on belong to the sets in order. There
/// is a leaf, no chance is negative, and the cells and the extreme payoffs are those of the leaves.
#[derive(Debug, Drop)]
pub struct SeqForm {
    first: Side,
    second: Side,
    leaves: Vec<Leaf>,
    cells: Vec<Cell>,
    extremes: Extremes,
}

impl Model for SeqForm {
    ghost use Rattle.sequence_data.specs.Data.{FormData, IsFormData};
    ghost use Rattle.sequence_data.specs.FormCodes.{code_of_form};

    ghost Value = { FormData };

    ghost coded = { code_of_form };

    ghost view = { λ f. record {
      first = f.first;
      second = f.second;
      leaves = f.leaves.items;
      cells = f.cells.items;
      greatest_one = f.extremes.greatest_one;
      greatest_two = f.extremes.greatest_two;
      least_one = f.extremes.least_one;
    } };

    ghost invariant = { λ f. IsFormData
        (record {
          first = f.first;
          second = f.second;
          leaves = f.leaves.items;
          cells = f.cells.items;
          greatest_one = f.extremes.greatest_one;
          greatest_two = f.extremes.greatest_two;
          least_one = f.extremes.least_one;
        }) };
}

impl SeqForm {
    /// The form of these sides and leaves.
    ///
    /// # Errors
    ///
    /// `Range` exactly where a step does not fit: the first, leaves in order and in each the chance
    /// and then both payoffs. `Memory` where memory ran out.
    pub fn of_leaves(
        alloc: Global,
        first: Side,
        second: Side,
        leaves: Vec<Leaf>,
    ) -> Result<SeqForm, SeqStop>
        requires first { IsSideData first }
        requires second { IsSideData second }
        requires some_leaf { 0 < length leaves.items }
        requires leaves_fit { All (LeafFits first.sequences second.sequences) leaves.items }
        ensures { Gives stops.Memory (form_of_leaves first second leaves.items) result }
    {
        let cells = gather(alloc, &leaves, second.sequences)?;
        let extremes = extreme_payoffs(&leaves);
        Ok(SeqForm {
            first,
            second,
            leaves,
            cells,
            extremes,
        })
    }

    /// The side of the first player.
    pub fn first(&self) -> &Side
        ensures side { result.now ≡ self.now.first }
        ensures valid { IsFormData self.now }
    {
        &self.first
    }

    /// The side of the second player.
    pub fn second(&self) -> &Side
        ensures side { result.now ≡ self.now.second }
        ensures valid { IsFormData self.now }
    {
        &self.second
    }

    /// The leaves of the tree in order, or the profiles of the table.
    pub fn leaves(&self) -> &[Leaf]
        ensures leaves { result.now ≡ self.now.leaves }
        ensures valid { IsFormData self.now }
    {
        self.leaves.as_slice()
    }

    /// The cells, in ascending order of row and column.
    pub fn cells(&self) -> &[Cell]
        ensures cells { result.now ≡ self.now.cells }
        ensures valid { IsFormData self.now }
    {
        self.cells.as_slice()
    }

    /// The greatest payoff of the first player at a leaf.
    pub fn greatest_one(&self) -> Frac
        ensures { result ≡ self.now.greatest_one }
    {
        self.extremes.greatest_one
    }

    /// The greatest payoff of the second player at a leaf.
    pub fn greatest_two(&self) -> Frac
        ensures { result ≡ self.now.greatest_two }
    {
        self.extremes.greatest_two
    }

    /// The least payoff of the first player at a leaf.
    pub fn least_one(&self) -> Frac
        ensures { result ≡ self.now.least_one }
    {
        self.extremes.least_one
    }
}
