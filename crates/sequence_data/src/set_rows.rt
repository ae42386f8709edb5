// The rows of a player's plans: one for the whole game, and one for each set.
ghost use Rattle.std.specs.Prelude.{◌≡◌, ◌<◌, ◌≤◌, length};
ghost use Rattle.sequence_data.specs.Data.{IsSideData, side_of};
ghost use Rattle.sequence_forms.specs.Matrices.{set_row};
ghost use Rattle.sequence_forms.specs.Sides.{first, sequences};

use crate::form::Side;
use crate::types::SetRow;
use frac128::Frac;

impl Side {
    /// The player's own set with a number, counted from 0.
    pub fn own_set(&self, place: usize) -> SetRow
        requires side { IsSideData self.now }
        requires place { place < length self.now.sets }
        ensures before { result.before ≡ (side_of self.now).before place }
        ensures first { result.first ≡ first (side_of self.now) place }
        ensures count { result.count ≡ (side_of self.now).count place }
    {
        self.sets()[place]
    }

    /// The entry at a sequence of the row of the whole game (0), which says that the empty sequence
    /// has weight 1, or of set `row - 1`, which says that the weights after its actions less the
    /// weight before it are 0.
    pub fn set_entry(&self, row: usize, sequence: usize) -> Frac
        requires side { IsSideData self.now }
        requires row { row ≤ length self.now.sets }
        requires sequence { sequence < sequences (side_of self.now) }
        ensures { result ≡ set_row (side_of self.now) row sequence }
    {
        if row == 0 {
            if sequence == 0 {
                return Frac::one();
            }
            return Frac::zero();
        }
        let set = self.own_set(row - 1);
        let first = set.first as usize;
        if first <= sequence {
            if sequence < first + set.count as usize {
                return Frac::one();
            }
            return Frac::zero();
        }
        if sequence == set.before as usize {
            return Frac::one().neg();
        }
        Frac::zero()
    }
}
