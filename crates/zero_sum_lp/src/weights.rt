// Reads and writes of weights.
ghost use Rattle.std.specs.Prelude.{◌≡◌, ◌≢◌, ◌<◌, ℕ, length};
ghost use Rattle.rational.specs.Sum.{entry_at};

use frac128::Frac;

/// The weight of a sequence.
pub(crate) fn weight_at(weights: &[Frac], place: usize) -> Frac
    requires { place < length weights.now }
    ensures { result ≡ entry_at weights.now place }
{
    weights[place]
}

/// Gives a sequence a weight.
pub(crate) fn set_weight(weights: &mut [Frac], place: usize, value: Frac)
    requires { place < length weights.old }
    ensures length { length weights.new ≡ length weights.old }
    ensures here { entry_at weights.new place ≡ value }
    ensures others { (q : ℕ) → q ≢ place → entry_at weights.new q ≡ entry_at weights.old q }
{
    weights[place] = value;
}
