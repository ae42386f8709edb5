// Both players' plans.
use frac128::Frac;
use std::marker::Model;

/// Both players' plans: a weight for each sequence.
#[derive(Debug, Drop)]
pub struct Plans {
    one: Vec<Frac>,
    two: Vec<Frac>,
}

impl Model for Plans {
    ghost use Rattle.sequence_data.specs.PlanPairs.{PlanPair, code_of_plans};

    ghost Value = { PlanPair };

    ghost coded = { code_of_plans };

    ghost view = { λ p. record { one = p.one.items; two = p.two.items } };
}

impl Plans {
    ghost use Rattle.std.specs.Prelude.{◌≡◌};

    /// The plans with these weights of the first player's and of the second player's sequences.
    pub fn new(one: Vec<Frac>, two: Vec<Frac>) -> Plans
        ensures { result ≡ record { one = one.items; two = two.items } }
    {
        Plans { one, two }
    }

    /// The weights of the first player's sequences.
    pub fn one(&self) -> &[Frac]
        ensures { result.now ≡ self.now.one }
    {
        self.one.as_slice()
    }

    /// The weights of the second player's sequences.
    pub fn two(&self) -> &[Frac]
        ensures { result.now ≡ self.now.two }
    {
        self.two.as_slice()
    }
}
