// The four operations. Each gives the exact value, or the step itself where it does not fit.
ghost use Rattle.std.specs.Prelude.{◌≡◌, ◌≢◌, IfOk, IfErr, OnOk, OnErr};
ghost use Rattle.frac128.specs.Steps.{AddFits, SubFits, MulFits, DivFits, step_of};
ghost use Rattle.rational.specs.Rational.{zero_ℚ, inv_ℚ, ◌+ℚ◌, ◌-ℚ◌, ◌*ℚ◌};

use crate::Frac;
use std::fmt;

/// An operation on two fractions.
#[derive(Debug, Clone, Copy, PartialEq, Eq)]
pub enum Op {
    /// The sum.
    Add,
    /// The left operand less the right one.
    Sub,
    /// The product.
    Mul,
    /// The left operand divided by the right one.
    Div,
}

/// A step that does not fit: its operation and both operands.
#[derive(Debug, Clone, Copy, PartialEq, Eq)]
pub struct Unfit {
    /// The operation.
    pub op: Op,
    /// The left operand.
    pub left: Frac,
    /// The right operand.
    pub right: Frac,
}

impl fmt::Display for Op {
    ghost use Rattle.std.specs.Prelude.{Some};
    ghost use Rattle.frac128.specs.Texts.{op_text};

    ghost output = { λ op. Some (op_text op) };

    fn fmt<W: fmt::Write>(&self, f: &mut fmt::Formatter<W>) -> fmt::Result {
        f.write_str(match self {
            Op::Add => "add",
            Op::Sub => "sub",
            Op::Mul => "mul",
            Op::Div => "div",
        })
    }
}

impl fmt::Display for Unfit {
    ghost use Rattle.std.specs.Prelude.{Some};
    ghost use Rattle.frac128.specs.Texts.{step_text};

    ghost output = { λ step. Some (step_text step) };

    fn fmt<W: fmt::Write>(&self, f: &mut fmt::Formatter<W>) -> fmt::Result {
        let Unfit { op, left, right } = self;
        write!(f, "{op} {left} {right}")
    }
}

impl Frac {
    /// The sum.
    ///
    /// # Errors
    ///
    /// The step, where it does not fit: with g the greatest common divisor of the denominators,
    /// where one numerator times the other denominator over g, or the sum of the two products, or
    /// the denominator of the sum in lowest terms does not lie from -(2^127 - 1) to 2^127 - 1.
    pub fn add(self, other: Frac) -> Result<Frac, Unfit>
        ensures value { IfOk result (λ f. f ≡ self +ℚ other) }
        ensures fits { OnOk result (AddFits self other) }
        ensures step { IfErr result (λ e. e ≡ step_of Op.Add self other) }
        ensures unfit { OnErr result (¬ (AddFits self other)) }
    {
        self.sum(other).ok_or_else(|| Unfit {
            op: Op::Add,
            left: self,
            right: other,
        })
    }

    /// The difference.
    ///
    /// # Errors
    ///
    /// The step, where it does not fit, as for a sum.
    pub fn sub(self, other: Frac) -> Result<Frac, Unfit>
        ensures value { IfOk result (λ f. f ≡ self -ℚ other) }
        ensures fits { OnOk result (SubFits self other) }
        ensures step { IfErr result (λ e. e ≡ step_of Op.Sub self other) }
        ensures unfit { OnErr result (¬ (SubFits self other)) }
    {
        self.difference(other).ok_or_else(|| Unfit {
            op: Op::Sub,
            left: self,
            right: other,
        })
    }

    /// The product.
    ///
    /// # Errors
    ///
    /// The step, where a part of the product in lowest terms does not fit.
    pub fn mul(self, other: Frac) -> Result<Frac, Unfit>
        ensures value { IfOk result (λ f. f ≡ self *ℚ other) }
        ensures fits { OnOk result (MulFits self other) }
        ensures step { IfErr result (λ e. e ≡ step_of Op.Mul self other) }
        ensures unfit { OnErr result (¬ (MulFits self other)) }
    {
        self.product(other).ok_or_else(|| Unfit {
            op: Op::Mul,
            left: self,
            right: other,
        })
    }

    /// The quotient.
    ///
    /// # Errors
    ///
    /// The step, where a part of the quotient in lowest terms does not fit.
    pub fn div(self, other: Frac) -> Result<Frac, Unfit>
        requires { other ≢ zero_ℚ }
        ensures value { IfOk result (λ f. f ≡ self *ℚ inv_ℚ other) }
        ensures fits { OnOk result (DivFits self other) }
        ensures step { IfErr result (λ e. e ≡ step_of Op.Div self other) }
        ensures unfit { OnErr result (¬ (DivFits self other)) }
    {
        self.quotient(other).ok_or_else(|| Unfit {
            op: Op::Div,
            left: self,
            right: other,
        })
    }
}
