ghost use Rattle.std.specs.Prelude.{◌≡◌, ◌<◌, ◌^◌, pos, ◌<ℤ◌, unsigned_abs, ◌↔◌, IsOk, IfOk, IfErr};
ghost use Rattle.std.specs.Option.{SomeIff};
ghost use Rattle.std.specs.Int.{int_div_euclid};
ghost use Rattle.qm_frac.specs.Lowest.{IsFrac, IsInRange, lowest_parts, lowest_terms};
ghost use Rattle.qm_frac.specs.Signs.{signed};
ghost use Rattle.qm_frac.specs.Arithmetic.{SumFits, sum, negated, difference, product, inverse, quotient};
ghost use Rattle.qm_math.specs.Rounding.{IsCeil, IsFloor, ceil_of, floor_of};
ghost use Rattle.qm_frac.specs.Order.{fraction_cmp};

use crate::leaves::{Leaves, Op};
use crate::numbers::{MOST, reduced, with_sign};
use crate::orders::order_of;
use crate::products::crossed;
use crate::sums::total;
use std::cmp::Ordering;
use std::marker::Model;

/// A fraction in lowest terms. Its numerator is within plus or minus 2^127 - 1, its denominator from 1
/// to 2^127 - 1.
#[derive(Clone, Copy, Debug, PartialEq, Eq)]
pub struct Frac {
    num: i128,
    den: i128,
}

impl Model for Frac {
    ghost use Rattle.std.specs.Prelude.{◌<ℤ◌, pos, unsigned_abs};
    ghost use Rattle.std.proofs.Common.{ap};
    ghost use Rattle.qm_math.specs.Fraction.{Fraction};
    ghost use Rattle.qm_frac.specs.Lowest.{IsFrac};
    ghost use Rattle.qm_frac.specs.Signs.{pos_abs};

    ghost Value = { Fraction };

    ghost view = { λ f. record { num = f.num; den = unsigned_abs f.den } };

    ghost invariant = { λ f. (pos 0 <ℤ f.den) × IsFrac (record { num = f.num; den = unsigned_abs f.den }) };

    ghost inverse = { λ r. record { num = r.num; den = pos r.den } };

    ghost inverse_ok = { λ f h. ap (λ d. record { num = f.num; den = d }) (pos_abs f.den h.0) };
}

impl Frac {
    ghost use Rattle.qm_frac.specs.Checked.{added, subtracted, multiplied, divided};

    /// The lowest terms of num / den over a positive denominator, unless they leave the range.
    pub fn of(num: i128, den: i128) -> Option<Frac>
        requires { 0 < unsigned_abs den }
        ensures { SomeIff result (IsInRange (lowest_terms num den)) (lowest_terms num den) }
    {
        lowest_of(
            (num < 0) != (den < 0),
            num.unsigned_abs(),
            den.unsigned_abs(),
        )
    }

    /// The whole number as a fraction.
    pub fn whole(n: i64) -> Frac
        ensures { result ≡ record { num = n; den = 1 } }
    {
        Frac {
            num: i128::from(n),
            den: 1,
        }
    }

    /// The numerator in lowest terms over a positive denominator.
    pub fn num(self) -> i128
        ensures num { result ≡ self.num }
        ensures terms { IsFrac self }
    {
        self.num
    }

    /// The denominator, which is positive.
    pub fn den(self) -> i128
        ensures den { result ≡ pos self.den }
        ensures terms { IsFrac self }
    {
        self.den
    }

    /// The fraction of the other sign.
    pub fn neg(self) -> Frac
        ensures { result ≡ negated self }
    {
        Frac {
            num: -self.num,
            den: self.den,
        }
    }

    /// The exact sum. Leaves where the least common denominator, one of the two numerators over it or
    /// their sum, which isn't reduced first, leaves the range.
    pub fn add(self, other: Frac) -> Result<Frac, Leaves>
        ensures answer { result ≡ added self other }
        ensures exact { IfOk result (λ r. r ≡ sum self other) }
        ensures fits { IsOk result ↔ SumFits self other }
        ensures named { IfErr result (λ e. e ≡ record { op = Op.Add; left = self; right = other }) }
    {
        match total(self, other) {
            Some(sum) => Ok(sum),
            None => Err(Leaves {
                op: Op::Add,
                left: self,
                right: other,
            }),
        }
    }

    /// The exact difference. Leaves where adding the negated `other` leaves.
    pub fn sub(self, other: Frac) -> Result<Frac, Leaves>
        ensures answer { result ≡ subtracted self other }
        ensures exact { IfOk result (λ r. r ≡ difference self other) }
        ensures fits { IsOk result ↔ SumFits self (negated other) }
        ensures named { IfErr result (λ e. e ≡ record { op = Op.Sub; left = self; right = other }) }
    {
        match total(self, other.neg()) {
            Some(difference) => Ok(difference),
            None => Err(Leaves {
                op: Op::Sub,
                left: self,
                right: other,
            }),
        }
    }

    /// The exact product. Leaves where its lowest terms leave the range.
    pub fn mul(self, other: Frac) -> Result<Frac, Leaves>
        ensures answer { result ≡ multiplied self other }
        ensures exact { IfOk result (λ r. r ≡ product self other) }
        ensures fits { IsOk result ↔ IsInRange (product self other) }
        ensures named { IfErr result (λ e. e ≡ record { op = Op.Mul; left = self; right = other }) }
    {
        match crossed(self, other) {
            Some(product) => Ok(product),
            None => Err(Leaves {
                op: Op::Mul,
                left: self,
                right: other,
            }),
        }
    }

    /// The exact quotient. Leaves where its lowest terms leave the range.
    pub fn div(self, other: Frac) -> Result<Frac, Leaves>
        requires { 0 < unsigned_abs other.num }
        ensures answer { result ≡ divided self other }
        ensures exact { IfOk result (λ r. r ≡ quotient self other) }
        ensures fits { IsOk result ↔ IsInRange (quotient self other) }
        ensures named { IfErr result (λ e. e ≡ record { op = Op.Div; left = self; right = other }) }
    {
        match crossed(self, other.inverse()) {
            Some(quotient) => Ok(quotient),
            None => Err(Leaves {
                op: Op::Div,
                left: self,
                right: other,
            }),
        }
    }

    /// The order of the two values.
    pub fn cmp(self, other: Frac) -> Ordering
        ensures { result ≡ fraction_cmp self other }
    {
        let (left_num, left_den) = self.parts();
        let (right_num, right_den) = other.parts();
        order_of(left_num, left_den, right_num, right_den)
    }

    /// The greatest whole number that isn't above.
    pub fn floor(self) -> i128
        ensures value { result ≡ floor_of self }
        ensures floor { IsFloor result self }
    {
        floor_of_parts(self.num(), self.den())
    }

    /// The least whole number that isn't below.
    pub fn ceil(self) -> i128
        ensures value { result ≡ ceil_of self }
        ensures ceil { IsCeil result self }
    {
        -floor_of_parts(-self.num(), self.den())
    }

    // 1 over the fraction.
    fn inverse(self) -> Frac
        requires { 0 < unsigned_abs self.num }
        ensures { result ≡ inverse self }
    {
        let (num, den) = self.parts();
        made(num < 0, den, num.unsigned_abs())
    }

    /// The numerator, and the denominator as a magnitude.
    pub(crate) fn parts(self) -> (i128, u128)
        ensures num { result.0 ≡ self.num }
        ensures den { result.1 ≡ self.den }
        ensures terms { IsFrac self }
    {
        (self.num, self.den as u128)
    }
}

/// The whole number as a fraction.
pub fn over_one(num: i128) -> Frac
    requires { unsigned_abs num < 2 ^ 127 }
    ensures { result ≡ record { num = num; den = 1 } }
{
    Frac { num, den: 1 }
}

/// A sign and two magnitudes that are in lowest terms and in range.
pub(crate) fn made(minus: bool, num: u128, den: u128) -> Frac
    requires { IsFrac (record { num = signed minus num; den = den }) }
    ensures { result ≡ record { num = signed minus num; den = den } }
{
    Frac {
        num: with_sign(minus, num),
        den: den as i128,
    }
}

/// The lowest terms of a sign and two magnitudes, where they are in range.
pub(crate) fn lowest_of(minus: bool, n: u128, d: u128) -> Option<Frac>
    requires { 0 < d }
    ensures { SomeIff result (IsInRange (lowest_parts minus n d)) (lowest_parts minus n d) }
{
    let (n, d) = reduced(n, d);
    if n > MOST || d > MOST {
        return None;
    }
    Some(made(minus, n, d))
}

// The greatest whole number that isn't above num / den.
fn floor_of_parts(num: i128, den: i128) -> i128
    requires den { pos 0 <ℤ den }
    requires num { unsigned_abs num < 2 ^ 127 }
    ensures value { result ≡ int_div_euclid num den }
    ensures bound { unsigned_abs result < 2 ^ 127 }
{
    if den == 1 { num } else { num.div_euclid(den) }
}
