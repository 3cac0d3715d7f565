ghost use Rattle.std.specs.Prelude.{◌≡◌, ◌<◌, ◌≤◌, ◌*◌, ◌^◌, pos};
ghost use Rattle.qm_frac.specs.Lowest.{lowest};
ghost use Rattle.qm_text.specs.Decimals.{with_tens};
ghost use Rattle.qm_text.specs.DecimalSteps.{IsAnswer};

use crate::fault::NumberFault;
use crate::whole::plus;
use qm_frac::Frac;

/// The least number of more than 38 digits.
pub(crate) const TOO_LONG: u128 = 100_000_000_000_000_000_000_000_000_000_000_000_000;

/// The number with tens multiplied to it and divided out of it.
pub(crate) fn with_tens(n: u128, above: u128, below: u128) -> Result<Frac, NumberFault>
    requires { n < 10 ^ 38 }
    ensures { IsAnswer (with_tens n above below) result }
{
    if n == 0 {
        Ok(Frac::whole(0))
    } else if below <= above {
        multiplied(n, above - below)
    } else {
        divided(n, below - above)
    }
}

fn multiplied(n: u128, tens: u128) -> Result<Frac, NumberFault>
    requires { 0 < n }
    ensures { IsAnswer (with_tens n tens 0) result }
{
    if tens > 38 {
        return Err(NumberFault::Leaves);
    }
    let product = n.saturating_mul(10u128.pow(tens as u32));
    if product > i128::MAX as u128 {
        return Err(NumberFault::Leaves);
    }
    Ok(over(product, 1))
}

// Less than 10^38 is cancelled, so of 77 tens or more too much is left below. Up to 76 tens are divided out in two parts,
// since together they may have more than 128 bits.
fn divided(n: u128, tens: u128) -> Result<Frac, NumberFault>
    requires some { 0 < n }
    requires few { n < 10 ^ 38 }
    ensures { IsAnswer (with_tens n 0 tens) result }
{
    if tens > 76 {
        return Err(NumberFault::Leaves);
    }
    if tens <= 38 {
        return Ok(over(n, 10u128.pow(tens as u32)));
    }
    match over(n, TOO_LONG).div(over(10u128.pow(tens as u32 - 38), 1)) {
        Ok(fraction) => Ok(fraction),
        Err(_) => Err(NumberFault::Leaves),
    }
}

// The fraction in lowest terms, which fits.
fn over(num: u128, den: u128) -> Frac
    requires num { num < 2 ^ 127 }
    requires some { 0 < den }
    requires den { den < 2 ^ 127 }
    ensures { result ≡ lowest (pos num) den }
{
    match Frac::of(plus(num), plus(den)) {
        Some(fraction) => fraction,
        None => Frac::whole(0),
    }
}
