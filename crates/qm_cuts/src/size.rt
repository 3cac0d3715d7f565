ghost use Rattle.std.specs.Prelude.{◌≡◌, ◌≤◌, ◌*◌, ◌+◌, ◌^◌, SomeIff, nat_le, unsigned_abs};
ghost use Rattle.qm_math.specs.Ranges.{reach};
ghost use Rattle.qm_model.specs.Sizes.{reach_in_vars, row_size};

use qm_model::{Row, Var};

/// The greatest size: 2^126.
const MOST: u128 = 1 << 126;

/// How far the variable of a number reaches; 1 where there is none.
fn reach(vars: &[Var], var: u32) -> u128
    ensures { result ≡ reach_in_vars vars.now var }
{
    let at = var as usize;
    if at < vars.len() {
        reach_of(&vars[at])
    } else {
        1
    }
}

fn reach_of(x: &Var) -> u128
    ensures { result ≡ reach x.now.low x.now.high }
{
    let farther = x.low.unsigned_abs().max(x.high.unsigned_abs());
    u128::from(farther.max(1))
}

fn limited(n: u128) -> Option<u128>
    ensures { SomeIff result (n ≤ 2 ^ 126) n }
{
    if n <= MOST { Some(n) } else { None }
}

/// A size with that of one term more, unless it exceeds 2^126.
fn size_with(size: u128, coef: i128, reach: u128) -> Option<u128>
    ensures { SomeIff result (size + unsigned_abs coef * reach ≤ 2 ^ 126) (size + unsigned_abs coef * reach) }
{
    let product = coef.unsigned_abs().checked_mul(reach)?;
    let sum = size.checked_add(product)?;
    limited(sum)
}

/// Whether the size of a row is at most 2^126.
pub(crate) fn has_size(vars: &[Var], row: &Row) -> bool
    ensures { result ≡ nat_le (row_size (reach_in_vars vars.now) row.now) (2 ^ 126) }
{
    let mut size = row.right.unsigned_abs();
    for term in row.terms.as_slice() {
        match size_with(size, term.coef, reach(vars, term.var)) {
            Some(more) => size = more,
            None => return false,
        }
    }
    size <= MOST
}
