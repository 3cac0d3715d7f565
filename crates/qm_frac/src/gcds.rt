ghost use Rattle.std.specs.Prelude.{◌≡◌, ◌<◌, ◌≤◌, ◌*◌, ◌%◌, ◌^◌, unsigned_abs};
ghost use Rattle.std.specs.Int.{w64, w128, trailing_zeros};
ghost use Rattle.qm_frac.specs.Gcd.{gcd_of};

/// The greatest number of 64 bits.
pub(crate) const NARROW: u128 = u64::MAX as u128;

/// The greatest common divisor, and 0 where both numbers are 0.
pub fn gcd(a: i128, b: i128) -> u128
    ensures { result ≡ gcd_of (unsigned_abs a) (unsigned_abs b) }
{
    common_divisor(a.unsigned_abs(), b.unsigned_abs())
}

/// The greatest common divisor of two magnitudes, in 64 bits where they have no more.
pub(crate) fn common_divisor(a: u128, b: u128) -> u128
    ensures value { result ≡ gcd_of a b }
    ensures some { 0 < b → 0 < result }
{
    if a <= NARROW && b <= NARROW {
        u128::from(narrow_divisor(a as u64, b as u64))
    } else {
        wide_divisor(a, b)
    }
}

// As long as both numbers have more than 64 bits by the differences of odd parts.
fn wide_divisor(a: u128, b: u128) -> u128
    ensures { result ≡ gcd_of a b }
{
    if b <= NARROW {
        return half_narrow_divisor(a, b);
    }
    if a <= NARROW {
        return half_narrow_divisor(b, a);
    }
    let twos = a.trailing_zeros().min(b.trailing_zeros());
    odd_wide_divisor(odd_wide_part(a), odd_wide_part(b)) << twos
}

// One remainder has 64 bits again.
fn half_narrow_divisor(a: u128, b: u128) -> u128
    requires { b < 2 ^ 64 }
    ensures { result ≡ gcd_of a b }
{
    if b == 0 {
        a
    } else {
        u128::from(narrow_divisor(b as u64, (a % b) as u64))
    }
}

fn odd_wide_divisor(a: u128, b: u128) -> u128
    requires left { a % 2 ≡ 1 }
    requires right { b % 2 ≡ 1 }
    ensures { result ≡ gcd_of a b }
{
    let mut x = a;
    let mut y = b;
    while x > NARROW && y > NARROW {
        if x == y {
            return x;
        }
        let apart = odd_wide_part(x.abs_diff(y));
        x = x.min(y);
        y = apart;
    }
    if y <= NARROW {
        half_narrow_divisor(x, y)
    } else {
        half_narrow_divisor(y, x)
    }
}

fn odd_wide_part(n: u128) -> u128
    requires { 0 < n }
    ensures odd { result % 2 ≡ 1 }
    ensures part { result * 2 ^ trailing_zeros w128 n ≡ n }
    ensures bound { result ≤ n }
{
    n >> n.trailing_zeros()
}

// What the odd parts have in common, times the lesser power of 2.
fn narrow_divisor(a: u64, b: u64) -> u64
    ensures { result ≡ gcd_of a b }
{
    if a == 0 {
        return b;
    }
    if b == 0 {
        return a;
    }
    let twos = a.trailing_zeros().min(b.trailing_zeros());
    odd_divisor(odd_part(a), odd_part(b)) << twos
}

// By differences and their odd parts (Stein 1967): a division takes longer than ten of these turns.
fn odd_divisor(a: u64, b: u64) -> u64
    requires left { a % 2 ≡ 1 }
    requires right { b % 2 ≡ 1 }
    ensures { result ≡ gcd_of a b }
{
    let mut x = a;
    let mut y = b;
    while x != y {
        let apart = odd_part(x.abs_diff(y));
        x = x.min(y);
        y = apart;
    }
    x
}

// The number without its factors 2.
fn odd_part(n: u64) -> u64
    requires { 0 < n }
    ensures odd { result % 2 ≡ 1 }
    ensures part { result * 2 ^ trailing_zeros w64 n ≡ n }
    ensures bound { result ≤ n }
{
    n >> n.trailing_zeros()
}
