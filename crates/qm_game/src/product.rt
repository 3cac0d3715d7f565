ghost use Rattle.std.specs.Prelude.{◌≡◌, ◌*◌, ◌^◌, ◌<◌, ◌*ℤ◌, unsigned_abs};

/// The product, where it fits.
pub fn product(a: i128, b: i128) -> i128
    requires { unsigned_abs a * unsigned_abs b < 2 ^ 127 }
    ensures { result ≡ a *ℤ b }
{
    a * b
}
