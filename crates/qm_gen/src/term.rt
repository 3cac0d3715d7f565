ghost use Rattle.std.specs.Prelude.{◌≡◌};
ghost use Rattle.qm_gen.specs.Generated.{is_universal};

/// A multiple of the variable of this number.
#[derive(Clone, Copy)]
pub(crate) struct Term {
    pub(crate) factor: u32,
    pub(crate) variable: u32,
}

/// Every third variable is universal.
pub(crate) fn is_universal(variable: u32) -> bool
    ensures { result ≡ is_universal variable }
{
    variable % 3 == 0
}
