use qm_frac::Leaves;
use qm_io::Memory;

/// Why there is no cut.
#[derive(Debug, Drop)]
pub enum CutFault {
    /// An entry names a row, an earlier cut or a variable that isn't there.
    Missing,
    /// The first operation of the evaluation that leaves.
    Leaves(Leaves),
    /// The first variable whose combined coefficient isn't whole, or isn't 0 though the variable is continuous.
    Broken(u32),
    /// The size of the row is above 2^126.
    Wide,
    Memory,
}

impl From<Memory> for CutFault {
    ghost use Rattle.std.specs.Prelude.{◌≡◌};
    ghost use Rattle.qm_cuts.specs.declared.fault.CutFault.TheVariants as fault;

    ghost from_gives = { λ _ e. e ≡ fault.Memory };

    fn from(_: Memory) -> Self {
        CutFault::Memory
    }
}

impl From<Leaves> for CutFault {
    ghost use Rattle.std.specs.Prelude.{◌≡◌};
    ghost use Rattle.qm_cuts.specs.declared.fault.CutFault.TheVariants as fault;

    ghost from_gives = { λ leaves e. e ≡ fault.Leaves leaves };

    fn from(leaves: Leaves) -> Self {
        CutFault::Leaves(leaves)
    }
}
