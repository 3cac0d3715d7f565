use qm_frac::Frac;
use qm_io::List;
use std::marker::Model;

/// What an entry of a cut stands on, by its number from 0 among its kind.
#[derive(Clone, Copy, Debug)]
pub enum CutRow {
    Row(u32),
    Uncertain(u32),
    /// An earlier cut.
    Cut(u32),
    /// The low end of a variable's own bounds.
    Low(u32),
    /// The high end of them.
    High(u32),
}

/// A row or a bound, and its multiplier.
#[derive(Clone, Copy, Debug)]
pub struct CutEntry {
    pub on: CutRow,
    pub by: Frac,
}

/// What a cut is made of: one entry or more with multipliers above 0, in the order of what they stand on, nothing named
/// twice. Contracts see it as its entries.
#[derive(Debug, Drop)]
pub struct CutCombo {
    entries: List<CutEntry>,
}

impl Model for CutCombo {
    ghost use Rattle.std.specs.Prelude.{List};
    ghost use Rattle.qm_trees.specs.declared.cut_combo.CutEntry.{CutEntry};
    ghost use Rattle.qm_trees.specs.CutEntries.{AreCutEntries};

    ghost Value = { List CutEntry };

    ghost view = { λ c. c.entries };

    ghost invariant = { λ c. AreCutEntries c.entries };
}

impl CutCombo {
    ghost use Rattle.std.specs.Prelude.{◌≡◌};
    ghost use Rattle.qm_trees.specs.CutEntries.{AreCutEntries};

    /// The combination of these entries.
    pub fn of(entries: List<CutEntry>) -> CutCombo
        requires { AreCutEntries entries }
        ensures { result ≡ entries }
    {
        CutCombo { entries }
    }

    pub fn entries(&self) -> &[CutEntry]
        ensures value { result.now ≡ self.now }
        ensures in_order { AreCutEntries result.now }
    {
        self.entries.as_slice()
    }
}
