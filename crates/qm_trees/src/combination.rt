use qm_frac::Frac;
use qm_io::{List, Memory};
use qm_model::RowId;
use std::alloc::Global;
use std::marker::Model;

/// A row and its multiplier.
#[derive(Clone, Copy, Debug, PartialEq, Eq)]
pub struct Entry {
    pub row: RowId,
    pub by: Frac,
}

/// What a combination comes to over a box.
#[derive(Clone, Copy, Debug, PartialEq, Eq)]
pub enum ComboValue {
    /// Without the objective, and the rows may be met.
    Nothing,
    /// Without the objective: no point of the box meets the rows.
    Void,
    /// With the objective: no point of the box that meets the rows has a greater one.
    Bound(Frac),
}

/// Multipliers above 0 on rows, in the order of the rows and none named twice, with the objective or without.
/// Contracts see it as its flag and its entries.
#[derive(Debug, Drop)]
pub struct Combo {
    objective: bool,
    entries: List<Entry>,
}

impl Model for Combo {
    ghost use Rattle.qm_trees.specs.Entries.{Combination, AreWellFormed};

    ghost Value = { Combination };

    ghost view = { λ c. record { objective = c.objective; entries = c.entries } };

    ghost invariant = { λ c. AreWellFormed c.entries };
}

impl Combo {
    ghost use Rattle.std.specs.Prelude.{◌≡◌, [], ◌∷◌, ◌++◌, OnOk, OnErr};
    ghost use Rattle.qm_trees.specs.Entries.{AreEntries, AreWellFormed};

    /// A combination without entries.
    pub fn new(alloc: Global, objective: bool) -> Combo
        ensures { result ≡ record { objective = objective; entries = [] } }
    {
        Combo {
            objective,
            entries: List::new(alloc),
        }
    }

    /// The combination of these entries.
    pub fn of(objective: bool, entries: List<Entry>) -> Combo
        requires { AreWellFormed entries }
        ensures { result ≡ record { objective = objective; entries = entries } }
    {
        Combo { objective, entries }
    }

    /// Puts an entry last, which is the place of its row. `Memory` leaves the combination as it was.
    pub fn push(&mut self, entry: Entry) -> Result<(), Memory>
        requires { AreEntries (self.old.entries ++ entry ∷ []) }
        ensures ok { OnOk result (self.new ≡ record self.old { entries = self.old.entries ++ entry ∷ [] }) }
        ensures err { OnErr result (self.new ≡ self.old) }
    {
        // that it is a fraction of the program
        let _terms = entry.by.den();
        self.entries.push(entry)
    }

    /// Whether the objective is in the combination.
    pub fn objective(&self) -> bool
        ensures { result ≡ self.now.objective }
    {
        self.objective
    }

    pub fn entries(&self) -> &[Entry]
        ensures value { result.now ≡ self.now.entries }
        ensures well_formed { AreWellFormed result.now }
    {
        self.entries.as_slice()
    }
}
