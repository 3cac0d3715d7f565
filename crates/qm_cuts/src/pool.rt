use qm_io::{List, Memory};
use qm_model::Row;
use qm_trees::CutCombo;
use std::alloc::Global;
use std::marker::Model;

/// Cuts in their order, each with what it is made of. Contracts see the list of these pairs.
#[derive(Debug, Drop)]
pub struct CutPool {
    combos: List<CutCombo>,
    rows: List<Row>,
}

impl Model for CutPool {
    ghost use Rattle.std.specs.Prelude.{◌≡◌, List, length};
    ghost use Rattle.qm_trees.specs.CutRules.{Derived};
    ghost use Rattle.qm_cuts.specs.Pools.{derived_of};

    ghost Value = { List Derived };

    ghost view = { λ p. derived_of p.combos p.rows };

    ghost invariant = { λ p. length p.combos ≡ length p.rows };
}

impl CutPool {
    ghost use Rattle.std.specs.Prelude.{◌≡◌, ◌∷◌, ◌++◌, [], OnErr, OnOk, length};
    ghost use Rattle.qm_cuts.specs.Pools.{combos_of, rows_of};

    /// A pool without cuts.
    pub fn new(alloc: Global) -> CutPool
        ensures { result ≡ [] }
    {
        CutPool {
            combos: List::new(alloc),
            rows: List::new(alloc),
        }
    }

    /// How many cuts there are.
    pub fn len(&self) -> usize
        ensures { result ≡ length self.now }
    {
        self.rows.len()
    }

    /// The cuts, in their order.
    pub fn rows(&self) -> &[Row]
        ensures { result.now ≡ rows_of self.now }
    {
        self.rows.as_slice()
    }

    /// What each of them is made of.
    pub fn combos(&self) -> &[CutCombo]
        ensures { result.now ≡ combos_of self.now }
    {
        self.combos.as_slice()
    }

    /// Puts a cut last. `Memory` leaves the pool as it was.
    pub(crate) fn push(&mut self, combo: CutCombo, row: Row) -> Result<(), Memory>
        ensures ok { OnOk result (self.new ≡ self.old ++ record { entries = combo; row = row } ∷ []) }
        ensures err { OnErr result (self.new ≡ self.old) }
    {
        self.combos.push(combo)?;
        match self.rows.push(row) {
            Ok(()) => Ok(()),
            Err(memory) => {
                self.combos.pop();
                Err(memory)
            }
        }
    }
}
