ghost use Rattle.std.specs.Prelude.{◌≡◌, ◌*◌, ◌-◌, ◌<◌, ◌^◌, ◌++◌, ◌∷◌, [], IfOk, OnOk, length, map, unsigned_abs};
ghost use Rattle.qm_math.specs.Fraction.{whole};
ghost use Rattle.qm_tableau.specs.Tables.{rows_of};

use crate::rows::Rows;
use crate::sizes::small;
use qm_frac::{Frac, over_one};
use qm_io::Memory;
use std::alloc::Global;
use std::marker::Model;

/// Entries of a first tableau, which are whole: in 64 bits as long as all are small, and from then on as
/// fractions. Contracts see the fractions.
#[derive(Debug, Drop)]
pub struct Entries {
    is_small: bool,
    wholes: Vec<i64>,
    fractions: Vec<Frac>,
}

impl Model for Entries {
    ghost use Rattle.std.specs.Prelude.{List, All};
    ghost use Rattle.qm_math.specs.Fraction.{Fraction};
    ghost use Rattle.qm_tableau.specs.Wholes.{IsSmall};
    ghost use Rattle.qm_tableau.specs.StoredSteps.{kept_entries};

    ghost Value = { List Fraction };

    ghost view = { λ e. kept_entries e.is_small e.wholes.items e.fractions.items };

    ghost invariant = { λ e. All IsSmall e.wholes.items };
}

impl Entries {
    /// No entries yet, and room for so many.
    pub fn new(alloc: Global, count: usize) -> Result<Entries, Memory>
        ensures { IfOk result (λ entries. entries ≡ []) }
    {
        let wholes = Vec::with_capacity(alloc, count)?;
        Ok(Entries {
            is_small: true,
            wholes,
            fractions: Vec::new(alloc),
        })
    }

    /// Puts an entry last.
    pub fn push(&mut self, number: i128) -> Result<(), Memory>
        requires { unsigned_abs number < 2 ^ 127 }
        ensures { OnOk result (self.new ≡ self.old ++ whole number ∷ []) }
    {
        if !self.is_small {
            self.fractions.push(over_one(number))?;
            return Ok(());
        }
        match small(number) {
            Some(small) => {
                self.wholes.push(small)?;
                Ok(())
            }
            None => {
                self.fractions.clear();
                push_wholes(self.wholes.as_slice(), &mut self.fractions)?;
                self.fractions.push(over_one(number))?;
                self.is_small = false;
                Ok(())
            }
        }
    }

    /// The entries cut into rows.
    pub fn into_rows(self, alloc: Global, width: usize, height: usize) -> Result<Rows, Memory>
        requires count { length self ≡ height * width }
        requires narrow { width < 2 ^ 32 - 1 }
        requires few { height < 2 ^ 32 }
        ensures { IfOk result (λ r. r ≡ record { width = width; rows = rows_of width height self }) }
    {
        let Entries {
            is_small,
            wholes,
            fractions,
        } = self;
        if is_small {
            Rows::whole(alloc, wholes, width, height)
        } else {
            Rows::fractions(alloc, fractions, width, height)
        }
    }
}

/// Puts whole numbers as fractions at the end.
fn push_wholes(numbers: &[i64], out: &mut Vec<Frac>) -> Result<(), Memory>
    ensures { OnOk result (out.new.items ≡ out.old.items ++ map whole numbers.now) }
{
    for number in numbers {
        out.push(Frac::whole(*number))?;
    }
    Ok(())
}
