use qm_io::Memory;
use smallvec::SmallVec;
use std::alloc::Global;
use std::default::MadeWith;
use std::marker::Model;

/// One variable, by its number from 0, and its coefficient.
#[derive(Clone, Copy, Debug, PartialEq, Eq)]
pub struct Term {
    pub var: u32,
    pub coef: i128,
}

impl Term {
    ghost use Rattle.std.specs.Prelude.{◌≡◌};

    pub fn new(var: u32, coef: i128) -> Term
        ensures { result ≡ record { var = var; coef = coef } }
    {
        Term { var, coef }
    }
}

impl MadeWith<Global> for Term {
    fn made_with(_alloc: Global) -> Term {
        Term { var: 0, coef: 0 }
    }
}

/// Terms in game order: at most one for each variable, and none with the coefficient 0.
/// Contracts see them as their list.
#[derive(Debug, Drop)]
pub struct Terms {
    items: SmallVec<Term, 8>,
}

impl Model for Terms {
    ghost use Rattle.std.specs.Prelude.{List};
    ghost use Rattle.qm_model.specs.declared.row.Term.{Term};
    ghost use Rattle.qm_model.specs.Linear.{IsOrdered};

    ghost Value = { List Term };

    ghost view = { λ t. t.items.items };

    ghost invariant = { λ t. IsOrdered t.items.items };
}

impl Terms {
    ghost use Rattle.std.specs.Prelude.{◌≡◌, [], IfOk};
    ghost use Rattle.qm_model.specs.Linear.{IsOrdered};

    /// These terms, which stand in game order already.
    pub fn new(items: SmallVec<Term, 8>) -> Terms
        requires { IsOrdered items.items }
        ensures { result ≡ items.items }
    {
        Terms { items }
    }

    /// No terms.
    pub fn none(alloc: Global) -> Terms
        ensures { result ≡ [] }
    {
        Terms::new(SmallVec::new(alloc))
    }

    /// A copy of these terms, which stand in game order already. `Memory`, where there is none for them.
    pub fn of(alloc: Global, items: &[Term]) -> Result<Terms, Memory>
        requires { IsOrdered items.now }
        ensures { IfOk result (λ terms. terms ≡ items.now) }
    {
        Ok(Terms::new(SmallVec::from_slice(alloc, items)?))
    }

    pub fn as_slice(&self) -> &[Term]
        ensures items { result.now ≡ self.now }
        ensures ordered { IsOrdered result.now }
    {
        self.items.as_slice()
    }
}

/// The sum of the terms is to be at most `right`.
#[derive(Debug, Drop)]
pub struct Row {
    pub terms: Terms,
    pub right: i128,
}

impl Row {
    ghost use Rattle.std.specs.Prelude.{◌≡◌, IfOk};
    ghost use Rattle.qm_model.specs.Linear.{IsOrdered};

    /// The row of a copy of these terms, which stand in game order already. `Memory`, where there is none for them.
    pub fn of(alloc: Global, items: &[Term], right: i128) -> Result<Row, Memory>
        requires { IsOrdered items.now }
        ensures { IfOk result (λ row. row ≡ record { terms = items.now; right = right }) }
    {
        Ok(Row {
            terms: Terms::of(alloc, items)?,
            right,
        })
    }
}
