ghost use Rattle.std.specs.Prelude.{◌≡◌, [], ◌∷◌, IfOk, OnOk};
ghost use Rattle.qm_parse.specs.Checks.{bound_uses, is_before, row_uses, term_use, term_uses, uses};
ghost use Rattle.qm_parse.specs.Marks.{IsMarksOf};
ghost use Rattle.qm_parse.specs.SurveySteps.{Adds, IsSurveyOf, earlier_of};

use crate::ast::{Ast, AstBound, AstRow, AstTerm, Named};
use crate::marks::Marks;
use qm_io::Memory;
use qm_lex::Place;
use std::alloc::Global;

/// What is known of the variables of a text by the places that were walked over so far.
#[derive(Drop)]
pub(crate) struct Survey {
    /// The numbers of their names.
    pub used: Marks,
    /// The first place in the text of one that isn't in ORDER.
    pub unordered: Option<Named>,
}

impl Survey {
    /// The survey of a text, with the marks of its ORDER.
    pub fn of(alloc: Global, order: &Marks, ast: &Ast) -> Result<Survey, Memory>
        requires { IsMarksOf ast.now.order order.now }
        ensures { IfOk result (IsSurveyOf ast.now) }
    {
        let mut survey = Survey {
            used: Marks::new(alloc),
            unordered: None,
        };
        survey.all(order, ast)?;
        Ok(survey)
    }

    /// Takes all places of variables in.
    fn all(&mut self, order: &Marks, ast: &Ast) -> Result<(), Memory>
        ensures { OnOk result (Adds order.now (uses ast.now) self.old self.new) }
    {
        self.terms(order, ast.objective.as_slice())?;
        self.rows(order, ast.rows.as_slice())?;
        self.rows(order, ast.uncertain.as_slice())?;
        self.bounds(order, ast.bounds.as_slice())?;
        self.names(order, ast.generals.as_slice())?;
        self.names(order, ast.binaries.as_slice())?;
        self.names(order, ast.existential.as_slice())?;
        self.names(order, ast.universal.as_slice())?;
        Ok(())
    }

    /// Takes one place in.
    fn place(&mut self, order: &Marks, named: Named) -> Result<(), Memory>
        ensures { OnOk result (Adds order.now (named ∷ []) self.old self.new) }
    {
        self.used.mark(named.name)?;
        if !order.has(named.name) {
            self.unordered = Some(earlier(self.unordered, named));
        }
        Ok(())
    }

    /// Takes the places of a list of names in.
    fn names(&mut self, order: &Marks, list: &[Named]) -> Result<(), Memory>
        ensures { OnOk result (Adds order.now list.now self.old self.new) }
    {
        for named in list {
            self.place(order, *named)?;
        }
        Ok(())
    }

    fn term(&mut self, order: &Marks, term: &AstTerm) -> Result<(), Memory>
        ensures { OnOk result (Adds order.now (term_use term.now) self.old self.new) }
    {
        if let Some(name) = term.name {
            self.place(order, Named { name, at: term.at })?;
        }
        Ok(())
    }

    /// Takes the variables of terms in.
    fn terms(&mut self, order: &Marks, terms: &[AstTerm]) -> Result<(), Memory>
        ensures { OnOk result (Adds order.now (term_uses terms.now) self.old self.new) }
    {
        for term in terms {
            self.term(order, term)?;
        }
        Ok(())
    }

    /// Takes the variables of rows in.
    fn rows(&mut self, order: &Marks, rows: &[AstRow]) -> Result<(), Memory>
        ensures { OnOk result (Adds order.now (row_uses rows.now) self.old self.new) }
    {
        for row in rows {
            self.terms(order, row.terms.as_slice())?;
        }
        Ok(())
    }

    /// Takes the names of bounds in.
    fn bounds(&mut self, order: &Marks, bounds: &[AstBound]) -> Result<(), Memory>
        ensures { OnOk result (Adds order.now (bound_uses bounds.now) self.old self.new) }
    {
        for bound in bounds {
            let named = Named {
                name: bound.name,
                at: bound.at,
            };
            self.place(order, named)?;
        }
        Ok(())
    }
}

/// The earlier one of a place, where there is one, and another; the first where none is.
#[tactic(auto, unfolding(crate::specs::SurveySteps::earlier_of, crate::specs::Checks::earlier))]
fn earlier(first: Option<Named>, named: Named) -> Named
    ensures { Some result ≡ earlier_of first (Some named) }
{
    match first {
        Some(one) if !is_before(named.at, one.at) => one,
        _ => named,
    }
}

/// Whether one place stands before another.
fn is_before(one: Place, other: Place) -> bool
    ensures { result ≡ is_before one other }
{
    one.line < other.line || (one.line == other.line && one.column < other.column)
}
