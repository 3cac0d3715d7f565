ghost use Rattle.std.specs.Prelude.{◌≡◌, OnOk, [], false};
ghost use Rattle.qm_parse.specs.Drafts.{row_of, signed, with_bound, with_bounded, with_coef, with_constant, with_free, with_listed, with_multiple, with_multiple_term, with_name, with_objective, with_relation, with_row, with_row_at, with_sense, with_single, with_single_term, with_term, with_turned, with_value};
ghost use Rattle.qm_parse.specs.Reading.{empty_ast, empty_draft};

use crate::ast::{Ast, AstBound, AstRow, AstTerm, Named, Relation};
use crate::names::Names;
use crate::signs::{signed_by, turned, value_by};
use crate::stage::NameList;
use qm_frac::Frac;
use qm_io::{List, Memory};
use qm_lex::Place;
use qm_model::Sense;
use std::alloc::Global;
use std::mem;

/// What was read so far: whole terms, rows, bounds and names, and the parts of the one that has begun.
#[derive(Drop)]
pub(crate) struct Draft {
    pub ast: Ast,
    /// The terms of the row that has begun.
    pub terms: List<AstTerm>,
    /// Where that row begins.
    pub row_at: Place,
    /// Whether the signs read last negate.
    pub negative: bool,
    /// The number of a term, with its signs.
    pub coef: Frac,
    /// The place of that number, or of the name of a bound.
    pub at: Place,
    /// The value that begins a bound.
    pub value: Option<Frac>,
    pub relation: Relation,
    /// The name of a bound.
    pub name: u32,
}

/// The tree of a text that says nothing.
#[tactic(auto, unfolding(crate::specs::Reading::empty_ast))]
fn empty_ast(alloc: Global, names: Names) -> Ast
    ensures { result ≡ empty_ast names }
{
    Ast {
        sense: Sense::Max,
        objective: List::new(alloc),
        rows: List::new(alloc),
        uncertain: List::new(alloc),
        bounds: List::new(alloc),
        generals: List::new(alloc),
        binaries: List::new(alloc),
        existential: List::new(alloc),
        universal: List::new(alloc),
        order: List::new(alloc),
        names,
    }
}

impl Draft {
    /// The draft of nothing, over these names.
    #[tactic(auto, unfolding(crate::specs::Reading::empty_draft))]
    pub fn new(alloc: Global, names: Names) -> Draft
        ensures { result ≡ empty_draft names }
    {
        let start = Place { line: 1, column: 1 };
        Draft {
            ast: empty_ast(alloc, names),
            terms: List::new(alloc),
            row_at: start,
            negative: false,
            coef: Frac::whole(1),
            at: start,
            value: None,
            relation: Relation::Less,
            name: 0,
        }
    }

    /// Takes the sense of the objective.
    #[tactic(auto, unfolding(crate::specs::Drafts::with_sense))]
    pub fn set_sense(&mut self, sense: Sense)
        ensures { self.new ≡ with_sense sense self.old }
    {
        self.ast.sense = sense;
    }

    /// Takes a sign, of which a minus turns what the signs before it say.
    #[tactic(auto, unfolding(crate::specs::Drafts::signed))]
    pub fn sign(&mut self, minus: bool)
        ensures { self.new ≡ signed minus self.old }
    {
        if minus {
            self.negative = !self.negative;
        }
    }

    /// Takes the number of a term, with the signs before it.
    #[tactic(auto, unfolding(crate::specs::Drafts::with_coef))]
    pub fn set_coef(&mut self, value: Frac, at: Place)
        ensures { self.new ≡ with_coef value at self.old }
    {
        self.coef = signed_by(self.negative, value);
        self.at = at;
        self.negative = false;
    }

    /// Takes a term of the objective. `Memory`, where there is none for it.
    #[tactic(auto, unfolding(crate::specs::Drafts::with_objective))]
    fn push_objective(&mut self, term: AstTerm) -> Result<(), Memory>
        ensures { OnOk result (self.new ≡ with_objective term self.old) }
    {
        self.ast.objective.push(term)?;
        self.negative = false;
        Ok(())
    }

    /// Takes the number that was read as a constant of the objective. `Memory`, where there is none for it.
    #[tactic(auto, unfolding(crate::specs::Drafts::with_constant))]
    pub fn push_constant(&mut self) -> Result<(), Memory>
        ensures { OnOk result (self.new ≡ with_constant self.old) }
    {
        self.push_objective(AstTerm {
            coef: self.coef,
            name: None,
            at: self.at,
        })
    }

    /// Takes the objective's term of a name without a number. `Memory`, where there is none for it.
    #[tactic(auto, unfolding(crate::specs::Drafts::with_single))]
    pub fn push_single(&mut self, name: u32, at: Place) -> Result<(), Memory>
        ensures { OnOk result (self.new ≡ with_single name at self.old) }
    {
        self.push_objective(AstTerm {
            coef: signed_by(self.negative, Frac::whole(1)),
            name: Some(name),
            at,
        })
    }

    /// Takes the objective's term of a name behind its number. `Memory`, where there is none for it.
    #[tactic(auto, unfolding(crate::specs::Drafts::with_multiple))]
    pub fn push_multiple(&mut self, name: u32, at: Place) -> Result<(), Memory>
        ensures { OnOk result (self.new ≡ with_multiple name at self.old) }
    {
        self.push_objective(AstTerm {
            coef: self.coef,
            name: Some(name),
            at,
        })
    }

    /// A row begins at this place.
    #[tactic(auto, unfolding(crate::specs::Drafts::with_row_at))]
    pub fn begin_row(&mut self, at: Place)
        ensures { self.new ≡ with_row_at at self.old }
    {
        self.row_at = at;
    }

    /// Takes a term of the row that has begun. `Memory`, where there is none for it.
    #[tactic(auto, unfolding(crate::specs::Drafts::with_term))]
    fn push_term(&mut self, term: AstTerm) -> Result<(), Memory>
        ensures { OnOk result (self.new ≡ with_term term self.old) }
    {
        self.terms.push(term)?;
        self.negative = false;
        Ok(())
    }

    /// Takes a row's term of a name without a number. `Memory`, where there is none for it.
    #[tactic(auto, unfolding(crate::specs::Drafts::with_single_term))]
    pub fn push_single_term(&mut self, name: u32, at: Place) -> Result<(), Memory>
        ensures { OnOk result (self.new ≡ with_single_term name at self.old) }
    {
        self.push_term(AstTerm {
            coef: signed_by(self.negative, Frac::whole(1)),
            name: Some(name),
            at,
        })
    }

    /// Takes a row's term of a name behind its number. `Memory`, where there is none for it.
    #[tactic(auto, unfolding(crate::specs::Drafts::with_multiple_term))]
    pub fn push_multiple_term(&mut self, name: u32, at: Place) -> Result<(), Memory>
        ensures { OnOk result (self.new ≡ with_multiple_term name at self.old) }
    {
        self.push_term(AstTerm {
            coef: self.coef,
            name: Some(name),
            at,
        })
    }

    /// Takes the relation of a row or a bound.
    #[tactic(auto, unfolding(crate::specs::Drafts::with_relation))]
    pub fn set_relation(&mut self, relation: Relation)
        ensures { self.new ≡ with_relation relation self.old }
    {
        self.relation = relation;
    }

    /// Hands out the row that has begun, with its right side; its terms are gone from the draft.
    #[tactic(auto, unfolding(crate::specs::Drafts::row_of))]
    fn take_row(&mut self, alloc: Global, right: Frac) -> AstRow
        ensures row { result ≡ row_of right self.old }
        ensures draft { self.new ≡ record self.old { terms = []; negative = false } }
    {
        let right = signed_by(self.negative, right);
        self.negative = false;
        AstRow {
            terms: mem::replace(&mut self.terms, List::new(alloc)),
            relation: self.relation,
            right,
            at: self.row_at,
        }
    }

    /// Ends the row with its right side, as one of the uncertainty rows where it is uncertain. `Memory`, where there is none for it.
    #[tactic(auto, unfolding(crate::specs::Drafts::with_row))]
    pub fn push_row(&mut self, alloc: Global, uncertain: bool, right: Frac) -> Result<(), Memory>
        ensures { OnOk result (self.new ≡ with_row uncertain right self.old) }
    {
        let row = self.take_row(alloc, right);
        if uncertain {
            self.ast.uncertain.push(row)
        } else {
            self.ast.rows.push(row)
        }
    }

    /// Takes the value that begins a bound, with the signs before it.
    #[tactic(auto, unfolding(crate::specs::Drafts::with_value))]
    pub fn set_value(&mut self, value: Option<Frac>)
        ensures { self.new ≡ with_value value self.old }
    {
        self.value = value_by(self.negative, value);
        self.negative = false;
    }

    /// Takes the name of a bound.
    #[tactic(auto, unfolding(crate::specs::Drafts::with_name))]
    pub fn set_name(&mut self, name: u32, at: Place)
        ensures { self.new ≡ with_name name at self.old }
    {
        self.name = name;
        self.at = at;
    }

    /// Takes one relation of a bound. `Memory`, where there is none for it.
    #[tactic(auto, unfolding(crate::specs::Drafts::with_bound))]
    fn push_bound(&mut self, bound: AstBound) -> Result<(), Memory>
        ensures { OnOk result (self.new ≡ with_bound bound self.old) }
    {
        self.ast.bounds.push(bound)?;
        self.negative = false;
        Ok(())
    }

    /// Takes the bound of the value before the name. `Memory`, where there is none for it.
    #[tactic(auto, unfolding(crate::specs::Drafts::with_turned))]
    pub fn push_turned(&mut self, name: u32, at: Place) -> Result<(), Memory>
        ensures { OnOk result (self.new ≡ with_turned name at self.old) }
    {
        let bound = AstBound {
            name,
            relation: turned(self.relation),
            value: self.value,
            at,
        };
        self.set_name(name, at);
        self.push_bound(bound)
    }

    /// Takes the bound of the value behind the name. `Memory`, where there is none for it.
    #[tactic(auto, unfolding(crate::specs::Drafts::with_bounded))]
    pub fn push_bounded(&mut self, value: Option<Frac>) -> Result<(), Memory>
        ensures { OnOk result (self.new ≡ with_bounded value self.old) }
    {
        self.push_bound(AstBound {
            name: self.name,
            relation: self.relation,
            value: value_by(self.negative, value),
            at: self.at,
        })
    }

    /// Takes the bound of a name that is FREE. `Memory`, where there is none for it.
    #[tactic(auto, unfolding(crate::specs::Drafts::with_free))]
    pub fn push_free(&mut self) -> Result<(), Memory>
        ensures { OnOk result (self.new ≡ with_free self.old) }
    {
        self.push_bound(AstBound {
            name: self.name,
            relation: Relation::Less,
            value: None,
            at: self.at,
        })
    }

    /// Takes a name of a list. `Memory`, where there is none for it.
    #[tactic(auto, unfolding(crate::specs::Drafts::with_listed, crate::specs::Drafts::listed))]
    pub fn push_listed(&mut self, list: NameList, name: u32, at: Place) -> Result<(), Memory>
        ensures { OnOk result (self.new ≡ with_listed list name at self.old) }
    {
        let named = Named { name, at };
        match list {
            NameList::Generals => self.ast.generals.push(named),
            NameList::Binaries => self.ast.binaries.push(named),
            NameList::Exists => self.ast.existential.push(named),
            NameList::All => self.ast.universal.push(named),
            NameList::Order => self.ast.order.push(named),
        }
    }
}
