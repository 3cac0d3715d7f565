ghost use Rattle.std.specs.Prelude.{◌≡◌, [], ◌∷◌, None, IfOk, OnOk, if◌then◌else◌};
ghost use Rattle.qm_math.specs.Fraction.{is_below};
ghost use Rattle.qm_normal.specs.Ends.{greater_of, lesser_of, sets_lower};
ghost use Rattle.qm_normal.specs.TableSteps.{IsEndsOf, Notes, lower_by, upper_by};
ghost use Rattle.qm_parse.specs.Checks.{sets_upper};

use crate::latest::Latest;
use crate::roles::Roles;
use qm_frac::Frac;
use qm_io::Memory;
use qm_parse::{Ast, AstBound, Relation};
use std::alloc::Global;
use std::cmp::Ordering;

/// The last lower and the last upper value that BOUNDS gives each name.
#[derive(Drop)]
pub(crate) struct Ends {
    lower: Latest,
    upper: Latest,
}

impl Ends {
    /// The values that a text gives its names.
    pub fn of(alloc: Global, ast: &Ast) -> Result<Ends, Memory>
        ensures { IfOk result (IsEndsOf ast.now) }
    {
        let mut ends = Ends {
            lower: Latest::new(alloc),
            upper: Latest::new(alloc),
        };
        ends.note_all(ast.bounds.as_slice())?;
        Ok(ends)
    }

    fn note_all(&mut self, bounds: &[AstBound]) -> Result<(), Memory>
        ensures { OnOk result (Notes bounds.now self.old self.new) }
    {
        for bound in bounds {
            self.note(bound)?;
        }
        Ok(())
    }

    /// Takes one bound in.
    fn note(&mut self, bound: &AstBound) -> Result<(), Memory>
        ensures { OnOk result (Notes (bound.now ∷ []) self.old self.new) }
    {
        let lower = given(sets_lower(bound.relation), bound.value);
        self.lower.note(bound.name, lower)?;
        let upper = given(sets_upper(bound.relation), bound.value);
        self.upper.note(bound.name, upper)?;
        Ok(())
    }

    /// The lower end of a variable, 0 where it has none. That of a binary is not below 0.
    pub fn lower_end(&self, roles: &Roles, name: u32) -> Frac
        ensures { result ≡ lower_by roles.now self.now name }
    {
        let zero = Frac::whole(0);
        let bound = self.lower.value(name).unwrap_or(zero);
        if roles.is_binary(name) {
            greater(zero, bound)
        } else {
            bound
        }
    }

    /// The upper end of a variable, 1 where it has none. That of a binary is not above 1.
    pub fn upper_end(&self, roles: &Roles, name: u32) -> Frac
        ensures { result ≡ upper_by roles.now self.now name }
    {
        let one = Frac::whole(1);
        let bound = self.upper.value(name).unwrap_or(one);
        if roles.is_binary(name) {
            lesser(one, bound)
        } else {
            bound
        }
    }
}

fn is_below(a: Frac, b: Frac) -> bool
    ensures { result ≡ is_below a b }
{
    a.cmp(b) == Ordering::Less
}

fn greater(a: Frac, b: Frac) -> Frac
    ensures { result ≡ greater_of a b }
{
    if is_below(a, b) { b } else { a }
}

fn lesser(a: Frac, b: Frac) -> Frac
    ensures { result ≡ lesser_of a b }
{
    if is_below(b, a) { b } else { a }
}

/// The value, where it is meant.
fn given(is_meant: bool, value: Option<Frac>) -> Option<Frac>
    ensures { result ≡ (if is_meant then value else None) }
{
    if is_meant { value } else { None }
}

#[tactic(auto, unfolding(crate::specs::Ends::sets_lower))]
fn sets_lower(relation: Relation) -> bool
    ensures { result ≡ sets_lower relation }
{
    match relation {
        Relation::Less => false,
        Relation::Greater | Relation::Equal => true,
    }
}

#[tactic(auto, unfolding(qm_parse::specs::Checks::sets_upper))]
fn sets_upper(relation: Relation) -> bool
    ensures { result ≡ sets_upper relation }
{
    match relation {
        Relation::Less | Relation::Equal => true,
        Relation::Greater => false,
    }
}
