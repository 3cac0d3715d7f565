ghost use Rattle.std.specs.Prelude.{◌≡◌, ◌≢◌, ◌+◌, ◌^◌, ◌<◌, ◌≤◌, OnOk, length, slice_get, unsigned_abs, pos};
ghost use Rattle.std.specs.Option.{ForSome};
ghost use Rattle.qm_model.specs.Boxes.{IsBox, IsInside};
ghost use Rattle.qm_model.specs.Sound.{IsRowOver};
ghost use Rattle.qm_prop.specs.Narrower.{slack_of};
ghost use Rattle.qm_prop.specs.Courses.{by_row, by_term, by_term_in, followed, reason_in};

use crate::Reason;
use crate::narrower::narrower;
use qm_game::{Bx, Range, Row, RowId, Term, Var, narrow};
use qm_io::{List, Memory};

/// A box, and the reasons that led to it.
#[derive(Debug, Drop)]
pub(crate) struct Course {
    pub bx: Bx,
    pub reasons: List<Reason>,
}

/// Narrows the variable's range, and keeps the reason.
fn follow(course: &mut Course, reason: Reason) -> Result<(), Memory>
    requires var { reason.var < length course.old.bx }
    requires inside { ForSome (slice_get course.old.bx reason.var) (IsInside reason.after) }
    ensures { OnOk result (course.new ≡ followed course.old reason) }
{
    course.reasons.push(reason)?;
    narrow(&mut course.bx, reason.var, reason.after);
    Ok(())
}

/// The narrowing of the term's variable by its row, of this slack, where it narrows it.
fn reason_in(vars: &[Var], id: RowId, slack: u128, bx: &[Range], term: Term) -> Option<Reason>
    requires var { term.var < length vars.now }
    requires range { term.var < length bx.now }
    requires some { term.coef ≢ pos 0 }
    requires fits { slack + unsigned_abs term.coef < 2 ^ 128 }
    ensures { result ≡ reason_in vars.now id slack bx.now term }
{
    let before = bx[term.var as usize];
    let whole = vars[term.var as usize].whole;
    let after = narrower(whole, term.coef, slack, before)?;
    Some(Reason {
        var: term.var,
        row: id,
        before,
        after,
    })
}

/// Narrows the term's variable as far as its row, of this slack, does.
fn narrow_by_term(
    vars: &[Var],
    id: RowId,
    slack: u128,
    term: Term,
    course: &mut Course,
) -> Result<(), Memory>
    requires var { term.var < length vars.now }
    requires range { term.var < length course.old.bx }
    requires some { term.coef ≢ pos 0 }
    requires fits { slack + unsigned_abs term.coef < 2 ^ 128 }
    ensures { OnOk result (course.new ≡ by_term_in vars.now id slack course.old term) }
{
    match reason_in(vars, id, slack, course.bx.as_slice(), term) {
        None => Ok(()),
        Some(reason) => follow(course, reason),
    }
}

/// Narrows each variable of the row, which isn't dead, in game order.
pub(crate) fn narrow_by_row(
    vars: &[Var],
    id: RowId,
    row: &Row,
    slack: u128,
    course: &mut Course,
) -> Result<(), Memory>
    requires bx { IsBox vars.now course.old.bx }
    requires row { IsRowOver vars.now row.now }
    requires slack { slack ≡ slack_of row.now course.old.bx }
    requires fits { slack ≤ 2 ^ 126 }
    ensures course { OnOk result (course.new ≡ by_row vars.now id row.now course.old) }
    ensures bx { OnOk result (IsBox vars.now course.new.bx) }
{
    for term in row.terms.as_slice() {
        narrow_by_term(vars, id, slack, *term, course)?;
    }
    Ok(())
}
