ghost use Rattle.std.specs.Prelude.{◌≡◌, ◌<◌, ◌^◌, ◌++◌, IfOk, IfSome, OnOk, length};
ghost use Rattle.qm_normal.specs.Answers.{Gives};
ghost use Rattle.qm_normal.specs.Normal.{rows_from};
ghost use Rattle.qm_normal.specs.PlaceSteps.{AreApart, IsPlacesOf};
ghost use Rattle.qm_normal.specs.Rows.{negated_row, normal_row, related};
ghost use Rattle.qm_normal.specs.RowSteps.{part_of, rows_in};
ghost use Rattle.qm_normal.specs.Variables.{game_order, vars_of};
ghost use Rattle.qm_normal.specs.RowSteps.{IsNarrowRow};

use crate::fault::{NormalFault, Which};
use crate::places::Places;
use crate::scaling::narrow_row;
use crate::totals::totals;
use qm_frac::Frac;
use qm_io::{List, Memory};
use qm_model::{Row, Sense, Term, Terms, Var};
use qm_parse::{Ast, AstRow, AstTerm, Named, Relation};
use smallvec::SmallVec;
use std::alloc::Global;

/// Which of a text's two sections of rows.
#[derive(Clone, Copy)]
pub(crate) enum Section {
    Rows,
    Uncertain,
}

/// The row of the terms and the right side, unless it is too wide.
fn normal_row(
    alloc: Global,
    vars: &[Var],
    order: &[Named],
    places: &Places,
    terms: &[AstTerm],
    right: Frac,
) -> Result<Option<Row>, Memory>
    requires places { IsPlacesOf order.now places.now }
    requires apart { AreApart order.now }
    requires few { length order.now < 2 ^ 32 }
    ensures row { IfOk result (λ found. found ≡ normal_row vars.now order.now terms.now right) }
    ensures narrow { IfOk result (λ found. IfSome found IsNarrowRow) }
{
    // Only the objective of MINIMIZE is negated.
    let Some(sums) = totals(alloc, order, places, Sense::Max, terms)? else {
        return Ok(None);
    };
    narrow_row(alloc, vars, &sums, right)
}

/// The row with all its numbers negated.
fn negated(alloc: Global, row: &Row) -> Result<Row, Memory>
    requires { IsNarrowRow row.now }
    ensures { IfOk result (λ other. other ≡ negated_row row.now) }
{
    let mut items = SmallVec::new(alloc);
    for term in row.terms.as_slice() {
        items.push(Term {
            var: term.var,
            coef: -term.coef,
        })?;
    }
    Ok(Row {
        terms: Terms::new(items),
        right: -row.right,
    })
}

/// Puts the rows at the end that say what the relation says of the row's two sides.
#[tactic(auto, unfolding(crate::specs::Rows::related))]
fn add_related(
    alloc: Global,
    relation: Relation,
    row: Row,
    list: &mut List<Row>,
) -> Result<(), Memory>
    requires { IsNarrowRow row }
    ensures { OnOk result (list.new ≡ list.old ++ related relation row) }
{
    match relation {
        Relation::Less => list.push(row),
        Relation::Greater => list.push(negated(alloc, &row)?),
        Relation::Equal => {
            let other = negated(alloc, &row)?;
            list.push(row)?;
            list.push(other)
        }
    }
}

#[tactic(auto, unfolding(crate::specs::RowSteps::part_of))]
fn part_of(section: Section, number: u32) -> Which
    ensures { result ≡ part_of section number }
{
    match section {
        Section::Rows => Which::Row(number),
        Section::Uncertain => Which::Uncertainty(number),
    }
}

#[tactic(auto, unfolding(crate::specs::RowSteps::rows_in))]
fn rows_in(section: Section, ast: &Ast) -> &[AstRow]
    ensures { result.now ≡ rows_in section ast.now }
{
    match section {
        Section::Rows => ast.rows.as_slice(),
        Section::Uncertain => ast.uncertain.as_slice(),
    }
}

/// The rows of a section. Each is brought to whole numbers; the first that is too wide is a fault.
pub(crate) fn rows_of_section(
    alloc: Global,
    section: Section,
    ast: &Ast,
    vars: &[Var],
    order: &[Named],
    places: &Places,
) -> Result<List<Row>, NormalFault>
    requires vars { vars.now ≡ vars_of ast.now }
    requires order { order.now ≡ game_order ast.now }
    requires places { IsPlacesOf order.now places.now }
    requires apart { AreApart order.now }
    requires few { length order.now < 2 ^ 32 }
    requires numbers { length (rows_in section ast.now) < 2 ^ 32 }
    ensures { Gives result (rows_from (part_of section) ast.now 0 (rows_in section ast.now)) }
{
    let mut list = List::new(alloc);
    for (before, row) in rows_in(section, ast).iter().enumerate() {
        let terms = row.terms.as_slice();
        match normal_row(alloc, vars, order, places, terms, row.right)? {
            Some(one) => add_related(alloc, row.relation, one, &mut list)?,
            None => return Err(NormalFault::Wide(part_of(section, before as u32))),
        }
    }
    Ok(list)
}
