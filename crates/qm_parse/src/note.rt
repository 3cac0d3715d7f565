ghost use Rattle.std.specs.Prelude.{◌≡◌, OnOk};
ghost use Rattle.qm_parse.specs.Drafts.{bound_noted, bounded_noted, constant_noted, first_noted, list_noted, noted, objective_noted, right_noted, row_begin_noted, row_noted, start_noted, turned_noted};

use crate::draft::Draft;
use crate::signs::sense_of;
use crate::stage::{NameList, Stage, State};
use crate::word::{Symbol, Word};
use qm_io::Memory;
use qm_lex::Place;
use std::alloc::Global;

/// Takes the sense.
#[tactic(auto, unfolding(crate::specs::Drafts::start_noted))]
fn note_start(draft: &mut Draft, word: &Word)
    ensures { draft.new ≡ start_noted word.now draft.old }
{
    if let Word::Keyword(keyword) = word {
        draft.set_sense(sense_of(*keyword));
    }
}

/// Takes a word within a term of the objective. `Memory`, where there is none for the term.
#[tactic(auto, unfolding(crate::specs::Drafts::objective_noted))]
fn note_objective(draft: &mut Draft, word: &Word, at: Place) -> Result<(), Memory>
    ensures { OnOk result (draft.new ≡ objective_noted word.now at draft.old) }
{
    match word {
        Word::Sign(minus) => draft.sign(*minus),
        Word::Number(number) => match number {
            Some(value) => draft.set_coef(*value, at),
            None => {}
        },
        Word::Name(name, _) => draft.push_single(*name, at)?,
        _ => {}
    }
    Ok(())
}

/// Takes the first word of the objective; its label is passed over. `Memory`, where there is none for a term.
#[tactic(auto, unfolding(crate::specs::Drafts::first_noted))]
fn note_first(draft: &mut Draft, word: &Word, at: Place) -> Result<(), Memory>
    ensures { OnOk result (draft.new ≡ first_noted word.now at draft.old) }
{
    match word {
        Word::Name(_, true) => Ok(()),
        _ => note_objective(draft, word, at),
    }
}

/// Takes a word behind a number of the objective, which is a constant where no name follows. `Memory`, where there is none
/// for the term.
#[tactic(auto, unfolding(crate::specs::Drafts::constant_noted))]
fn note_constant(draft: &mut Draft, word: &Word, at: Place) -> Result<(), Memory>
    ensures { OnOk result (draft.new ≡ constant_noted word.now at draft.old) }
{
    match word {
        Word::Name(name, _) => draft.push_multiple(*name, at),
        Word::Sign(minus) => {
            draft.push_constant()?;
            draft.sign(*minus);
            Ok(())
        }
        Word::Keyword(_) => draft.push_constant(),
        _ => Ok(()),
    }
}

/// Takes a word within a term of a row. `Memory`, where there is none for the term.
#[tactic(auto, unfolding(crate::specs::Drafts::row_noted))]
fn note_row(draft: &mut Draft, word: &Word, at: Place) -> Result<(), Memory>
    ensures { OnOk result (draft.new ≡ row_noted word.now at draft.old) }
{
    match word {
        Word::Sign(minus) => draft.sign(*minus),
        Word::Number(number) => match number {
            Some(value) => draft.set_coef(*value, at),
            None => {}
        },
        Word::Name(name, _) => draft.push_single_term(*name, at)?,
        Word::Related(relation) => draft.set_relation(*relation),
        _ => {}
    }
    Ok(())
}

/// Takes a word where a row may begin. `Memory`, where there is none for a term.
#[tactic(auto, unfolding(crate::specs::Drafts::row_begin_noted))]
fn note_row_begin(draft: &mut Draft, word: &Word, at: Place) -> Result<(), Memory>
    ensures { OnOk result (draft.new ≡ row_begin_noted word.now at draft.old) }
{
    match word {
        Word::Name(_, true) => {
            draft.begin_row(at);
            Ok(())
        }
        Word::Keyword(_) => Ok(()),
        _ => {
            draft.begin_row(at);
            note_row(draft, word, at)
        }
    }
}

/// Takes a word on the right side of a row. `Memory`, where there is none for the row.
#[tactic(auto, unfolding(crate::specs::Drafts::right_noted))]
fn note_right(alloc: Global, draft: &mut Draft, uncertain: bool, word: &Word) -> Result<(), Memory>
    ensures { OnOk result (draft.new ≡ right_noted uncertain word.now draft.old) }
{
    match word {
        Word::Sign(minus) => draft.sign(*minus),
        Word::Number(number) => match number {
            Some(value) => draft.push_row(alloc, uncertain, *value)?,
            None => {}
        },
        _ => {}
    }
    Ok(())
}

/// Takes a word where a bound may begin, or within the value that begins it, or behind its name. `Memory`, where there is
/// none for the bound.
#[tactic(auto, unfolding(crate::specs::Drafts::bound_noted))]
fn note_bound(draft: &mut Draft, word: &Word, at: Place) -> Result<(), Memory>
    ensures { OnOk result (draft.new ≡ bound_noted word.now at draft.old) }
{
    match word {
        Word::Sign(minus) => draft.sign(*minus),
        Word::Number(number) => match number {
            Some(value) => draft.set_value(Some(*value)),
            None => {}
        },
        Word::Infinite => draft.set_value(None),
        Word::Name(name, _) => draft.set_name(*name, at),
        Word::Related(relation) => draft.set_relation(*relation),
        Word::Free => draft.push_free()?,
        _ => {}
    }
    Ok(())
}

/// Takes a word within the value behind the name of a bound. `Memory`, where there is none for the bound.
#[tactic(auto, unfolding(crate::specs::Drafts::bounded_noted))]
fn note_bounded(draft: &mut Draft, word: &Word) -> Result<(), Memory>
    ensures { OnOk result (draft.new ≡ bounded_noted word.now draft.old) }
{
    match word {
        Word::Sign(minus) => draft.sign(*minus),
        Word::Number(number) => match number {
            Some(value) => draft.push_bounded(Some(*value))?,
            None => {}
        },
        Word::Infinite => draft.push_bounded(None)?,
        _ => {}
    }
    Ok(())
}

/// Takes the name behind the value of a bound. `Memory`, where there is none for the bound.
#[tactic(auto, unfolding(crate::specs::Drafts::turned_noted))]
fn note_turned(draft: &mut Draft, word: &Word, at: Place) -> Result<(), Memory>
    ensures { OnOk result (draft.new ≡ turned_noted word.now at draft.old) }
{
    match word {
        Word::Name(name, _) => draft.push_turned(*name, at),
        _ => Ok(()),
    }
}

/// Takes a name of a list. `Memory`, where there is none for it.
#[tactic(auto, unfolding(crate::specs::Drafts::list_noted))]
fn note_listed(draft: &mut Draft, list: NameList, word: &Word, at: Place) -> Result<(), Memory>
    ensures { OnOk result (draft.new ≡ list_noted list word.now at draft.old) }
{
    match word {
        Word::Name(name, _) => draft.push_listed(list, *name, at),
        _ => Ok(()),
    }
}

/// Takes what the next symbol adds, given the state before it. `Memory`, where there is none for it.
#[tactic(auto, unfolding(crate::specs::Drafts::noted))]
pub fn note(alloc: Global, draft: &mut Draft, state: State, symbol: &Symbol) -> Result<(), Memory>
    ensures { OnOk result (draft.new ≡ noted state.stage state.seen.uncertainty symbol.now.word symbol.now.place draft.old) }
{
    let word = &symbol.word;
    let at = symbol.place;
    match state.stage {
        Stage::Start => {
            note_start(draft, word);
            Ok(())
        }
        Stage::ObjectiveFirst => note_first(draft, word, at),
        Stage::ObjectiveBegin | Stage::ObjectiveSigned | Stage::ObjectiveTerm => {
            note_objective(draft, word, at)
        }
        Stage::ObjectiveNumber => note_constant(draft, word, at),
        Stage::RowsBegin | Stage::RowEnd => note_row_begin(draft, word, at),
        Stage::RowSigned | Stage::RowTerm => note_row(draft, word, at),
        Stage::RowNumber => match word {
            Word::Name(name, _) => draft.push_multiple_term(*name, at),
            _ => Ok(()),
        },
        Stage::RowRelation => note_right(alloc, draft, state.seen.uncertainty, word),
        Stage::BoundsBegin
        | Stage::BoundSigned
        | Stage::BoundValue
        | Stage::BoundNamed
        | Stage::BoundName
        | Stage::BoundEnd => note_bound(draft, word, at),
        Stage::BoundTurned => note_turned(draft, word, at),
        Stage::BoundRelation => note_bounded(draft, word),
        Stage::Names(list) => note_listed(draft, list, word, at),
        _ => Ok(()),
    }
}
