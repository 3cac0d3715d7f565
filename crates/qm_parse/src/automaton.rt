ghost use Rattle.std.specs.Prelude.{◌≡◌};
ghost use Rattle.qm_parse.specs.Stages.{expected, fits_line, may_share_line, missing, moved, next_state, step, wanted};

use crate::fault::What;
use crate::sections::{followed, may_end};
use crate::stage::{Stage, State};
use crate::steps::step;
use crate::word::{Symbol, Word};
use qm_lex::Keyword;

/// Whether the word may stand behind a row or a bound on the line where that ends.
#[tactic(auto, unfolding(crate::specs::Stages::may_share_line))]
fn may_share_line(stage: Stage, word: &Word) -> bool
    ensures { result ≡ may_share_line stage word.now }
{
    match (stage, word) {
        (Stage::RowEnd | Stage::BoundNamed | Stage::BoundEnd, Word::Keyword(_)) => true,
        (Stage::RowEnd, Word::Name(_, labels)) => *labels,
        (Stage::BoundNamed, Word::Related(_)) => true,
        (Stage::RowEnd | Stage::BoundNamed | Stage::BoundEnd, _) => false,
        _ => true,
    }
}

/// Whether the symbol begins a line, or may share the line of what stands before it.
#[tactic(auto, unfolding(crate::specs::Stages::fits_line))]
fn fits_line(stage: Stage, symbol: &Symbol) -> bool
    ensures { result ≡ fits_line stage symbol.now }
{
    symbol.begins_line || may_share_line(stage, &symbol.word)
}

/// The state behind a word that goes on with the part, or begins the next.
#[tactic(auto, unfolding(crate::specs::Stages::moved))]
fn moved(state: State, word: &Word) -> Option<State>
    ensures { result ≡ moved state word.now (step state.stage word.now) }
{
    match step(state.stage, word) {
        Some(stage) => Some(State {
            stage,
            seen: state.seen,
        }),
        None if may_end(state.stage) => followed(state.seen, word),
        None => None,
    }
}

/// The state behind the next symbol; `None` where it may not follow.
#[tactic(auto, unfolding(crate::specs::Stages::next_state))]
pub fn next_state(state: State, symbol: &Symbol) -> Option<State>
    ensures { result ≡ next_state state symbol.now }
{
    if fits_line(state.stage, symbol) {
        moved(state, &symbol.word)
    } else {
        None
    }
}

/// What would go on here.
#[tactic(auto, unfolding(crate::specs::Stages::wanted))]
pub fn wanted(stage: Stage) -> What
    ensures { result ≡ wanted stage }
{
    match stage {
        Stage::Start => What::Sense,
        Stage::ObjectiveFirst
        | Stage::ObjectiveLabel
        | Stage::ObjectiveBegin
        | Stage::ObjectiveNumber
        | Stage::ObjectiveTerm
        | Stage::UncertaintyHeading => What::SubjectTo,
        Stage::SubjectHeading => What::To,
        Stage::ObjectiveSigned | Stage::RowLabel | Stage::RowSigned => What::Term,
        Stage::RowNumber | Stage::BoundTurned => What::Name,
        Stage::RowTerm | Stage::BoundValue | Stage::BoundName => What::Relation,
        Stage::RowRelation | Stage::BoundSigned | Stage::BoundRelation => What::Number,
        Stage::RowsBegin
        | Stage::RowEnd
        | Stage::BoundsBegin
        | Stage::BoundNamed
        | Stage::BoundEnd
        | Stage::Names(_) => What::Section,
        Stage::Ended => What::TextEnd,
    }
}

/// What is expected in the place of a word that may not follow; ORDER in the place of END, where that is missing.
#[tactic(auto, unfolding(crate::specs::Stages::missing))]
fn missing(stage: Stage, word: &Word) -> What
    ensures { result ≡ missing stage word.now }
{
    match word {
        Word::Keyword(Keyword::End) if may_end(stage) => What::Order,
        _ => wanted(stage),
    }
}

/// What is expected in the place of a symbol that may not follow.
#[tactic(auto, unfolding(crate::specs::Stages::expected))]
pub fn expected(stage: Stage, symbol: &Symbol) -> What
    ensures { result ≡ expected stage symbol.now }
{
    if fits_line(stage, symbol) {
        missing(stage, &symbol.word)
    } else {
        What::LineEnd
    }
}
