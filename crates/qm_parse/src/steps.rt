ghost use Rattle.std.specs.Prelude.{◌≡◌};
ghost use Rattle.qm_parse.specs.Stages.{bound_begun, objective_begun, row_begun, step};

use crate::stage::Stage::{self, *};
use crate::word::Word::{self, *};
use qm_lex::Keyword::{Max, Maximize, Min, Minimize, St, Subject, To};

/// Behind a word that begins a first term of the objective, or the heading of the rows.
#[tactic(auto, unfolding(crate::specs::Stages::objective_begun))]
fn objective_begun(word: &Word) -> Option<Stage>
    ensures { result ≡ objective_begun word.now }
{
    match word {
        Sign(_) => Some(ObjectiveSigned),
        Number(_) => Some(ObjectiveNumber),
        Name(_, _) => Some(ObjectiveTerm),
        Keyword(Subject) => Some(SubjectHeading),
        Keyword(St) => Some(RowsBegin),
        _ => None,
    }
}

/// Behind a word that begins a row.
#[tactic(auto, unfolding(crate::specs::Stages::row_begun))]
fn row_begun(word: &Word) -> Option<Stage>
    ensures { result ≡ row_begun word.now }
{
    match word {
        Name(_, true) => Some(RowLabel),
        Name(_, false) => Some(RowTerm),
        Sign(_) => Some(RowSigned),
        Number(_) => Some(RowNumber),
        _ => None,
    }
}

/// Behind a word that begins a bound.
#[tactic(auto, unfolding(crate::specs::Stages::bound_begun))]
fn bound_begun(word: &Word) -> Option<Stage>
    ensures { result ≡ bound_begun word.now }
{
    match word {
        Name(_, _) => Some(BoundName),
        Sign(_) => Some(BoundSigned),
        Number(_) | Infinite => Some(BoundValue),
        _ => None,
    }
}

/// The stage behind a word of the same part, or of the part that has to follow; `None` where the word is neither.
#[tactic(auto, unfolding(crate::specs::Stages::step))]
pub fn step(stage: Stage, word: &Word) -> Option<Stage>
    ensures { result ≡ step stage word.now }
{
    match (stage, word) {
        (Start, Keyword(Maximize | Max | Minimize | Min)) => Some(ObjectiveFirst),
        (ObjectiveFirst, Name(_, true)) => Some(ObjectiveLabel),
        (ObjectiveFirst | ObjectiveBegin, _) => objective_begun(word),
        (ObjectiveLabel, Colon) => Some(ObjectiveBegin),
        (ObjectiveSigned | ObjectiveNumber | ObjectiveTerm, Sign(_)) => Some(ObjectiveSigned),
        (ObjectiveSigned, Number(_)) => Some(ObjectiveNumber),
        (ObjectiveSigned | ObjectiveNumber, Name(_, _)) => Some(ObjectiveTerm),
        (ObjectiveNumber | ObjectiveTerm | UncertaintyHeading, Keyword(Subject)) => Some(
            SubjectHeading,
        ),
        (ObjectiveNumber | ObjectiveTerm | UncertaintyHeading, Keyword(St)) => Some(RowsBegin),
        (SubjectHeading, Keyword(To)) => Some(RowsBegin),
        (RowsBegin | RowEnd, _) => row_begun(word),
        (RowLabel, Colon) => Some(RowSigned),
        (RowSigned | RowTerm, Sign(_)) => Some(RowSigned),
        (RowSigned, Number(_)) => Some(RowNumber),
        (RowSigned | RowNumber, Name(_, _)) => Some(RowTerm),
        (RowTerm, Related(_)) => Some(RowRelation),
        (RowRelation, Sign(_)) => Some(RowRelation),
        (RowRelation, Number(_)) => Some(RowEnd),
        (BoundNamed | BoundName, Related(_)) => Some(BoundRelation),
        (BoundsBegin | BoundEnd | BoundNamed, _) => bound_begun(word),
        (BoundSigned, Sign(_)) => Some(BoundSigned),
        (BoundSigned, Number(_) | Infinite) => Some(BoundValue),
        (BoundValue, Related(_)) => Some(BoundTurned),
        (BoundTurned, Name(_, _)) => Some(BoundNamed),
        (BoundName, Free) => Some(BoundEnd),
        (BoundRelation, Sign(_)) => Some(BoundRelation),
        (BoundRelation, Number(_) | Infinite) => Some(BoundEnd),
        (Names(list), Name(_, _)) => Some(Names(list)),
        _ => None,
    }
}
