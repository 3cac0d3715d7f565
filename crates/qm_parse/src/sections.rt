ghost use Rattle.std.specs.Prelude.{◌≡◌};
ghost use Rattle.qm_parse.specs.Stages.{begun, begun_by, followed, has, may_end, section_of, stage_of, with_section};

use crate::stage::{NameList, Section, Seen, Stage, State};
use crate::word::Word;
use qm_lex::Keyword;

/// Whether a part has ended or may end here, so that a section or END may follow.
#[tactic(auto, unfolding(crate::specs::Stages::may_end))]
pub fn may_end(stage: Stage) -> bool
    ensures { result ≡ may_end stage }
{
    match stage {
        Stage::RowsBegin
        | Stage::RowEnd
        | Stage::BoundsBegin
        | Stage::BoundNamed
        | Stage::BoundEnd
        | Stage::Names(_) => true,
        _ => false,
    }
}

/// The section that the keyword begins.
#[tactic(auto, unfolding(crate::specs::Stages::section_of))]
fn section_of(word: Keyword) -> Option<Section>
    ensures { result ≡ section_of word }
{
    match word {
        Keyword::Uncertainty => Some(Section::Uncertainty),
        Keyword::Bounds => Some(Section::Bounds),
        Keyword::Generals | Keyword::General => Some(Section::Names(NameList::Generals)),
        Keyword::Binaries | Keyword::Binary => Some(Section::Names(NameList::Binaries)),
        Keyword::Exists => Some(Section::Names(NameList::Exists)),
        Keyword::All => Some(Section::Names(NameList::All)),
        Keyword::Order => Some(Section::Names(NameList::Order)),
        _ => None,
    }
}

/// Whether the section has begun already.
#[tactic(auto, unfolding(crate::specs::Stages::has))]
fn has(seen: Seen, section: Section) -> bool
    ensures { result ≡ has seen section }
{
    match section {
        Section::Uncertainty => seen.uncertainty,
        Section::Bounds => seen.bounds,
        Section::Names(NameList::Generals) => seen.generals,
        Section::Names(NameList::Binaries) => seen.binaries,
        Section::Names(NameList::Exists) => seen.exists,
        Section::Names(NameList::All) => seen.all,
        Section::Names(NameList::Order) => seen.order,
    }
}

/// The same sections, and this one.
#[tactic(auto, unfolding(crate::specs::Stages::with_section))]
fn with_section(seen: Seen, section: Section) -> Seen
    ensures { result ≡ with_section seen section }
{
    let mut more = seen;
    match section {
        Section::Uncertainty => more.uncertainty = true,
        Section::Bounds => more.bounds = true,
        Section::Names(NameList::Generals) => more.generals = true,
        Section::Names(NameList::Binaries) => more.binaries = true,
        Section::Names(NameList::Exists) => more.exists = true,
        Section::Names(NameList::All) => more.all = true,
        Section::Names(NameList::Order) => more.order = true,
    }
    more
}

/// The stage behind the first word of the section.
#[tactic(auto, unfolding(crate::specs::Stages::stage_of))]
fn stage_of(section: Section) -> Stage
    ensures { result ≡ stage_of section }
{
    match section {
        Section::Uncertainty => Stage::UncertaintyHeading,
        Section::Bounds => Stage::BoundsBegin,
        Section::Names(list) => Stage::Names(list),
    }
}

/// The state behind the first word of the section; `None` where it has begun already.
#[tactic(auto, unfolding(crate::specs::Stages::begun))]
fn begun(seen: Seen, section: Section) -> Option<State>
    ensures { result ≡ begun seen section }
{
    if has(seen, section) {
        return None;
    }
    Some(State {
        stage: stage_of(section),
        seen: with_section(seen, section),
    })
}

/// The state behind a keyword that begins a section; `None` where it begins none, or the section has begun already.
#[tactic(auto, unfolding(crate::specs::Stages::begun_by))]
fn begun_by(seen: Seen, word: Keyword) -> Option<State>
    ensures { result ≡ begun_by seen (section_of word) }
{
    let section = section_of(word)?;
    begun(seen, section)
}

/// The state behind a word that begins a section, or behind END where ORDER was there; `None` behind another word.
#[tactic(auto, unfolding(crate::specs::Stages::followed))]
pub fn followed(seen: Seen, word: &Word) -> Option<State>
    ensures { result ≡ followed seen word.now }
{
    match word {
        Word::Keyword(Keyword::End) if seen.order => Some(State {
            stage: Stage::Ended,
            seen,
        }),
        Word::Keyword(Keyword::End) => None,
        Word::Keyword(keyword) => begun_by(seen, *keyword),
        _ => None,
    }
}
