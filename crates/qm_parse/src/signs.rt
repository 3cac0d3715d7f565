ghost use Rattle.std.specs.Prelude.{◌≡◌};
ghost use Rattle.qm_parse.specs.Drafts.{sense_of, signed_by, turned, value_by};

use crate::ast::Relation;
use qm_frac::Frac;
use qm_lex::Keyword;
use qm_model::Sense;

/// The number, negated where the signs before it say so.
#[tactic(auto, unfolding(crate::specs::Drafts::signed_by))]
pub fn signed_by(negative: bool, value: Frac) -> Frac
    ensures { result ≡ signed_by negative value }
{
    if negative { value.neg() } else { value }
}

/// The value of a bound, with its signs.
#[tactic(auto, unfolding(crate::specs::Drafts::value_by))]
pub fn value_by(negative: bool, value: Option<Frac>) -> Option<Frac>
    ensures { result ≡ value_by negative value }
{
    match value {
        None => None,
        Some(value) => Some(signed_by(negative, value)),
    }
}

/// The same relation, seen from the other side.
#[tactic(auto, unfolding(crate::specs::Drafts::turned))]
pub fn turned(relation: Relation) -> Relation
    ensures { result ≡ turned relation }
{
    match relation {
        Relation::Less => Relation::Greater,
        Relation::Greater => Relation::Less,
        Relation::Equal => Relation::Equal,
    }
}

/// The sense that the keyword says.
#[tactic(auto, unfolding(crate::specs::Drafts::sense_of))]
pub fn sense_of(word: Keyword) -> Sense
    ensures { result ≡ sense_of word }
{
    match word {
        Keyword::Minimize | Keyword::Min => Sense::Min,
        _ => Sense::Max,
    }
}
