ghost use Rattle.std.specs.Prelude.{◌≡◌, slice_index};
ghost use Rattle.qm_lex.specs.Marks.{equal_mark, mark_at, mark_of, relation_mark};

use crate::token::{Found, Kind};

/// The relation, sign or colon at the front; `None` where there is none.
pub fn mark(text: &[u8]) -> Option<Found>
    ensures { result ≡ mark_at text.now }
{
    match text.split_first() {
        Some((byte, rest)) => mark_of(*byte, first_or_zero(rest)),
        None => None,
    }
}

/// The first byte, or 0 where there is none.
fn first_or_zero(text: &[u8]) -> u8
    ensures { result ≡ slice_index text.now 0 }
{
    match text.first() {
        Some(byte) => *byte,
        None => 0,
    }
}

/// The mark that begins with the first of two bytes.
#[tactic(auto, unfolding(crate::specs::Marks::mark_of))]
fn mark_of(byte: u8, next: u8) -> Option<Found>
    ensures { result ≡ mark_of byte next }
{
    match byte {
        b'+' => Some(Found {
            kind: Kind::Plus,
            len: 1,
        }),
        b'-' => Some(Found {
            kind: Kind::Minus,
            len: 1,
        }),
        b':' => Some(Found {
            kind: Kind::Colon,
            len: 1,
        }),
        b'<' => Some(relation_mark(Kind::Less, next)),
        b'>' => Some(relation_mark(Kind::Greater, next)),
        b'=' => Some(equal_mark(next)),
        _ => None,
    }
}

/// The relation that an equals sign may follow.
fn relation_mark(kind: Kind, next: u8) -> Found
    ensures { result ≡ relation_mark kind next }
{
    Found {
        kind,
        len: if next == b'=' { 2 } else { 1 },
    }
}

/// The relation that begins with an equals sign, by the byte behind it.
fn equal_mark(next: u8) -> Found
    ensures { result ≡ equal_mark next }
{
    match next {
        b'<' => Found {
            kind: Kind::Less,
            len: 2,
        },
        b'>' => Found {
            kind: Kind::Greater,
            len: 2,
        },
        _ => Found {
            kind: Kind::Equal,
            len: 1,
        },
    }
}
