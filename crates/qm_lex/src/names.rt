ghost use Rattle.std.specs.Prelude.{◌≡◌, ◌≤◌, map, length};
ghost use Rattle.std.specs.List.{prefix_len};
ghost use Rattle.std.specs.Str.{str_eq_ignore_ascii_case};
ghost use Rattle.qm_lex.specs.Bytes.{continues_name};
ghost use Rattle.qm_lex.specs.Names.{kind_among, kind_of_name};

use crate::bytes::continues_name;
use crate::token::{Keyword, Kind};

/// A name with a meaning of its own.
#[derive(Clone, Copy)]
struct Reserved {
    word: &'static [u8],
    kind: Kind,
}

const RESERVED: [Reserved; 20] = [
    Reserved {
        word: b"MAXIMIZE",
        kind: Kind::Keyword(Keyword::Maximize),
    },
    Reserved {
        word: b"MAX",
        kind: Kind::Keyword(Keyword::Max),
    },
    Reserved {
        word: b"MINIMIZE",
        kind: Kind::Keyword(Keyword::Minimize),
    },
    Reserved {
        word: b"MIN",
        kind: Kind::Keyword(Keyword::Min),
    },
    Reserved {
        word: b"SUBJECT",
        kind: Kind::Keyword(Keyword::Subject),
    },
    Reserved {
        word: b"TO",
        kind: Kind::Keyword(Keyword::To),
    },
    Reserved {
        word: b"ST",
        kind: Kind::Keyword(Keyword::St),
    },
    Reserved {
        word: b"UNCERTAINTY",
        kind: Kind::Keyword(Keyword::Uncertainty),
    },
    Reserved {
        word: b"BOUNDS",
        kind: Kind::Keyword(Keyword::Bounds),
    },
    Reserved {
        word: b"GENERALS",
        kind: Kind::Keyword(Keyword::Generals),
    },
    Reserved {
        word: b"GENERAL",
        kind: Kind::Keyword(Keyword::General),
    },
    Reserved {
        word: b"BINARIES",
        kind: Kind::Keyword(Keyword::Binaries),
    },
    Reserved {
        word: b"BINARY",
        kind: Kind::Keyword(Keyword::Binary),
    },
    Reserved {
        word: b"EXISTS",
        kind: Kind::Keyword(Keyword::Exists),
    },
    Reserved {
        word: b"ALL",
        kind: Kind::Keyword(Keyword::All),
    },
    Reserved {
        word: b"ORDER",
        kind: Kind::Keyword(Keyword::Order),
    },
    Reserved {
        word: b"END",
        kind: Kind::Keyword(Keyword::End),
    },
    Reserved {
        word: b"INF",
        kind: Kind::Infinite,
    },
    Reserved {
        word: b"INFINITY",
        kind: Kind::Infinite,
    },
    Reserved {
        word: b"FREE",
        kind: Kind::Infinite,
    },
];

/// How many bytes at the front may stand in a name.
pub fn name_bytes(text: &[u8]) -> usize
    ensures value { result ≡ prefix_len continues_name text.now }
    ensures inside { result ≤ length text.now }
{
    for (i, byte) in text.iter().enumerate() {
        if !continues_name(*byte) {
            return i;
        }
    }
    text.len()
}

/// The kind of a name.
#[tactic(auto, unfolding(crate::specs::Names::kind_of_name, crate::specs::Names::reserved))]
pub fn kind_of_name(word: &[u8]) -> Kind
    ensures { result ≡ kind_of_name word.now }
{
    kind_among(&RESERVED, word)
}

/// The kind of the first of these names that the word is in whatever case.
fn kind_among(entries: &[Reserved], word: &[u8]) -> Kind
    ensures { result ≡ kind_among (map (λ entry. (entry.word.now, entry.kind)) entries.now) word.now }
{
    for entry in entries {
        if is_same_in_any_case(word, entry.word) {
            return entry.kind;
        }
    }
    Kind::Name
}

/// Whether the words are the same but for the case of their letters.
fn is_same_in_any_case(word: &[u8], other: &[u8]) -> bool
    ensures { result ≡ str_eq_ignore_ascii_case word.now other.now }
{
    word.eq_ignore_ascii_case(other)
}
