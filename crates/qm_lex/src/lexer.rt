ghost use Rattle.std.specs.Prelude.{◌≡◌, ℕ, ◌+◌, ◌<◌, ◌≤◌, ◌^◌, length, drop, take, IfOk, IsErrOf, MatchOption};
ghost use Rattle.std.specs.List.{prefix_len};
ghost use Rattle.qm_lex.specs.declared.place.Place.{Place};
ghost use Rattle.qm_lex.specs.declared.token.Kind.{Kind};
ghost use Rattle.qm_lex.specs.Bytes.{continues_name};
ghost use Rattle.qm_lex.specs.Names.{kind_of_name};
ghost use Rattle.qm_lex.specs.Places.{place_of};
ghost use Rattle.qm_lex.specs.Spelling.{Spells};
ghost use Rattle.qm_lex.specs.Texts.{AreTokens, IsFirstBad, IsLongest, IsTokenOf};

use crate::bytes::begins_name;
use crate::gaps::behind_blanks;
use crate::marks::mark;
use crate::names::{kind_of_name, name_bytes};
use crate::numbers::number_bytes;
use crate::token::{Found, Kind, Token};
use crate::{LexFault, place_at};
use qm_io::List;
use std::alloc::Global;

/// The tokens of the text, or the place of the first byte that begins none.
pub fn tokens(alloc: Global, text: &[u8]) -> Result<List<Token>, LexFault>
    requires { length text.now < 2 ^ 31 }
    ensures ok { IfOk result (λ found. AreTokens text.now found) }
    ensures bad { (place : Place) → IsErrOf result (LexFault.BadByte place) →
        (at : ℕ) × IsFirstBad text.now at × (place ≡ place_of text.now at) }
{
    let mut found = List::new(alloc);
    let mut at = behind_blanks(text, 0);
    while at < text.len() {
        match token_at(text, at) {
            Some(token) => {
                found.push(token).map_err(|_| LexFault::Memory)?;
                at = behind_blanks(text, token.end);
            }
            None => return Err(LexFault::BadByte(place_at(text, at))),
        }
    }
    Ok(found)
}

/// The longest token at this place; `None` where there is none.
fn token_at(text: &[u8], at: usize) -> Option<Token>
    requires { at < length text.now }
    ensures { MatchOption result
        ((m : ℕ) (kind : Kind) → ¬ Spells kind (take m (drop at text.now)))
        (λ token. (token.start ≡ at) × (at < token.end) × (token.end ≤ length text.now) × IsTokenOf text.now token) }
{
    match longest(&text[at..]) {
        Some(found) => Some(Token {
            kind: found.kind,
            start: at,
            end: at + found.len,
        }),
        None => None,
    }
}

/// The longest token at the front; `None` where there is none.
fn longest(text: &[u8]) -> Option<Found>
    ensures { MatchOption result
        ((m : ℕ) (kind : Kind) → ¬ Spells kind (take m text.now))
        (λ found. (0 < found.len) × IsLongest text.now found.kind found.len) }
{
    match text.split_first() {
        Some((byte, rest)) if begins_name(*byte) => Some(name(text, rest)),
        Some(_) => match number_bytes(text) {
            Some(len) => Some(Found {
                kind: Kind::Number,
                len,
            }),
            None => mark(text),
        },
        None => None,
    }
}

/// The name at the front, given what stands behind its first byte.
fn name(text: &[u8], rest: &[u8]) -> Found
    requires { length rest.now < length text.now }
    ensures len { result.len ≡ 1 + prefix_len continues_name rest.now }
    ensures kind { result.kind ≡ kind_of_name (take result.len text.now) }
{
    let len = 1 + name_bytes(rest);
    Found {
        kind: kind_of_name(&text[..len]),
        len,
    }
}
