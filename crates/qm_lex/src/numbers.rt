ghost use Rattle.std.specs.Prelude.{◌≡◌, ◌+◌, ◌≤◌, ◌<◌, length, IfSome};
ghost use Rattle.qm_lex.specs.Reading.{digits_at, signed_digits_at, exponent_at, decimals_at, one_more, tail_at, point_at, number_at};

use crate::bytes::{begins_exponent, is_sign};

/// How many bytes the number at the front takes; `None` where there is none.
#[tactic(auto, unfolding(crate::specs::Reading::number_at))]
pub fn number_bytes(text: &[u8]) -> Option<usize>
    ensures value { result ≡ number_at text.now }
    ensures inside { IfSome result (λ n. n ≤ length text.now) }
{
    let whole = digits(text);
    if whole == 0 {
        point(text)
    } else {
        Some(whole + tail(&text[whole..]))
    }
}

/// How many digits stand at the front.
fn digits(text: &[u8]) -> usize
    ensures value { result ≡ digits_at text.now }
    ensures inside { result ≤ length text.now }
{
    for (i, byte) in text.iter().enumerate() {
        if !byte.is_ascii_digit() {
            return i;
        }
    }
    text.len()
}

/// How many bytes the number at the front takes that begins with a point.
#[tactic(auto, unfolding(crate::specs::Reading::point_at))]
fn point(text: &[u8]) -> Option<usize>
    ensures value { result ≡ point_at text.now }
    ensures inside { IfSome result (λ n. n ≤ length text.now) }
{
    match text.split_first() {
        Some((b'.', rest)) => if digits(rest) == 0 {
            None
        } else {
            Some(1 + decimals(rest))
        },
        _ => None,
    }
}

/// How many bytes at the front go on behind digits: a point with what stands behind it, or an exponent.
#[tactic(auto, unfolding(crate::specs::Reading::tail_at, crate::specs::Reading::exponent_at))]
fn tail(text: &[u8]) -> usize
    ensures value { result ≡ tail_at text.now }
    ensures inside { result ≤ length text.now }
{
    match text.split_first() {
        Some((b'.', rest)) => 1 + decimals(rest),
        _ => exponent(text),
    }
}

/// How many bytes the digits at the front take, with an exponent behind them.
#[tactic(auto, unfolding(crate::specs::Reading::decimals_at))]
fn decimals(text: &[u8]) -> usize
    ensures value { result ≡ decimals_at text.now }
    ensures inside { result ≤ length text.now }
{
    let many = digits(text);
    many + exponent(&text[many..])
}

/// How many bytes the exponent at the front takes, or 0.
#[tactic(auto, unfolding(crate::specs::Reading::exponent_at))]
fn exponent(text: &[u8]) -> usize
    ensures value { result ≡ exponent_at text.now }
    ensures inside { result ≤ length text.now }
{
    match text.split_first() {
        Some((byte, rest)) => if begins_exponent(*byte) {
            one_more(signed_digits(rest), rest)
        } else {
            0
        },
        None => 0,
    }
}

/// How many bytes the digits at the front take, with their sign, or 0.
#[tactic(auto, unfolding(crate::specs::Reading::signed_digits_at))]
fn signed_digits(text: &[u8]) -> usize
    ensures value { result ≡ signed_digits_at text.now }
    ensures inside { result ≤ length text.now }
{
    match text.split_first() {
        Some((byte, rest)) => if is_sign(*byte) {
            one_more(digits(rest), rest)
        } else {
            digits(text)
        },
        None => 0,
    }
}

/// One more than a number of bytes of the text, or 0 where that is 0.
fn one_more(n: usize, text: &[u8]) -> usize
    requires { n ≤ length text.now }
    ensures value { result ≡ one_more n }
    ensures inside { result ≤ length text.now + 1 }
{
    if n == 0 { 0 } else { n + 1 }
}
