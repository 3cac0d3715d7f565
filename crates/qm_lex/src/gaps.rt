ghost use Rattle.std.specs.Prelude.{◌≡◌, ◌≤◌, length, false};
ghost use Rattle.qm_lex.specs.Texts.{behind_blanks, skipped};

use crate::bytes::is_blank;

/// The first place, from this one on, behind blanks and comments.
#[tactic(auto, unfolding(crate::specs::Texts::behind_blanks))]
pub fn behind_blanks(text: &[u8], at: usize) -> usize
    requires { at ≤ length text.now }
    ensures value { result ≡ behind_blanks text.now at }
    ensures inside { result ≤ length text.now }
    ensures later { at ≤ result }
{
    at + skipped(&text[at..])
}

/// How many bytes at the front are blanks and comments.
fn skipped(text: &[u8]) -> usize
    ensures value { result ≡ skipped false text.now }
    ensures inside { result ≤ length text.now }
{
    let mut is_inside = false;
    for (i, byte) in text.iter().enumerate() {
        if is_inside {
            is_inside = *byte != b'\n';
        } else if *byte == b'\\' {
            is_inside = true;
        } else if !is_blank(*byte) {
            return i;
        }
    }
    text.len()
}
