ghost use Rattle.std.specs.Prelude.{◌≡◌, ◌<◌, ◌≤◌, ◌∷◌, [], length, None, Some, MatchOption};
ghost use Rattle.qm_certread.specs.Pieces.{words_of};
ghost use Rattle.qm_certread.specs.Spelling.{cut_at};
ghost use Rattle.qm_certread.specs.Forms.{behind, is_line};
ghost use Rattle.qm_certread.specs.WordSteps.{words_behind};

use memchr::memchr;

/// The first word of a line, and what stands behind it: nothing, or a space and the other words.
pub(crate) fn cut_word(line: &[u8]) -> (&[u8], &[u8])
    ensures words { words_of line.now ≡ result.0.now ∷ words_behind result.1.now }
    ensures rest { length result.1.now ≤ length line.now }
{
    line.split_at(memchr(b' ', line).unwrap_or(line.len()))
}

/// What stands before the first such byte of a word and behind it.
pub(crate) fn cut_at(mark: u8, word: &[u8]) -> Option<(&[u8], &[u8])>
    ensures { MatchOption result (cut_at mark word.now ≡ None) (λ x. cut_at mark word.now ≡ Some (x.0.now, x.1.now)) }
{
    match memchr(mark, word) {
        Some(at) => Some((&word[..at], &word[at + 1..])),
        None => None,
    }
}

/// The next word of what stands behind one, and what stands behind that.
pub(crate) fn next_word(rest: &[u8]) -> Option<(&[u8], &[u8])>
    ensures words { MatchOption result (words_behind rest.now ≡ []) (λ x. words_behind rest.now ≡ x.0.now ∷ words_behind x.1.now) }
    ensures shorter { MatchOption result (rest.now ≡ []) (λ x. length x.1.now < length rest.now) }
{
    match rest.split_first() {
        Some((_, line)) => Some(cut_word(line)),
        None => None,
    }
}

/// What stands behind the first word, if it is this one.
pub(crate) fn behind<'a>(kind: &[u8], line: &'a [u8]) -> Option<&'a [u8]>
    ensures { MatchOption result (behind (kind.now ∷ []) (words_of line.now) ≡ None) (λ rest. behind (kind.now ∷ []) (words_of line.now) ≡ Some (words_behind rest.now)) }
{
    let (word, rest) = cut_word(line);
    if word == kind { Some(rest) } else { None }
}

/// Whether the line is this word alone.
#[tactic(auto, using(crate::proofs::WordCuts::none_behind))]
pub fn is_alone(kind: &[u8], line: &[u8]) -> bool
    ensures { result ≡ is_line (kind.now ∷ []) (words_of line.now) }
{
    let (word, rest) = cut_word(line);
    word == kind && rest.is_empty()
}

/// Whether the line is these two words.
pub fn is_pair(kind: &[u8], other: &[u8], line: &[u8]) -> bool
    ensures { result ≡ is_line (kind.now ∷ other.now ∷ []) (words_of line.now) }
{
    let (word, rest) = cut_word(line);
    word == kind && is_other(other, rest)
}

/// Whether this word alone stands behind one.
fn is_other(other: &[u8], rest: &[u8]) -> bool
    ensures { result ≡ is_line (other.now ∷ []) (words_behind rest.now) }
{
    match rest.split_first() {
        Some((_, line)) => is_alone(other, line),
        None => false,
    }
}
