ghost use Rattle.std.specs.Prelude.{◌≡◌, ◌≤◌, ◌∷◌, [], codes, length, ◌<◌, IfOk, IfErr, OnOk};
ghost use Rattle.qm_certread.specs.declared.fault.CertFault.TheVariants as fault;
ghost use Rattle.qm_certread.specs.Nodes.{Fixed};
ghost use Rattle.qm_certfile.specs.Styles.{first_style};
ghost use Rattle.qm_certfile.specs.CertificateLines.{version_line};
ghost use Rattle.qm_certread.specs.Spelling.{count_word, each_of, one, value_word};
ghost use Rattle.qm_certread.specs.Forms.{claim_said, empty_said, range_said, refute_said, said_behind};
ghost use Rattle.qm_certread.specs.SaidSteps.{claim_node, empty_node, refute_node};
ghost use Rattle.qm_certread.specs.ReadSteps.{IsIn, NextFails, NextSays, TakesIllegal, fixed_said};

use crate::cursor::{Cursor, fault_at, next_line, unread_at};
use crate::fault::CertFault;
use crate::lists::Spoken;
use crate::said::{
    Claim, EmptySaid, RefuteSaid, claim_said, count_said, empty_said, range_said, refute_said,
    value_said, values_said,
};
use crate::words::{is_alone, is_pair};
use qm_io::List;
use qm_model::{Problem, Range};
use std::alloc::Global;

/// Takes the first line.
pub(crate) fn next_claim(text: &[u8], cursor: &mut Cursor) -> Result<Claim, CertFault>
    requires { IsIn text.now cursor.old }
    ensures place { OnOk result (IsIn text.now cursor.new) }
    ensures ok { IfOk result (λ claim. NextSays text.now claim_said cursor.old cursor.new (claim_node claim)) }
    ensures err { IfErr result (λ e. NextFails text.now claim_said cursor.old e) }
{
    let number = cursor.line;
    let line = next_line(text, cursor)?;
    match claim_said(line) {
        Ok(said) => Ok(said),
        Err(fault) => Err(fault_at(fault, number)),
    }
}

/// Takes the line of the version.
pub(crate) fn next_version(text: &[u8], cursor: &mut Cursor) -> Result<(), CertFault>
    requires { IsIn text.now cursor.old }
    ensures place { OnOk result (IsIn text.now cursor.new) }
    ensures ok { OnOk result (NextSays text.now (fixed_said (version_line first_style)) cursor.old cursor.new (Fixed (version_line first_style))) }
    ensures err { IfErr result (λ e. NextFails text.now (fixed_said (version_line first_style)) cursor.old e) }
{
    let number = cursor.line;
    let line = next_line(text, cursor)?;
    if is_pair(b"certificate", b"1", line) {
        Ok(())
    } else {
        Err(CertFault::Text(number))
    }
}

/// Takes a line of this word alone.
pub(crate) fn next_alone(word: &[u8], text: &[u8], cursor: &mut Cursor) -> Result<(), CertFault>
    requires { IsIn text.now cursor.old }
    ensures place { OnOk result (IsIn text.now cursor.new) }
    ensures ok { OnOk result (NextSays text.now (fixed_said (word.now ∷ [])) cursor.old cursor.new (Fixed (word.now ∷ []))) }
    ensures err { IfErr result (λ e. NextFails text.now (fixed_said (word.now ∷ [])) cursor.old e) }
{
    let number = cursor.line;
    let line = next_line(text, cursor)?;
    if is_alone(word, line) {
        Ok(())
    } else {
        Err(CertFault::Text(number))
    }
}

/// Takes the line `illegal`, if it stands there.
pub(crate) fn take_illegal(text: &[u8], cursor: &mut Cursor) -> bool
    requires { IsIn text.now cursor.old }
    ensures place { IsIn text.now cursor.new }
    ensures line { TakesIllegal text.now cursor.old cursor.new result }
{
    let mut ahead = *cursor;
    match next_line(text, &mut ahead) {
        Ok(line) => {
            if is_alone(b"illegal", line) {
                *cursor = ahead;
                true
            } else {
                false
            }
        }
        Err(_) => false,
    }
}

/// Takes a line of this kind and a value.
pub(crate) fn next_value(kind: &[u8], text: &[u8], cursor: &mut Cursor) -> Result<i64, CertFault>
    requires { IsIn text.now cursor.old }
    ensures place { OnOk result (IsIn text.now cursor.new) }
    ensures ok { IfOk result (λ value. NextSays text.now (said_behind (kind.now ∷ []) (one value_word)) cursor.old cursor.new value) }
    ensures err { IfErr result (λ e. NextFails text.now (said_behind (kind.now ∷ []) (one value_word)) cursor.old e) }
{
    let number = cursor.line;
    let line = next_line(text, cursor)?;
    match value_said(kind, line) {
        Ok(said) => Ok(said),
        Err(fault) => Err(fault_at(fault, number)),
    }
}

/// Takes a line of this kind and a count.
pub(crate) fn next_count(kind: &[u8], text: &[u8], cursor: &mut Cursor) -> Result<u32, CertFault>
    requires { IsIn text.now cursor.old }
    ensures place { OnOk result (IsIn text.now cursor.new) }
    ensures ok { IfOk result (λ count. NextSays text.now (said_behind (kind.now ∷ []) (one count_word)) cursor.old cursor.new count) }
    ensures err { IfErr result (λ e. NextFails text.now (said_behind (kind.now ∷ []) (one count_word)) cursor.old e) }
{
    let number = cursor.line;
    let line = next_line(text, cursor)?;
    match count_said(kind, line) {
        Ok(said) => Ok(said),
        Err(fault) => Err(fault_at(fault, number)),
    }
}

/// Takes a line of this kind and so many words.
pub(crate) fn next_values<T: Spoken + Drop>(
    alloc: Global,
    kind: &[u8],
    count: usize,
    text: &[u8],
    cursor: &mut Cursor,
) -> Result<List<T>, CertFault>
    requires { IsIn text.now cursor.old }
    ensures place { OnOk result (IsIn text.now cursor.new) }
    ensures ok { IfOk result (λ values. NextSays text.now (said_behind (kind.now ∷ []) (each_of T.word_says count)) cursor.old cursor.new values) }
    ensures err { IfErr result (λ e. NextFails text.now (said_behind (kind.now ∷ []) (each_of T.word_says count)) cursor.old e) }
{
    let number = cursor.line;
    let line = next_line(text, cursor)?;
    match values_said(alloc, kind, count, line) {
        Ok(said) => Ok(said),
        Err(fault) => Err(unread_at(fault, number)),
    }
}

/// Takes the line of a range.
pub(crate) fn next_range(text: &[u8], cursor: &mut Cursor) -> Result<Range, CertFault>
    requires { IsIn text.now cursor.old }
    ensures place { OnOk result (IsIn text.now cursor.new) }
    ensures ok { IfOk result (λ range. NextSays text.now (said_behind (codes "range" ∷ []) range_said) cursor.old cursor.new range) }
    ensures err { IfErr result (λ e. NextFails text.now (said_behind (codes "range" ∷ []) range_said) cursor.old e) }
{
    let number = cursor.line;
    let line = next_line(text, cursor)?;
    match range_said(line) {
        Ok(said) => Ok(said),
        Err(fault) => Err(fault_at(fault, number)),
    }
}

/// Takes a line of an empty tree that may split variables from this position on.
pub(crate) fn next_empty(
    alloc: Global,
    problem: &Problem,
    least: usize,
    text: &[u8],
    cursor: &mut Cursor,
) -> Result<EmptySaid, CertFault>
    requires wholes { problem.now.wholes ≤ length problem.now.vars }
    requires place { IsIn text.now cursor.old }
    ensures place { OnOk result (IsIn text.now cursor.new) }
    ensures ok { IfOk result (λ said. NextSays text.now (empty_said problem.now least) cursor.old cursor.new (empty_node said)) }
    ensures err { IfErr result (λ e. NextFails text.now (empty_said problem.now least) cursor.old e) }
{
    let number = cursor.line;
    let line = next_line(text, cursor)?;
    match empty_said(alloc, problem, least, line) {
        Ok(said) => Ok(said),
        Err(fault) => Err(unread_at(fault, number)),
    }
}

/// Takes a line of a refutation where so many variables are set.
pub(crate) fn next_refute(
    alloc: Global,
    problem: &Problem,
    depth: usize,
    text: &[u8],
    cursor: &mut Cursor,
) -> Result<RefuteSaid, CertFault>
    requires wholes { problem.now.wholes ≤ length problem.now.vars }
    requires place { IsIn text.now cursor.old }
    ensures place { OnOk result (IsIn text.now cursor.new) }
    ensures ok { IfOk result (λ said. NextSays text.now (refute_said first_style problem.now depth) cursor.old cursor.new (refute_node said)) }
    ensures err { IfErr result (λ e. NextFails text.now (refute_said first_style problem.now depth) cursor.old e) }
{
    let number = cursor.line;
    let line = next_line(text, cursor)?;
    match refute_said(alloc, problem, depth, line) {
        Ok(said) => Ok(said),
        Err(fault) => Err(unread_at(fault, number)),
    }
}

/// That the text ends here.
pub(crate) fn text_end(text: &[u8], cursor: Cursor) -> Result<(), CertFault>
    requires { IsIn text.now cursor }
    ensures ok { OnOk result (cursor.at ≡ length text.now) }
    ensures err { IfErr result (λ e. (e ≡ fault.Text cursor.line) × (cursor.at < length text.now)) }
{
    if cursor.at == text.len() {
        Ok(())
    } else {
        Err(CertFault::Text(cursor.line))
    }
}
