ghost use Rattle.std.specs.Prelude.{◌≡◌, IfOk, IfErr};
ghost use Rattle.qm_certread.specs.declared.fault.CertFault.TheVariants as fault;
ghost use Rattle.qm_certread.specs.ReadSteps.{IsIn, IsMissing, IsNext, fault_at, unread_at};

use crate::fault::{CertFault, Misread, Unread};
use qm_text::line_end;

/// Where the next line of a text begins, and its number from 1.
#[derive(Clone, Copy, Debug, PartialEq, Eq)]
pub struct Cursor {
    pub at: usize,
    pub line: u32,
}

/// Takes the next line. `Text`, where it is missing or has no LF.
pub fn next_line<'a>(text: &'a [u8], cursor: &mut Cursor) -> Result<&'a [u8], CertFault>
    requires { IsIn text.now cursor.old }
    ensures ok { IfOk result (λ line. IsNext text.now line.now cursor.old cursor.new × IsIn text.now cursor.new) }
    ensures err { IfErr result (λ e. (e ≡ fault.Text cursor.old.line) × IsMissing text.now cursor.old) }
{
    match line_end(text, cursor.at) {
        Some(end) => {
            let line = &text[cursor.at..end];
            cursor.at = end + 1;
            cursor.line += 1;
            Ok(line)
        }
        None => Err(CertFault::Text(cursor.line)),
    }
}

/// The fault of a line.
pub(crate) fn fault_at(fault: Misread, line: u32) -> CertFault
    ensures { result ≡ fault_at fault line }
{
    match fault {
        Misread::Text => CertFault::Text(line),
        Misread::Number => CertFault::Number(line),
    }
}

/// The fault of a line, or want of memory.
pub(crate) fn unread_at(fault: Unread, line: u32) -> CertFault
    ensures { result ≡ unread_at fault line }
{
    match fault {
        Unread::Misread(fault) => fault_at(fault, line),
        Unread::Memory => CertFault::Memory,
    }
}
