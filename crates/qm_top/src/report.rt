ghost use Rattle.std.specs.Prelude.{◌≡◌, OnErr, OnOk};
ghost use Rattle.std.specs.Io.KnownBytes.{Appends};
ghost use Rattle.qm_io.specs.Bytes.{AppendsFront};
ghost use Rattle.qm_io.specs.Causes.{HasCause};
ghost use Rattle.qm_top.specs.Report.{status_of, text_of};

use crate::spent_lines::write_spent;
use qm_io::{Failed, List, Sink, write_all};
use qm_journal::Journal;

/// What is answered.
#[derive(Debug, Drop)]
pub enum Report {
    /// The words are none of the forms.
    Usage,
    /// The problem's source failed.
    ReadProblem,
    /// The certificate's source failed.
    ReadCertificate,
    /// The problem's text is refused, or the problem is out of scope: the line that says why.
    Text(List<u8>),
    /// The problem has too many bytes.
    Long,
    /// The certificate has too many bytes.
    LongCertificate,
    /// The problem is beyond another limit: the line that says which.
    Limit(List<u8>),
    /// A number leaves the range: the lines that say where, in a run or in a line of the certificate.
    Leaves(List<u8>),
    /// The budget is spent: the journal that spends it.
    Spent(Journal),
    /// A line of the certificate breaks a rule: the line that says which.
    Refused(List<u8>),
    /// Memory ran out.
    Memory,
    /// The ending, as the text of its certificate.
    Certificate(List<u8>),
    /// The certificate shows its claim: the line that says so.
    Accepted(List<u8>),
    /// The text of a problem that was made.
    Made(List<u8>),
    /// How that problem ends, in three lines.
    Summary(List<u8>),
}

impl Report {
    /// The exit status.
    pub fn status(&self) -> u8
        ensures { result ≡ status_of self.now }
    {
        match self {
            Report::Usage => 2,
            Report::ReadProblem => 3,
            Report::ReadCertificate => 3,
            Report::Text(_) => 5,
            Report::Long => 6,
            Report::LongCertificate => 6,
            Report::Limit(_) => 6,
            Report::Leaves(_) => 7,
            Report::Spent(_) => 8,
            Report::Refused(_) => 9,
            Report::Memory => 10,
            Report::Certificate(_) => 0,
            Report::Accepted(_) => 0,
            Report::Made(_) => 0,
            Report::Summary(_) => 0,
        }
    }

    /// Writes the report. `Failed`, where the sink failed before it had taken all.
    pub fn write<O: Sink>(&self, out: &mut O) -> Result<(), Failed>
        ensures ok { OnOk result (Appends (O.taken out.old) (O.taken out.new) (text_of self.now)) }
        ensures err { OnErr result (AppendsFront (O.taken out.old) (O.taken out.new) (text_of self.now)) }
        ensures cause { HasCause (O.faults out.old) (O.faults out.new) result }
    {
        match self {
            Report::Usage => write_all(
                out,
                b"usage: qyas solve FILE [--nodes N] | check FILE CERT | gen NUMBER SIZE [--solve]\n",
            ),
            Report::ReadProblem => write_all(out, b"read problem\n"),
            Report::ReadCertificate => write_all(out, b"read certificate\n"),
            Report::Text(why) => write_all(out, why.as_slice()),
            Report::Long => write_all(out, b"limit problem\n"),
            Report::LongCertificate => write_all(out, b"limit certificate\n"),
            Report::Limit(why) => write_all(out, why.as_slice()),
            Report::Leaves(at) => write_all(out, at.as_slice()),
            Report::Spent(journal) => write_spent(journal.entries(), out),
            Report::Refused(why) => write_all(out, why.as_slice()),
            Report::Memory => write_all(out, b"memory\n"),
            Report::Certificate(text) => write_all(out, text.as_slice()),
            Report::Accepted(claim) => write_all(out, claim.as_slice()),
            Report::Made(text) => write_all(out, text.as_slice()),
            Report::Summary(text) => write_all(out, text.as_slice()),
        }
    }
}
