ghost use Rattle.std.specs.Prelude.{◌≡◌, ◌+◌, ◌≤◌, length, IfOk, OnOk, OnErr, IsErrOf};
ghost use Rattle.std.specs.Io.KnownBytes.{Appends};
ghost use Rattle.qm_io.specs.Causes.{HasCause, Rose};
ghost use Rattle.qm_io.specs.Bytes.{TookSome, AppendsFront};
ghost use Rattle.qm_io.specs.Whole.{IsWhole};

use crate::{Failed, List, Sink, Source};
use std::alloc::Global;

/// A whole input, or the news that it is longer than was allowed.
#[derive(Debug, Drop)]
pub enum Whole {
    /// The input to its end.
    Bytes(List<u8>),
    /// More bytes came than were allowed.
    Longer,
}

/// Why an input could not be read to its end.
#[derive(Clone, Copy, Debug, PartialEq, Eq)]
pub enum ReadFault {
    /// The source failed.
    Read,
    /// Memory ran out.
    Memory,
}

const PIECE: usize = 4096;

/// Reads to the end of the input, or until one more byte than `most` came.
/// `Read`, where the source failed, and `Memory`, where there is none for the bytes.
pub fn read_all<S: Source>(alloc: Global, source: &mut S, most: usize) -> Result<Whole, ReadFault>
    ensures whole { IfOk result (IsWhole (S.rest source.old) (S.rest source.new) most) }
    ensures err { OnErr result (TookSome (S.rest source.old) (S.rest source.new) most) }
    ensures later { S.faults source.old ≤ S.faults source.new }
    ensures read { IsErrOf result ReadFault.Read → Rose (S.faults source.old) (S.faults source.new) }
{
    let mut bytes = List::new(alloc);
    let mut buf = [0u8; PIECE];
    loop {
        let left = most - bytes.len();
        let room = if left < PIECE { left + 1 } else { PIECE };
        let n = match source.read(&mut buf[..room]) {
            Ok(n) => n,
            Err(Failed) => return Err(ReadFault::Read),
        };
        if n == 0 {
            return Ok(Whole::Bytes(bytes));
        }
        if n > left {
            return Ok(Whole::Longer);
        }
        if bytes.append(&buf[..n]).is_err() {
            return Err(ReadFault::Memory);
        }
    }
}

/// Writes all of the text. `Failed`, where the sink failed before it had taken all.
pub fn write_all<S: Sink>(sink: &mut S, text: &[u8]) -> Result<(), Failed>
    ensures ok { OnOk result (Appends (S.taken sink.old) (S.taken sink.new) text.now) }
    ensures err { OnErr result (AppendsFront (S.taken sink.old) (S.taken sink.new) text.now) }
    ensures cause { HasCause (S.faults sink.old) (S.faults sink.new) result }
{
    let mut at = 0;
    while at < text.len() {
        at += sink.write(&text[at..])?;
    }
    Ok(())
}
