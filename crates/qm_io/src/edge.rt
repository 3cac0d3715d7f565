// The system's streams and files, the trusted edge: what they give and take no contract tells.
ghost use Rattle.std.specs.Prelude.{◌≡◌, None, IfSome, IfNone, IsErr};
ghost use Rattle.std.specs.Io.{ReadsAtMost};
ghost use Rattle.qm_io.specs.Causes.{HasCause, next_count};

use crate::{Failed, Sink, Source};
use std::fs::File;
use std::io::{self, Read, Write};
use std::rt::Files;

// What the system gave or took, with its failure counted.
fn count_failure(answer: Option<usize>, faults: &mut u64) -> Result<usize, Failed>
    ensures some { IfSome answer (λ n. (result ≡ Ok n) × (faults.new ≡ faults.old)) }
    ensures none { IfNone answer (IsErr result × (faults.new ≡ next_count faults.old)) }
    ensures cause { HasCause faults.old faults.new result }
{
    let Some(n) = answer else {
        *faults = faults.saturating_add(1);
        return Err(Failed);
    };
    Ok(n)
}

/// Standard input. A failed read is a fault.
#[derive(Drop)]
pub struct StdSource<R: Input> {
    reader: R::Reader,
    faults: u64,
}

impl<R: Input> StdSource<R> {
    /// Standard input, which has not failed yet.
    pub fn new(rt: &R) -> Self
        ensures { ⟦<StdSource<R> as Source>⟧.faults result ≡ 0 }
    {
        StdSource {
            reader: rt.reader(),
            faults: 0,
        }
    }
}

impl<R: Input> Source for StdSource<R> {
    ghost rest = { λ _. None };

    ghost faults = { λ s. s.faults };

    fn read(&mut self, buf: &mut [u8]) -> Result<usize, Failed> {
        count_failure(self.reader.read(buf).ok(), &mut self.faults)
    }
}

/// Standard output. A failed write is a fault, and so is one that takes nothing of a piece that isn't empty.
#[derive(Drop)]
pub struct StdSink<'a, R: Print> {
    rt: &'a R,
    faults: u64,
}

impl<'a, R: Print> StdSink<'a, R> {
    /// Standard output, which has not failed yet.
    pub fn new(rt: &'a R) -> Self
        ensures { ⟦<StdSink<'a, R> as Sink>⟧.faults result ≡ 0 }
    {
        StdSink { rt, faults: 0 }
    }
}

impl<R: Print> Sink for StdSink<'_, R> {
    ghost taken = { λ _. None };

    ghost faults = { λ s. s.faults };

    fn write(&mut self, buf: &[u8]) -> Result<usize, Failed> {
        let taken = match io::writer(self.rt).write(buf) {
            Ok(n) if n > 0 || buf.is_empty() => Some(n),
            _ => None,
        };
        count_failure(taken, &mut self.faults)
    }
}

/// A file, which is opened at its first read. A failed read is a fault, and so is a failed opening.
#[derive(Drop)]
pub struct FileSource<'a, R: Files> {
    rt: &'a R,
    path: String,
    file: Option<R::File>,
    faults: u64,
}

impl<'a, R: Files> FileSource<'a, R> {
    /// The file of this path, which is not opened yet and has not failed.
    pub fn new(rt: &'a R, path: String) -> Self
        ensures { ⟦<FileSource<'a, R> as Source>⟧.faults result ≡ 0 }
    {
        FileSource {
            rt,
            path,
            file: None,
            faults: 0,
        }
    }

    // The file, which is opened if it isn't yet.
    fn take_or_open(&mut self) -> io::Result<R::File>
        ensures { self.new.faults ≡ self.old.faults }
    {
        match self.file.take() {
            Some(file) => Ok(file),
            None => File::open(self.rt, self.path.as_str()),
        }
    }

    // Opens the file if it isn't yet, and reads on in it.
    fn read_on(&mut self, buf: &mut [u8]) -> io::Result<usize>
        ensures bound { ReadsAtMost result buf.new }
        ensures faults { self.new.faults ≡ self.old.faults }
    {
        let mut file = self.take_or_open()?;
        let result = file.read(buf);
        self.file = Some(file);
        result
    }
}

impl<R: Files> Source for FileSource<'_, R> {
    ghost rest = { λ _. None };

    ghost faults = { λ s. s.faults };

    fn read(&mut self, buf: &mut [u8]) -> Result<usize, Failed> {
        count_failure(self.read_on(buf).ok(), &mut self.faults)
    }
}
