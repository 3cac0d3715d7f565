//! The program: `qyas solve FILE [--nodes N]`, `qyas check FILE CERT` and `qyas gen NUMBER SIZE [--solve]`.
//! Its words, the files that they name and the system's streams go to `run` of `qm_top`, which does all the rest, and whose
//! answer is the exit status. A file is opened only when `run` reads it: wrong words open none, nor does `gen`, and CERT is
//! opened where FILE states a problem. Where the system gives no words or no memory for them, the program says so by a
//! status of its own.
#![tactic(auto)]

ghost use Rattle.std.specs.Prelude.{◌≡◌, [], IfOk, slice_get, string_bytes};
ghost use Rattle.std.specs.Option.{option_map_or};

use qm_io::{FileSource, StdSink, StdSource};
use qm_top::run;
use std::alloc::{AllocError, Global};
use std::process::ExitCode;
use std::{env, io};

/// The exit status where there was no memory for the words.
const NO_MEMORY: u8 = 10;

/// The exit status where the system didn't give the words.
const NO_WORDS: u8 = 13;

/// The word at this place, as a path; an empty one, which is never opened, where there is no such word.
fn path_at(alloc: Global, words: &[String], at: usize) -> Result<String, AllocError>
    ensures { IfOk result (λ path. string_bytes path ≡ option_map_or string_bytes (slice_get words.now at) []) }
{
    match words.get(at) {
        Some(word) => word.clone(),
        None => Ok(String::new(alloc)),
    }
}

fn start(rt: &HostRuntime) -> io::Result<u8> {
    let alloc = rt.alloc();
    let words: Vec<String> = env::args(rt)?.skip(1).collect(alloc)?;
    let mut problem = FileSource::new(rt, path_at(alloc, &words, 1)?);
    let mut certificate = FileSource::new(rt, path_at(alloc, &words, 2)?);
    let mut moves = StdSource::new(rt);
    let mut out = StdSink::new(rt);
    Ok(run(
        alloc,
        &words,
        &mut problem,
        &mut certificate,
        &mut moves,
        &mut out,
    ))
}

fn main(rt: HostRuntime) -> ExitCode {
    match start(&rt) {
        Ok(status) => ExitCode::from(status),
        Err(error) => {
            if error.kind() == io::ErrorKind::OutOfMemory {
                ExitCode::from(NO_MEMORY)
            } else {
                ExitCode::from(NO_WORDS)
            }
        }
    }
}
