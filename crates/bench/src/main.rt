//! Does one kind of work many times on made problems (`bench_made`), and prints a number or two that it comes to, so that none
//! of it can be left out. It is timed from outside (`bench/run`). Its first word says what is done:
//! - `made`, the size and the number of a made problem, and how many times its text is made;
//! - `pivots`, the shape of a made problem, as `12-dense` or `30-sparse`, and how many pairs of pivots are tried on its first
//!   tableau, the second of each taking the first back;
//! - `runs` or `sparse-runs`, the size and the number of a made problem, and how many times its relaxation is
//!   solved; as with `pivots` the last number is how many pivots left whole numbers over one denominator a row;
//! - `solve`, the size and the number of a made problem, and how many times its game is solved;
//! - `leaves` or `sparse-leaves`, the size and the number of a made problem with one leaf, and how many times it is
//!   solved; or `leaf-runs` or `sparse-leaf-runs` for the run of this leaf's relaxation alone;
//! - `file`, the path of a problem's file and a budget of entries: its game is solved once;
//! - `boxes`, and how the boxes along a random play of a made problem are gone through (`Play`).
#![tactic(auto)]

mod answer;
mod asked;
mod files;
mod mixed;
mod relaxations;
mod runs;
mod solved;
mod tableaus;
mod texts;

use qm_io::{FileSource, Memory, Source};
use std::alloc::{AllocError, Global};
use std::{env, io};

fn main(rt: HostRuntime) -> io::Result<()> {
    let alloc = rt.alloc();
    let words: Vec<String> = env::args(&rt)?.skip(1).collect(alloc)?;
    let mut file = FileSource::new(&rt, path(alloc, words.as_slice())?);
    let line = line(alloc, words.as_slice(), &mut file)?;
    println!(rt; "{line}")
}

// The second word, as the path of a file that is opened only when it is read.
fn path(alloc: Global, words: &[String]) -> Result<String, AllocError> {
    match words.get(1) {
        Some(word) => word.clone(),
        None => Ok(String::new(alloc)),
    }
}

// The answer, and what stands for it where memory runs out.
fn line<S: Source>(alloc: Global, words: &[String], file: &mut S) -> Result<String, AllocError> {
    match answer::answer(alloc, words, file) {
        Ok(line) => Ok(line),
        Err(Memory) => String::from_str(alloc, "memory"),
    }
}
