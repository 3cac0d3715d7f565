//! Does one kind of work many times, and prints a number that it comes to, so that none of it can be left out. It is timed
//! from outside (`bench/run`). Its first word says what is done:
//! - an operation of fractions, the kind of the operands and how many thousand times;
//! - `tokens`, and how many thousand bytes of text are cut into tokens; `parse`, and how many thousand terms the text has that
//!   is read;
//! - `entries`, and how many thousand entries are put into a journal.
#![tactic(auto)]

mod answer;
mod entries;
mod operands;
mod parses;
mod texts;
mod work;

use std::{env, io};

fn main(rt: HostRuntime) -> io::Result<()> {
    let alloc = rt.alloc();
    let words: Vec<String> = env::args(&rt)?.skip(1).collect(alloc)?;
    let line = answer::answer(alloc, words.as_slice())?;
    println!(rt; "{line}")
}
