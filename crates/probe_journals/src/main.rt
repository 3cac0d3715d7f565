//! Answers each line of standard input about legality and journals for the game of a text, which is written between quotes
//! or in hexadecimal (`bytes_of` in `probe_words`), as `enough "MAX x ST ORDER x END"`.
//! `legal` tells whether the value of the universal player that is set in the ranges behind the text, as `0..0 0..1 depth 1`,
//! can be completed to a play, or for `depth 0` whether there is a play; `asked` the latter with a journal of at most so many
//! entries, as `limit 5`, and the entries that were made; `plays` the same of the empty prefix and then of each value of the
//! universal player behind a legal one. `lawful` tells whether entries are a lawful journal, as `of g 0 1 / q 1 0`, and
//! `enough` how many entries are enough.
//!
//! `first_unlawful` goes along the entries (`lawful`): what each stands for (`stands`), and whether it may append its value,
//! by the play's box (`alive`) or by a question (`questions`) and the rows (`entering`). `enough` counts (`counting`).
#![tactic(auto)]

mod alive;
mod answer;
mod asked;
mod counting;
mod entering;
mod entries;
mod first_values;
mod lawful;
mod legality;
mod plays;
mod prefixes;
mod questions;
mod set_boxes;
mod stands;

use std::io::{self, BufRead, BufReader, BufWriter, Write};

fn main(rt: HostRuntime) -> io::Result<()> {
    let alloc = rt.alloc();
    let mut out = BufWriter::new(alloc, io::writer(&rt))?;
    for line in BufReader::new(alloc, rt.reader())?.lines(alloc) {
        let text = answer::answer(alloc, line?.as_str())?;
        writeln!(out, "{text}")?;
    }
    out.flush()
}
