//! Answers each line of standard input about the game of a text, which is written between quotes or in hexadecimal
//! (`bytes_of` in `probe_words`): over its whole box, or over the box of the ranges behind the text, one for each
//! variable, as `rows "MAX x ST ORDER x END" 0..1`.
//! `rows` tells what each row comes to and which is dead; `point` whether each holds `at` values; `propagate` the box that
//! the rows narrow it to, and the reasons; `tableau` the tableau that a run begins with, or that pivots lead to, as
//! `after 5/2`, with the cuts that stand behind `with`, as `1x1+1x3<=1`.
#![tactic(auto)]

mod answer;
mod propagations;
mod rows;
mod tableaus;

use std::io::{self, BufRead, BufReader, BufWriter, Write};

fn main(rt: HostRuntime) -> io::Result<()> {
    let alloc = rt.alloc();
    let mut out = BufWriter::new(alloc, io::writer(&rt))?;
    for line in BufReader::new(alloc, rt.reader())?.lines(alloc) {
        let text = answer::answer(alloc, line?.as_str())?;
        writeln!(out, "{text}")?;
    }
    out.flush()
}
