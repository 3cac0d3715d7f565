//! Answers each line of standard input about runs of linear programs for the game of a text, which is written between
//! quotes or in hexadecimal (`bytes_of` in `probe_words`): over its whole box, or over the box of the ranges behind the
//! text, one for each variable, as `run "MAX x ST ORDER x END" 0..1`.
//! `run` tells how its relaxation ends, with the cuts that stand behind `with`, as `1x1+1x3<=1`.
//! `relax` tells what the relaxation of a box tells for a goal, which stands before the ranges: `any`, or a value that is to
//! be exceeded; `scenario` the same where the values behind `| scenario` are fixed; `relax_point` and `scenario_point` with a
//! point.
//! `solve` tells the certificate, its lines joined by ` / `, or the prefix whose leaf run leaves, with the pivots and the
//! operation.
#![tactic(auto)]

mod answer;
mod ends;
mod relaxations;
mod solved;

use std::io::{self, BufRead, BufReader, BufWriter, Write};

fn main(rt: HostRuntime) -> io::Result<()> {
    let alloc = rt.alloc();
    let mut out = BufWriter::new(alloc, io::writer(&rt))?;
    for line in BufReader::new(alloc, rt.reader())?.lines(alloc) {
        let text = answer::answer(alloc, line?.as_str())?;
        writeln!(out, "{text}")?;
    }
    out.flush()
}
