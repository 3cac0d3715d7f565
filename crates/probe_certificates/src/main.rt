//! Answers each line of standard input about combinations, trees and certificates for the game of a text, which is written
//! between quotes or in hexadecimal (`bytes_of` in `probe_words`): over its whole box, or over the box of the ranges behind
//! the text, one for each variable, as `empty "MAX x ST ORDER x END" 0..1 by close`, with the cuts that stand behind `with`,
//! as `1x1+1x3<=1`.
//! `combination` tells what a combination comes to that is written as in certificates, as `close o r1=1/2`, or whether it
//! closes a goal, as `for any` or `for above 3`; `empty` whether a tree passes, given `by` its lines, joined by ` / `.
//! `policy` tells whether a policy passes, as `reaching 2 by choose 0 / leaf`, and `refute` whether a refutation does, as
//! `for above 2 by close o`; `write` the text of a certificate that is told by its parts, as `of 0 |  | leaf | close o`.
#![tactic(auto)]

mod answer;
mod certificates;
mod combinations;
mod combos;
mod empties;
mod policies;
mod refutations;
mod trees;

use std::io::{self, BufRead, BufReader, BufWriter, Write};

fn main(rt: HostRuntime) -> io::Result<()> {
    let alloc = rt.alloc();
    let mut out = BufWriter::new(alloc, io::writer(&rt))?;
    for line in BufReader::new(alloc, rt.reader())?.lines(alloc) {
        let text = answer::answer(alloc, line?.as_str())?;
        writeln!(out, "{text}")?;
    }
    out.flush()
}
