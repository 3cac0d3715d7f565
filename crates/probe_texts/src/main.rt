//! Answers each line of standard input.
//!
//! Of fractions: `add`, `sub`, `mul`, `div`, `cmp`, as `add 1/2 1/3`; `floor`, `ceil`, `neg`, and `write` as certificates
//! do it, as `floor -7/2`; `of` and `gcd` of two whole numbers.
//! Of a text, whose bytes are written between quotes or in hexadecimal (`bytes_of` in `probe_words`): its `tokens`, its
//! `tree`, its `normal` form, its first `fault` or `ok`, as `tokens "2x<=3"`; the end of a `line`, or the `place` of a byte,
//! as `line 0 "ab\n"`; the number that it spells as `decimal`, as `fraction` or as `whole` number.
//! Of a number and a size: the text that is `made` of them, and its `bytes`, as `made 1 3`.
//! Of a certificate's text: what is read of it for a game, as `certificate "MAX 3 ST ORDER END" | "optimal 3\n"`.
//! Of the top call: the status and the text of its `report`, as `report solve f | "MAX x"`, for `check` with the certificate
//! behind the problem, as `report check f c | "MAX 3 ST ORDER END" | "optimal 3\n"`; and so in `pieces` of some bytes, where a
//! read of each source or a write may fail, as `pieces 7 3 0 solve f | "MAX x"`. ` /` stands where a line ends.
//! Of sources and sinks in memory: what comes of a `read` in pieces, what its `calls` give, and what a sink takes that a
//! text is `put` into, as `put 2 0 "hel" | "lo"`.
#![tactic(auto)]

mod answer;
mod certificates;
mod forms;
mod fractions;
mod lines;
mod made;
mod memory;
mod numbers;
mod question;
mod reports;
mod streams;
mod tokens;
mod trees;

use std::io::{self, BufRead, BufReader, BufWriter, Write};

fn main(rt: HostRuntime) -> io::Result<()> {
    let alloc = rt.alloc();
    let mut out = BufWriter::new(alloc, io::writer(&rt))?;
    for line in BufReader::new(alloc, rt.reader())?.lines(alloc) {
        let text = answer::answer(alloc, line?.as_str())?;
        writeln!(out, "{text}")?;
    }
    out.flush()
}
