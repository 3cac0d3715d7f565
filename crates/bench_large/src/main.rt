//! Does one kind of work many times on a game of 1,000 variables, and prints a number or two that it comes to, so that none of
//! it can be left out. It is timed from outside (`bench/run`). Its first word says what is done, its second how many times:
//! - `propagate`: the game is propagated;
//! - `legal`: legality is asked of it with budgets of the universal player, with a journal;
//! - `first`: its first tableau is made.
#![tactic(auto)]

mod answer;
mod first;
mod games;
mod legality;

use std::{env, io};

fn main(rt: HostRuntime) -> io::Result<()> {
    let alloc = rt.alloc();
    let words: Vec<String> = env::args(&rt)?.skip(1).collect(alloc)?;
    let line = answer::answer(alloc, words.as_slice())?;
    println!(rt; "{line}")
}
