ghost use Rattle.std.specs.Prelude.{◌≡◌, ◌≢◌, ◌≤◌, ℕ, List, map, string_bytes};
ghost use Rattle.std.specs.Io.KnownBytes.{Appends};
ghost use Rattle.qm_io.specs.Causes.{Rose};
ghost use Rattle.qm_top.specs.declared.command.Command.TheVariants.{Check, Solve};
ghost use Rattle.qm_top.specs.Answers.{Failed, IsAnswer, Took};
ghost use Rattle.qm_top.specs.Completeness.{IsDueTo};
ghost use Rattle.qm_top.specs.Readings.{IsUnread, Reading, reading, readings};
ghost use Rattle.qm_top.specs.Report.{status_of, text_of};
ghost use Rattle.qm_top.specs.Words.{Asks};

use crate::check::check;
use crate::command::{Command, command_of};
use crate::made::{make, make_and_solve};
use crate::report::Report;
use crate::solve::solve;
use qm_io::{Sink, Source};
use qm_text::one_decimal_a_word;
use std::alloc::Global;

/// The status where the sink failed.
const WRITE: u8 = 4;

/// What is answered to the words, with the sources of the problem and the certificate at hand.
fn answer<P: Source, C: Source>(
    alloc: Global,
    words: &[String],
    problem: &mut P,
    certificate: &mut C,
) -> Report
    ensures problem { ((nodes : ℕ) → ¬ Asks (Solve nodes) (map string_bytes words.now)) → ¬ Asks Check (map string_bytes words.now) → problem.new ≡ problem.old }
    ensures certificate { ¬ Asks Check (map string_bytes words.now) → certificate.new ≡ certificate.old }
    ensures problem_later { P.faults problem.old ≤ P.faults problem.new }
    ensures certificate_later { C.faults certificate.old ≤ C.faults certificate.new }
    // whatever else there is to read
    ensures answer { (moves : Reading) → IsUnread moves → IsAnswer (map string_bytes words.now)
        (readings (reading (P.rest problem.old) (P.rest problem.new) (P.faults problem.old) (P.faults problem.new))
        (reading (C.rest certificate.old) (C.rest certificate.new) (C.faults certificate.old) (C.faults certificate.new)) moves) (status_of result) (text_of result) }
{
    match command_of(words) {
        None => Report::Usage,
        Some(Command::Solve { nodes }) => solve(alloc, problem, nodes),
        Some(Command::Check) => check(alloc, problem, certificate),
        Some(Command::Gen { number, size }) => make(alloc, number, size),
        Some(Command::GenSolve { number, size }) => make_and_solve(alloc, number, size),
    }
}

/// Does what the words ask for: reads what the command needs of the sources, and writes its report to `out`.
/// The answer is the exit status. `moves` is for a command to come.
pub fn run<P: Source, C: Source, M: Source, O: Sink>(
    alloc: Global,
    words: &[String],
    problem: &mut P,
    certificate: &mut C,
    moves: &mut M,
    out: &mut O,
) -> u8
    // The sink took exactly the text that goes with the status, unless it failed.
    ensures answered { result ≢ 4 → Took (O.taken out.old) (O.taken out.new) (map string_bytes words.now)
        (readings (reading (P.rest problem.old) (P.rest problem.new) (P.faults problem.old) (P.faults problem.new))
        (reading (C.rest certificate.old) (C.rest certificate.new) (C.faults certificate.old) (C.faults certificate.new))
        (reading (M.rest moves.old) (M.rest moves.new) (M.faults moves.old) (M.faults moves.new))) result }
    // It failed, and took a part of what was to be written.
    ensures failed { result ≡ 4 → Failed (O.taken out.old) (O.taken out.new) (O.faults out.old) (O.faults out.new) (map string_bytes words.now)
        (readings (reading (P.rest problem.old) (P.rest problem.new) (P.faults problem.old) (P.faults problem.new))
        (reading (C.rest certificate.old) (C.rest certificate.new) (C.faults certificate.old) (C.faults certificate.new))
        (reading (M.rest moves.old) (M.rest moves.new) (M.faults moves.old) (M.faults moves.new))) }
    // Which of these comes is decided by the words and the bytes, but for want of memory.
    ensures complete { ¬ Rose (O.faults out.old) (O.faults out.new) → (text : List ℕ) × Appends (O.taken out.old) (O.taken out.new) text
        × IsDueTo (map string_bytes words.now) (reading (P.rest problem.old) (P.rest problem.new) (P.faults problem.old) (P.faults problem.new))
        (reading (C.rest certificate.old) (C.rest certificate.new) (C.faults certificate.old) (C.faults certificate.new)) result text }

    // No count of faults falls.
    ensures read_faults { P.faults problem.old ≤ P.faults problem.new }
    ensures certificate_faults { C.faults certificate.old ≤ C.faults certificate.new }
    ensures write_faults { O.faults out.old ≤ O.faults out.new }

    // What the command doesn't use stays as it was.
    ensures problem { ((nodes : ℕ) → ¬ Asks (Solve nodes) (map string_bytes words.now)) → ¬ Asks Check (map string_bytes words.now) → problem.new ≡ problem.old }
    ensures certificate { ¬ Asks Check (map string_bytes words.now) → certificate.new ≡ certificate.old }
    ensures moves { moves.new ≡ moves.old }
{
    one_decimal_a_word();
    let _ = &*moves;
    let report = answer(alloc, words, problem, certificate);
    match report.write(out) {
        Ok(()) => report.status(),
        Err(_) => WRITE,
    }
}
