ghost use Rattle.std.specs.Prelude.{◌≡◌, ◌≤◌, ◌^◌, ◌<◌, Err, length};
ghost use Rattle.qm_io.specs.Causes.{Rose};
ghost use Rattle.qm_check.specs.declared.verdict.CheckFault.TheVariants as fault;
ghost use Rattle.qm_check.specs.Checking.{IsChecked, IsToldOf};

use crate::text::judge;
use crate::text_fault::TextFault;
use crate::verdict::{CheckFault, Verdict};
use qm_io::{ReadFault, Source, Whole, read_all};
use qm_model::Game;
use std::alloc::Global;

/// As many bytes as a certificate may have.
const MOST: usize = 268_435_456;

/// What is told of the text.
fn told(alloc: Global, game: &Game, text: &[u8]) -> Result<Verdict, CheckFault>
    requires { length text.now ≤ 268435456 }
    ensures { IsToldOf game.now text.now result }
{
    match judge(alloc, game, text) {
        Ok(claim) => Ok(Verdict::Accepted(claim)),
        Err(TextFault::Broken(line, rule)) => Ok(Verdict::Refused(line, rule)),
        Err(TextFault::Leaves(line, leaves)) => Err(CheckFault::Leaves(line, leaves)),
        Err(TextFault::Memory) => Err(CheckFault::Memory),
    }
}

/// Checks a certificate of the game, which the source gives: it is accepted exactly where no line is at fault, and else
/// the first that is, with its rule or the operation that leaves. All is read before, so that `Read` and `Limit` come
/// before any verdict.
pub fn check<S: Source>(alloc: Global, game: &Game, source: &mut S) -> Result<Verdict, CheckFault>
    ensures checked { IsChecked game.now (S.rest source.old) (S.rest source.new) 268435456 result }
    ensures later { S.faults source.old ≤ S.faults source.new }
    ensures read { result ≡ Err fault.Read → Rose (S.faults source.old) (S.faults source.new) }
{
    match read_all(alloc, source, MOST) {
        Ok(Whole::Bytes(text)) => told(alloc, game, text.as_slice()),
        Ok(Whole::Longer) => Err(CheckFault::Limit),
        Err(ReadFault::Read) => Err(CheckFault::Read),
        Err(ReadFault::Memory) => Err(CheckFault::Memory),
    }
}
