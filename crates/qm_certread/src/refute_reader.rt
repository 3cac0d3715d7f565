ghost use Rattle.std.specs.Prelude.{◌≡◌, ◌≤◌, ◌∷◌, [], length, map, IfOk, IfErr, OnOk};
ghost use Rattle.qm_certread.specs.Dues.{Refute, ranges};
ghost use Rattle.qm_certread.specs.NodesOf.{in_turn, refute_nodes, refute_part_nodes};
ghost use Rattle.qm_certread.specs.ReadSteps.{Fails, FailsPart, IsIn, Meets, MeetsPart};

use crate::cursor::Cursor;
use crate::fault::CertFault;
use crate::next::{next_range, next_refute};
use crate::said::RefuteSaid;
use qm_model::Problem;
use qm_trees::{Refute as Tree, RefutePart};
use sqlite_items::{Boxed, Items};
use std::alloc::Global;

/// Reads a refutation where so many variables are set.
#[cycle(read_refutes)]
pub(crate) fn read_refute(
    alloc: Global,
    problem: &Problem,
    depth: usize,
    text: &[u8],
    cursor: &mut Cursor,
) -> Result<Tree, CertFault>
    requires wholes { problem.now.wholes ≤ length problem.now.vars }
    requires place { IsIn text.now cursor.old }
    ensures place { OnOk result (IsIn text.now cursor.new) }
    ensures ok { IfOk result (λ tree. Meets problem.now text.now (Refute depth ∷ []) (refute_nodes tree) cursor.old cursor.new) }
    ensures err { IfErr result (λ e. Fails problem.now text.now (Refute depth ∷ []) cursor.old e) }
{
    // that it has 32 bits
    let _wholes = problem.wholes;
    let said = next_refute(alloc, problem, depth, text, cursor)?;
    match said {
        RefuteSaid::Close(combo) => Ok(Tree::Close(combo)),
        RefuteSaid::Over(count) => {
            let parts = read_refute_parts(alloc, problem, count, depth + 1, text, cursor)?;
            Ok(Tree::Over { parts })
        }
        RefuteSaid::Pick { value, completion } => {
            let tree = read_refute(alloc, problem, depth + 1, text, cursor)?;
            match Boxed::new(alloc, tree) {
                Ok(below) => Ok(Tree::Pick {
                    value,
                    completion,
                    below,
                }),
                Err(_) => Err(CertFault::Memory),
            }
        }
    }
}

/// Reads so many parts.
#[cycle(read_refutes)]
fn read_refute_parts(
    alloc: Global,
    problem: &Problem,
    count: u32,
    depth: usize,
    text: &[u8],
    cursor: &mut Cursor,
) -> Result<Items<RefutePart>, CertFault>
    requires wholes { problem.now.wholes ≤ length problem.now.vars }
    requires place { IsIn text.now cursor.old }
    ensures place { OnOk result (IsIn text.now cursor.new) }
    ensures count { IfOk result (λ parts. length parts ≡ count) }
    ensures ok { IfOk result (λ parts. Meets problem.now text.now (ranges count (Refute depth)) (in_turn (map refute_part_nodes parts)) cursor.old cursor.new) }
    ensures err { IfErr result (λ e. Fails problem.now text.now (ranges count (Refute depth)) cursor.old e) }
{
    let mut parts = Items::new(alloc);
    for turn in 0..count {
        let part = read_refute_part(alloc, problem, depth, text, cursor)?;
        if parts.push(part).is_err() {
            return Err(CertFault::Memory);
        }
    }
    Ok(parts)
}

/// Reads a part.
#[cycle(read_refutes)]
fn read_refute_part(
    alloc: Global,
    problem: &Problem,
    depth: usize,
    text: &[u8],
    cursor: &mut Cursor,
) -> Result<RefutePart, CertFault>
    requires wholes { problem.now.wholes ≤ length problem.now.vars }
    requires place { IsIn text.now cursor.old }
    ensures place { OnOk result (IsIn text.now cursor.new) }
    ensures ok { IfOk result (λ part. MeetsPart problem.now text.now (Refute depth) (refute_part_nodes part) cursor.old cursor.new) }
    ensures err { IfErr result (λ e. FailsPart problem.now text.now (Refute depth) cursor.old e) }
{
    let range = next_range(text, cursor)?;
    let below = read_refute(alloc, problem, depth, text, cursor)?;
    Ok(RefutePart { range, below })
}
