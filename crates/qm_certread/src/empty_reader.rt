ghost use Rattle.std.specs.Prelude.{◌≡◌, ◌≤◌, ◌∷◌, [], length, map, IfOk, IfErr, OnOk};
ghost use Rattle.qm_certread.specs.Dues.{Empty, ranges};
ghost use Rattle.qm_certread.specs.NodesOf.{empty_nodes, empty_part_nodes, in_turn};
ghost use Rattle.qm_certread.specs.ReadSteps.{Fails, FailsPart, IsIn, Meets, MeetsPart};

use crate::cursor::Cursor;
use crate::fault::CertFault;
use crate::next::{next_empty, next_range};
use crate::said::EmptySaid;
use qm_model::Problem;
use qm_trees::{Empty as Tree, EmptyPart};
use sqlite_items::Items;
use std::alloc::Global;

/// Reads an empty tree that may split variables from this position on.
#[cycle(read_empties)]
pub(crate) fn read_empty(
    alloc: Global,
    problem: &Problem,
    least: usize,
    text: &[u8],
    cursor: &mut Cursor,
) -> Result<Tree, CertFault>
    requires wholes { problem.now.wholes ≤ length problem.now.vars }
    requires place { IsIn text.now cursor.old }
    ensures place { OnOk result (IsIn text.now cursor.new) }
    ensures ok { IfOk result (λ tree. Meets problem.now text.now (Empty least ∷ []) (empty_nodes tree) cursor.old cursor.new) }
    ensures err { IfErr result (λ e. Fails problem.now text.now (Empty least ∷ []) cursor.old e) }
{
    let said = next_empty(alloc, problem, least, text, cursor)?;
    match said {
        EmptySaid::Close(combo) => Ok(Tree::Close(combo)),
        EmptySaid::Split { var, count } => {
            let parts = read_empty_parts(alloc, problem, count, var as usize + 1, text, cursor)?;
            Ok(Tree::Split { var, parts })
        }
    }
}

/// Reads so many parts.
#[cycle(read_empties)]
fn read_empty_parts(
    alloc: Global,
    problem: &Problem,
    count: u32,
    least: usize,
    text: &[u8],
    cursor: &mut Cursor,
) -> Result<Items<EmptyPart>, CertFault>
    requires wholes { problem.now.wholes ≤ length problem.now.vars }
    requires place { IsIn text.now cursor.old }
    ensures place { OnOk result (IsIn text.now cursor.new) }
    ensures count { IfOk result (λ parts. length parts ≡ count) }
    ensures ok { IfOk result (λ parts. Meets problem.now text.now (ranges count (Empty least)) (in_turn (map empty_part_nodes parts)) cursor.old cursor.new) }
    ensures err { IfErr result (λ e. Fails problem.now text.now (ranges count (Empty least)) cursor.old e) }
{
    let mut parts = Items::new(alloc);
    for turn in 0..count {
        let part = read_empty_part(alloc, problem, least, text, cursor)?;
        if parts.push(part).is_err() {
            return Err(CertFault::Memory);
        }
    }
    Ok(parts)
}

/// Reads a part.
#[cycle(read_empties)]
fn read_empty_part(
    alloc: Global,
    problem: &Problem,
    least: usize,
    text: &[u8],
    cursor: &mut Cursor,
) -> Result<EmptyPart, CertFault>
    requires wholes { problem.now.wholes ≤ length problem.now.vars }
    requires place { IsIn text.now cursor.old }
    ensures place { OnOk result (IsIn text.now cursor.new) }
    ensures ok { IfOk result (λ part. MeetsPart problem.now text.now (Empty least) (empty_part_nodes part) cursor.old cursor.new) }
    ensures err { IfErr result (λ e. FailsPart problem.now text.now (Empty least) cursor.old e) }
{
    let range = next_range(text, cursor)?;
    let below = read_empty(alloc, problem, least, text, cursor)?;
    Ok(EmptyPart { range, below })
}
