ghost use Rattle.std.specs.Prelude.{◌≡◌, ◌≤◌, ◌∷◌, [], length, map, IfOk, IfErr, OnOk};
ghost use Rattle.qm_certread.specs.Dues.{Below, Policy, ranges};
ghost use Rattle.qm_certread.specs.NodesOf.{below_nodes, in_turn, policy_nodes, policy_part_nodes};
ghost use Rattle.qm_certread.specs.ReadSteps.{Fails, FailsPart, IsIn, Meets, MeetsPart};

use crate::cursor::Cursor;
use crate::empty_reader::read_empty;
use crate::fault::CertFault;
use crate::next::{next_count, next_range, next_value, next_values, take_illegal};
use crate::places::{continuous_count, player_at};
use qm_model::{Player, Problem};
use qm_trees::{Below as Under, Policy as Tree, PolicyPart};
use sqlite_items::{Boxed, Items};
use std::alloc::Global;

/// Reads a policy where so many variables are set.
#[cycle(read_policies)]
pub(crate) fn read_policy(
    alloc: Global,
    problem: &Problem,
    depth: usize,
    text: &[u8],
    cursor: &mut Cursor,
) -> Result<Tree, CertFault>
    requires wholes { problem.now.wholes ≤ length problem.now.vars }
    requires place { IsIn text.now cursor.old }
    ensures place { OnOk result (IsIn text.now cursor.new) }
    ensures ok { IfOk result (λ policy. Meets problem.now text.now (Policy depth ∷ []) (policy_nodes policy) cursor.old cursor.new) }
    ensures err { IfErr result (λ e. Fails problem.now text.now (Policy depth ∷ []) cursor.old e) }
{
    // that it has 32 bits
    let _wholes = problem.wholes;
    match player_at(problem, depth) {
        None => {
            let count = continuous_count(problem);
            let point = next_values(alloc, b"leaf", count, text, cursor)?;
            Ok(Tree::Leaf { point })
        }
        Some(Player::Exists) => {
            let value = next_value(b"choose", text, cursor)?;
            let policy = read_policy(alloc, problem, depth + 1, text, cursor)?;
            match Boxed::new(alloc, policy) {
                Ok(below) => Ok(Tree::Choose { value, below }),
                Err(_) => Err(CertFault::Memory),
            }
        }
        Some(Player::All) => {
            let count = next_count(b"answer", text, cursor)?;
            let parts = read_policy_parts(alloc, problem, count, depth + 1, text, cursor)?;
            Ok(Tree::Answer { parts })
        }
    }
}

/// Reads so many parts.
#[cycle(read_policies)]
fn read_policy_parts(
    alloc: Global,
    problem: &Problem,
    count: u32,
    depth: usize,
    text: &[u8],
    cursor: &mut Cursor,
) -> Result<Items<PolicyPart>, CertFault>
    requires wholes { problem.now.wholes ≤ length problem.now.vars }
    requires place { IsIn text.now cursor.old }
    ensures place { OnOk result (IsIn text.now cursor.new) }
    ensures count { IfOk result (λ parts. length parts ≡ count) }
    ensures ok { IfOk result (λ parts. Meets problem.now text.now (ranges count (Below depth)) (in_turn (map policy_part_nodes parts)) cursor.old cursor.new) }
    ensures err { IfErr result (λ e. Fails problem.now text.now (ranges count (Below depth)) cursor.old e) }
{
    let mut parts = Items::new(alloc);
    for turn in 0..count {
        let part = read_policy_part(alloc, problem, depth, text, cursor)?;
        if parts.push(part).is_err() {
            return Err(CertFault::Memory);
        }
    }
    Ok(parts)
}

/// Reads a part.
#[cycle(read_policies)]
fn read_policy_part(
    alloc: Global,
    problem: &Problem,
    depth: usize,
    text: &[u8],
    cursor: &mut Cursor,
) -> Result<PolicyPart, CertFault>
    requires wholes { problem.now.wholes ≤ length problem.now.vars }
    requires place { IsIn text.now cursor.old }
    ensures place { OnOk result (IsIn text.now cursor.new) }
    ensures ok { IfOk result (λ part. MeetsPart problem.now text.now (Below depth) (policy_part_nodes part) cursor.old cursor.new) }
    ensures err { IfErr result (λ e. FailsPart problem.now text.now (Below depth) cursor.old e) }
{
    let range = next_range(text, cursor)?;
    let below = read_below(alloc, problem, depth, text, cursor)?;
    Ok(PolicyPart { range, below })
}

/// Reads what stands below a range.
#[cycle(read_policies)]
fn read_below(
    alloc: Global,
    problem: &Problem,
    depth: usize,
    text: &[u8],
    cursor: &mut Cursor,
) -> Result<Under, CertFault>
    requires wholes { problem.now.wholes ≤ length problem.now.vars }
    requires place { IsIn text.now cursor.old }
    ensures place { OnOk result (IsIn text.now cursor.new) }
    ensures ok { IfOk result (λ below. Meets problem.now text.now (Below depth ∷ []) (below_nodes below) cursor.old cursor.new) }
    ensures err { IfErr result (λ e. Fails problem.now text.now (Below depth ∷ []) cursor.old e) }
{
    if take_illegal(text, cursor) {
        let tree = read_empty(alloc, problem, 0, text, cursor)?;
        return Ok(Under::Illegal(tree));
    }
    let policy = read_policy(alloc, problem, depth, text, cursor)?;
    Ok(Under::On(policy))
}
