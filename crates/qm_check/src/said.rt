ghost use Rattle.std.specs.Prelude.{◌≡◌, ◌∷◌, ◌≤◌, [], IfOk, codes, length};
ghost use Rattle.qm_model.specs.Points.{continuous_vars};
ghost use Rattle.qm_certfile.specs.Styles.{first_style};
ghost use Rattle.qm_certread.specs.Nodes.{Leaf};
ghost use Rattle.qm_certread.specs.Pieces.{words_of};
ghost use Rattle.qm_certread.specs.SaidSteps.{GivesNode};
ghost use Rattle.qm_certread.specs.Spelling.{each_of, fraction_word};
ghost use Rattle.qm_certread.specs.Forms.{policy_said, said_as, said_behind};
ghost use Rattle.qm_check.specs.PolicySaid.{CanEnd, CanSay, policy_node};

use qm_certread::{Unread, continuous_count, count_said, player_at, value_said, values_said};
use qm_frac::Frac;
use qm_io::List;
use qm_model::{Player, Problem};
use std::alloc::Global;

/// A line of a policy.
#[derive(Debug, Drop)]
pub(crate) enum PolicySaid {
    Choose(i64),
    Answer(u32),
    Leaf(List<Frac>),
}

/// A line of a policy where all whole variables are set.
fn leaf_said(alloc: Global, problem: &Problem, line: &[u8]) -> Result<PolicySaid, Unread>
    requires { problem.now.wholes ≤ length problem.now.vars }
    ensures said { GivesNode policy_node result (said_as Leaf (said_behind (codes "leaf" ∷ []) (each_of fraction_word (length (continuous_vars problem.now))) (words_of line.now))) }
    ensures long { IfOk result (CanEnd problem.now) }
{
    match values_said(alloc, b"leaf", continuous_count(problem), line) {
        Ok(point) => Ok(PolicySaid::Leaf(point)),
        Err(unread) => Err(unread),
    }
}

/// A line of a policy where so many variables are set.
pub(crate) fn policy_said(
    alloc: Global,
    problem: &Problem,
    depth: usize,
    line: &[u8],
) -> Result<PolicySaid, Unread>
    requires { problem.now.wholes ≤ length problem.now.vars }
    ensures said { GivesNode policy_node result (policy_said first_style problem.now depth (words_of line.now)) }
    ensures fits { IfOk result (CanSay problem.now depth) }
{
    match player_at(problem, depth) {
        None => leaf_said(alloc, problem, line),
        Some(Player::Exists) => match value_said(b"choose", line) {
            Ok(value) => Ok(PolicySaid::Choose(value)),
            Err(misread) => Err(Unread::Misread(misread)),
        },
        Some(Player::All) => match count_said(b"answer", line) {
            Ok(count) => Ok(PolicySaid::Answer(count)),
            Err(misread) => Err(Unread::Misread(misread)),
        },
    }
}
