ghost use Rattle.std.specs.Prelude.{◌≡◌, ◌++◌, ℕ, map, OnOk};
ghost use Rattle.qm_certfile.specs.Lines.{text_of};
ghost use Rattle.qm_certfile.specs.Styles.{first_style};
ghost use Rattle.qm_certfile.specs.TreeLines.{below_lines, joined, policy_lines, policy_part_lines, refute_lines, refute_part_lines};

use crate::empty_trees::write_illegal;
use crate::lines::{
    write_close, write_leaf, write_parts_line, write_pick, write_range, write_value,
};
use qm_io::{List, Memory};
use qm_trees::{Below, Policy, PolicyPart, Refute, RefutePart};

/// Appends the lines of a policy.
#[cycle(write_policies)]
pub fn write_policy(policy: &Policy, out: &mut List<u8>) -> Result<(), Memory>
    ensures { OnOk result ((place : ℕ) → out.new ≡ out.old ++ text_of (policy_lines first_style policy.now place)) }
{
    match policy {
        Policy::Choose { value, below } => {
            write_value(b"choose", *value, out)?;
            write_policy(below.get(), out)
        }
        Policy::Answer { parts } => {
            write_parts_line(b"answer", parts.len(), out)?;
            write_policy_parts(parts.as_slice(), out)
        }
        Policy::Leaf { point } => write_leaf(point.as_slice(), out),
    }
}

/// Appends the lines of a policy's parts.
#[cycle(write_policies)]
fn write_policy_parts(parts: &[PolicyPart], out: &mut List<u8>) -> Result<(), Memory>
    ensures { OnOk result ((place : ℕ) → out.new ≡ out.old ++ text_of (joined (map (policy_part_lines first_style) parts.now) place)) }
{
    for part in parts {
        write_policy_part(part, out)?;
    }
    Ok(())
}

/// Appends the lines of a part of a policy.
#[cycle(write_policies)]
fn write_policy_part(part: &PolicyPart, out: &mut List<u8>) -> Result<(), Memory>
    ensures { OnOk result ((place : ℕ) → out.new ≡ out.old ++ text_of (policy_part_lines first_style part.now place)) }
{
    write_range(part.range, out)?;
    write_below(&part.below, out)
}

/// Appends the lines of what stands below a range.
#[cycle(write_policies)]
fn write_below(below: &Below, out: &mut List<u8>) -> Result<(), Memory>
    ensures { OnOk result ((place : ℕ) → out.new ≡ out.old ++ text_of (below_lines first_style below.now place)) }
{
    match below {
        Below::On(policy) => write_policy(policy, out),
        Below::Illegal(tree) => write_illegal(tree, out),
    }
}

/// Appends the lines of a refutation.
#[cycle(write_refutes)]
pub fn write_refute(tree: &Refute, out: &mut List<u8>) -> Result<(), Memory>
    ensures { OnOk result ((place : ℕ) → out.new ≡ out.old ++ text_of (refute_lines first_style tree.now place)) }
{
    match tree {
        Refute::Over { parts } => {
            write_parts_line(b"over", parts.len(), out)?;
            write_refute_parts(parts.as_slice(), out)
        }
        Refute::Pick {
            value,
            completion,
            below,
        } => {
            write_pick(*value, completion.as_slice(), out)?;
            write_refute(below.get(), out)
        }
        Refute::Close(combo) => write_close(combo, out),
    }
}

/// Appends the lines of a refutation's parts.
#[cycle(write_refutes)]
fn write_refute_parts(parts: &[RefutePart], out: &mut List<u8>) -> Result<(), Memory>
    ensures { OnOk result ((place : ℕ) → out.new ≡ out.old ++ text_of (joined (map (refute_part_lines first_style) parts.now) place)) }
{
    for part in parts {
        write_refute_part(part, out)?;
    }
    Ok(())
}

/// Appends the lines of a part of a refutation.
#[cycle(write_refutes)]
fn write_refute_part(part: &RefutePart, out: &mut List<u8>) -> Result<(), Memory>
    ensures { OnOk result ((place : ℕ) → out.new ≡ out.old ++ text_of (refute_part_lines first_style part.now place)) }
{
    write_range(part.range, out)?;
    write_refute(&part.below, out)
}
