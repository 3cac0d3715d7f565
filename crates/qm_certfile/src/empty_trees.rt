ghost use Rattle.std.specs.Prelude.{◌≡◌, ◌++◌, ℕ, map, OnOk};
ghost use Rattle.qm_certfile.specs.Lines.{text_of};
ghost use Rattle.qm_certfile.specs.Styles.{first_style};
ghost use Rattle.qm_certfile.specs.TreeLines.{empty_lines, empty_part_lines, illegal_lines, joined};

use crate::lines::{write_alone, write_close, write_range, write_split};
use qm_io::{List, Memory};
use qm_trees::{Empty, EmptyPart};

/// Appends the line that calls what follows illegal, and the lines of the tree that shows it.
pub fn write_illegal(tree: &Empty, out: &mut List<u8>) -> Result<(), Memory>
    ensures { OnOk result ((place : ℕ) → out.new ≡ out.old ++ text_of (illegal_lines first_style tree.now place)) }
{
    write_alone(b"illegal", out)?;
    write_empty(tree, out)
}

/// Appends the lines of an empty tree.
#[cycle(write_empties)]
fn write_empty(tree: &Empty, out: &mut List<u8>) -> Result<(), Memory>
    ensures { OnOk result ((place : ℕ) → out.new ≡ out.old ++ text_of (empty_lines first_style tree.now place)) }
{
    match tree {
        Empty::Split { var, parts } => {
            write_split(*var, parts.len(), out)?;
            write_empty_parts(parts.as_slice(), out)
        }
        Empty::Close(combo) => write_close(combo, out),
    }
}

/// Appends the lines of an empty tree's parts.
#[cycle(write_empties)]
fn write_empty_parts(parts: &[EmptyPart], out: &mut List<u8>) -> Result<(), Memory>
    ensures { OnOk result ((place : ℕ) → out.new ≡ out.old ++ text_of (joined (map (empty_part_lines first_style) parts.now) place)) }
{
    for part in parts {
        write_empty_part(part, out)?;
    }
    Ok(())
}

/// Appends the lines of a part of an empty tree.
#[cycle(write_empties)]
fn write_empty_part(part: &EmptyPart, out: &mut List<u8>) -> Result<(), Memory>
    ensures { OnOk result ((place : ℕ) → out.new ≡ out.old ++ text_of (empty_part_lines first_style part.now place)) }
{
    write_range(part.range, out)?;
    write_empty(&part.below, out)
}
