ghost use Rattle.std.specs.Prelude.{◌≡◌, ◌++◌, ◌∷◌, [], codes, map, IfOk, OnOk};
ghost use Rattle.std.specs.Fmt.{decimal, signed_decimal};
ghost use Rattle.qm_certfile.specs.Lines.{line_text, text_of};
ghost use Rattle.qm_certfile.specs.LineSteps.{spaced};
ghost use Rattle.qm_top.specs.LeaveLines.{leave_text, op_word, operation_words, pivot_line, place_words};

use qm_frac::{Leaves, Op};
use qm_io::{List, Memory};
use qm_search::Leave;
use qm_simplex::LeavePlace;
use qm_text::{write_count, write_frac, write_whole};
use std::alloc::Global;

/// Appends whole numbers, each behind a space.
fn write_wholes(values: &[i64], out: &mut List<u8>) -> Result<(), Memory>
    ensures { OnOk result (out.new ≡ out.old ++ spaced (map signed_decimal values.now)) }
{
    for value in values {
        out.push(b' ')?;
        write_whole(*value, out)?;
    }
    Ok(())
}

/// Appends a number behind a space.
fn write_number(number: u32, out: &mut List<u8>) -> Result<(), Memory>
    ensures { OnOk result (out.new ≡ out.old ++ spaced (decimal number ∷ [])) }
{
    out.push(b' ')?;
    write_count(number as usize, out)
}

/// Appends the line of the prefix.
fn write_prefix(prefix: &[i64], out: &mut List<u8>) -> Result<(), Memory>
    ensures { OnOk result (out.new ≡ out.old ++ line_text (codes "prefix" ∷ map signed_decimal prefix.now)) }
{
    out.append(b"prefix")?;
    write_wholes(prefix, out)?;
    out.push(b'\n')
}

/// Appends the line of a pivot.
fn write_pivot(pivot: (u32, u32), out: &mut List<u8>) -> Result<(), Memory>
    ensures { OnOk result (out.new ≡ out.old ++ line_text (pivot_line pivot)) }
{
    out.append(b"pivot")?;
    write_number(pivot.0, out)?;
    write_number(pivot.1, out)?;
    out.push(b'\n')
}

/// Appends the lines of the pivots.
fn write_pivots(pivots: &[(u32, u32)], out: &mut List<u8>) -> Result<(), Memory>
    ensures { OnOk result (out.new ≡ out.old ++ text_of (map pivot_line pivots.now)) }
{
    for pivot in pivots {
        write_pivot(*pivot, out)?;
    }
    Ok(())
}

/// Appends where the operation belongs, each word behind a space.
fn write_place(at: LeavePlace, out: &mut List<u8>) -> Result<(), Memory>
    ensures { OnOk result (out.new ≡ out.old ++ spaced (place_words at)) }
{
    match at {
        LeavePlace::Quotient(row, column) => {
            out.append(b" quotient")?;
            write_number(row, out)?;
            write_number(column, out)
        }
        LeavePlace::Entry(row, column) => {
            out.append(b" entry")?;
            write_number(row, out)?;
            write_number(column, out)
        }
        LeavePlace::Value => out.append(b" value"),
        LeavePlace::Point(variable) => {
            out.append(b" point")?;
            write_number(variable, out)
        }
        LeavePlace::RowSum(row) => {
            out.append(b" row")?;
            write_number(row, out)
        }
        LeavePlace::Objective => out.append(b" objective"),
        LeavePlace::Combination => out.append(b" combination"),
    }
}

fn op_word(op: Op) -> &'static [u8]
    ensures { result.now ≡ op_word op }
{
    match op {
        Op::Add => b"add",
        Op::Sub => b"sub",
        Op::Mul => b"mul",
        Op::Div => b"div",
    }
}

/// Appends the operation and its operands, each word behind a space.
pub fn write_operation(leaves: Leaves, out: &mut List<u8>) -> Result<(), Memory>
    ensures { OnOk result (out.new ≡ out.old ++ spaced (operation_words leaves)) }
{
    out.push(b' ')?;
    out.append(op_word(leaves.op))?;
    out.push(b' ')?;
    write_frac(leaves.left, out)?;
    out.push(b' ')?;
    write_frac(leaves.right, out)
}

/// Appends the line of the operation that leaves.
fn write_at(at: LeavePlace, leaves: Leaves, out: &mut List<u8>) -> Result<(), Memory>
    ensures { OnOk result (out.new ≡ out.old ++ line_text (codes "at" ∷ place_words at ++ operation_words leaves)) }
{
    out.append(b"at")?;
    write_place(at, out)?;
    write_operation(leaves, out)?;
    out.push(b'\n')
}

/// The report of a number that leaves the range.
pub fn leave_text(alloc: Global, leave: &Leave) -> Result<List<u8>, Memory>
    ensures { IfOk result (λ text. text ≡ leave_text leave.now) }
{
    let mut text = List::new(alloc);
    text.append(b"leaves\n")?;
    write_prefix(leave.prefix.as_slice(), &mut text)?;
    write_pivots(leave.run.pivots.as_slice(), &mut text)?;
    write_at(leave.run.at, leave.run.leaves, &mut text)?;
    text.append(b"end\n")?;
    Ok(text)
}
