ghost use Rattle.std.specs.Prelude.{◌≡◌, ◌+◌, ◌++◌, ◌∷◌, [], codes, IfOk, OnOk};
ghost use Rattle.std.specs.Fmt.{decimal};
ghost use Rattle.qm_certfile.specs.Lines.{line_text};
ghost use Rattle.qm_top.specs.FaultLines.{limit_line, text_line};

use qm_io::{List, Memory};
use qm_lex::Place;
use qm_text::write_count;
use std::alloc::Global;

/// Appends `text`, and the line and the column of a place.
fn write_place(at: Place, out: &mut List<u8>) -> Result<(), Memory>
    ensures { OnOk result (out.new ≡ out.old ++ codes "text " ++ decimal at.line ++ 32 ∷ decimal at.column) }
{
    out.append(b"text ")?;
    write_count(at.line as usize, out)?;
    out.push(b' ')?;
    write_count(at.column as usize, out)
}

/// The line of a fault at a place.
pub fn kind_line(alloc: Global, at: Place, kind: &[u8]) -> Result<List<u8>, Memory>
    ensures { IfOk result (λ line. line ≡ text_line at (kind.now ∷ [])) }
{
    let mut line = List::new(alloc);
    write_place(at, &mut line)?;
    line.push(b' ')?;
    line.append(kind)?;
    line.push(b'\n')?;
    Ok(line)
}

/// The line of a fault at a place, and what it is about.
pub fn named_line(alloc: Global, at: Place, kind: &[u8], name: &[u8]) -> Result<List<u8>, Memory>
    ensures { IfOk result (λ line. line ≡ text_line at (kind.now ∷ name.now ∷ [])) }
{
    let mut line = List::new(alloc);
    write_place(at, &mut line)?;
    line.push(b' ')?;
    line.append(kind)?;
    line.push(b' ')?;
    line.append(name)?;
    line.push(b'\n')?;
    Ok(line)
}

/// The line of a limit that is exceeded, and by what.
pub fn limit_line(alloc: Global, limit: &[u8], by: &[u8]) -> Result<List<u8>, Memory>
    ensures { IfOk result (λ line. line ≡ limit_line (limit.now ∷ by.now ∷ [])) }
{
    let mut line = List::new(alloc);
    line.append(b"limit ")?;
    line.append(limit)?;
    line.push(b' ')?;
    line.append(by)?;
    line.push(b'\n')?;
    Ok(line)
}

/// The line of a number that is above its limit.
pub fn many_line(alloc: Global, limit: &[u8], number: u64) -> Result<List<u8>, Memory>
    ensures { IfOk result (λ line. line ≡ limit_line (limit.now ∷ decimal number ∷ [])) }
{
    let mut line = List::new(alloc);
    line.append(b"limit ")?;
    line.append(limit)?;
    line.push(b' ')?;
    write_count(number as usize, &mut line)?;
    line.push(b'\n')?;
    Ok(line)
}

/// The line of a row that is too wide, by its number from 0.
pub fn wide_row_line(alloc: Global, section: &[u8], number: u32) -> Result<List<u8>, Memory>
    ensures { IfOk result (λ line. line ≡ limit_line (codes "wide" ∷ section.now ∷ decimal (number + 1) ∷ [])) }
{
    let mut line = List::new(alloc);
    line.append(b"limit wide ")?;
    line.append(section)?;
    line.push(b' ')?;
    write_count(number as usize + 1, &mut line)?;
    line.push(b'\n')?;
    Ok(line)
}

/// The line of the row of a variable's exact bound that is too wide.
pub fn wide_bound_line(alloc: Global, name: &[u8]) -> Result<List<u8>, Memory>
    ensures { IfOk result (λ line. line ≡ limit_line (codes "wide" ∷ codes "bound" ∷ name.now ∷ [])) }
{
    let mut line = List::new(alloc);
    line.append(b"limit wide bound ")?;
    line.append(name)?;
    line.push(b'\n')?;
    Ok(line)
}
