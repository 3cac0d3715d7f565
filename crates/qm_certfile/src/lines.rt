ghost use Rattle.std.specs.Prelude.{◌≡◌, ◌++◌, ◌∷◌, [], ◌+◌, codes, map, OnOk};
ghost use Rattle.std.specs.Fmt.{decimal, signed_decimal};
ghost use Rattle.qm_text.specs.Numbers.{number_word};
ghost use Rattle.qm_certfile.specs.Lines.{line_text};
ghost use Rattle.qm_certfile.specs.LineSteps.{spaced};
ghost use Rattle.qm_certfile.specs.Styles.{first_style, numbered};
ghost use Rattle.qm_certfile.specs.TreeLines.{close_line, entry_word, objective_words};

use qm_frac::Frac;
use qm_io::{List, Memory};
use qm_model::{Range, RowId};
use qm_text::{write_count, write_frac, write_whole};
use qm_trees::{Combo, Entry};

/// Appends a line of one word.
pub fn write_alone(word: &[u8], out: &mut List<u8>) -> Result<(), Memory>
    ensures { OnOk result (out.new ≡ out.old ++ line_text (word.now ∷ [])) }
{
    out.append(word)?;
    out.push(b'\n')
}

/// Appends a line of a word and a whole number.
pub fn write_value(word: &[u8], value: i64, out: &mut List<u8>) -> Result<(), Memory>
    ensures { OnOk result (out.new ≡ out.old ++ line_text (word.now ∷ signed_decimal value ∷ [])) }
{
    out.append(word)?;
    out.push(b' ')?;
    write_whole(value, out)?;
    out.push(b'\n')
}

/// Appends a line of a word and a count.
pub fn write_parts_line(word: &[u8], count: usize, out: &mut List<u8>) -> Result<(), Memory>
    ensures { OnOk result (out.new ≡ out.old ++ line_text (word.now ∷ decimal count ∷ [])) }
{
    out.append(word)?;
    out.push(b' ')?;
    write_count(count, out)?;
    out.push(b'\n')
}

/// Appends the line of a split: the place of its variable, counted from 1, and a count.
pub fn write_split(var: u32, count: usize, out: &mut List<u8>) -> Result<(), Memory>
    ensures { OnOk result (out.new ≡ out.old ++ line_text (codes "split" ∷ decimal (var + 1) ∷ decimal count ∷ [])) }
{
    out.append(b"split ")?;
    write_count(var as usize + 1, out)?;
    out.push(b' ')?;
    write_count(count, out)?;
    out.push(b'\n')
}

/// Appends the line of a part's range.
pub fn write_range(range: Range, out: &mut List<u8>) -> Result<(), Memory>
    ensures { OnOk result (out.new ≡ out.old ++ line_text (codes "range" ∷ signed_decimal range.low ∷ signed_decimal range.high ∷ [])) }
{
    out.append(b"range ")?;
    write_whole(range.low, out)?;
    out.push(b' ')?;
    write_whole(range.high, out)?;
    out.push(b'\n')
}

/// Appends whole numbers, each behind a space.
fn write_wholes(values: &[i64], out: &mut List<u8>) -> Result<(), Memory>
    ensures { OnOk result (out.new ≡ out.old ++ spaced (map signed_decimal values.now)) }
{
    for value in values {
        out.push(b' ')?;
        write_whole(*value, out)?;
    }
    Ok(())
}

/// Appends fractions, each behind a space.
fn write_fractions(values: &[Frac], out: &mut List<u8>) -> Result<(), Memory>
    ensures { OnOk result (out.new ≡ out.old ++ spaced (map number_word values.now)) }
{
    for value in values {
        out.push(b' ')?;
        write_frac(*value, out)?;
    }
    Ok(())
}

/// Appends the line of the values of a universal play.
pub fn write_legal(values: &[i64], out: &mut List<u8>) -> Result<(), Memory>
    ensures { OnOk result (out.new ≡ out.old ++ line_text (codes "legal" ∷ map signed_decimal values.now)) }
{
    out.append(b"legal")?;
    write_wholes(values, out)?;
    out.push(b'\n')
}

/// Appends the line of a leaf.
pub fn write_leaf(point: &[Frac], out: &mut List<u8>) -> Result<(), Memory>
    ensures { OnOk result (out.new ≡ out.old ++ line_text (codes "leaf" ∷ map number_word point.now)) }
{
    out.append(b"leaf")?;
    write_fractions(point, out)?;
    out.push(b'\n')
}

/// Appends the line of a picked value and its completion.
pub fn write_pick(value: i64, completion: &[i64], out: &mut List<u8>) -> Result<(), Memory>
    ensures { OnOk result (out.new ≡ out.old ++ line_text (codes "pick" ∷ signed_decimal value ∷ map signed_decimal completion.now)) }
{
    out.append(b"pick ")?;
    write_whole(value, out)?;
    write_wholes(completion, out)?;
    out.push(b'\n')
}

/// Appends a row's name.
fn write_row_name(row: RowId, out: &mut List<u8>) -> Result<(), Memory>
    ensures { OnOk result (out.new ≡ out.old ++ numbered row) }
{
    match row {
        RowId::Row(n) => {
            out.push(b'r')?;
            write_count(n as usize + 1, out)
        }
        RowId::Uncertain(n) => {
            out.push(b'u')?;
            write_count(n as usize + 1, out)
        }
        RowId::Cut(n) => {
            out.push(b'c')?;
            write_count(n as usize + 1, out)
        }
    }
}

/// Appends an entry.
fn write_entry(entry: Entry, out: &mut List<u8>) -> Result<(), Memory>
    ensures { OnOk result (out.new ≡ out.old ++ entry_word first_style entry) }
{
    write_row_name(entry.row, out)?;
    out.push(b'=')?;
    write_frac(entry.by, out)
}

/// Appends entries, each behind a space.
fn write_entries(entries: &[Entry], out: &mut List<u8>) -> Result<(), Memory>
    ensures { OnOk result (out.new ≡ out.old ++ spaced (map (entry_word first_style) entries.now)) }
{
    for entry in entries {
        out.push(b' ')?;
        write_entry(*entry, out)?;
    }
    Ok(())
}

/// Appends the word for the objective, where it is in.
fn write_objective(objective: bool, out: &mut List<u8>) -> Result<(), Memory>
    ensures { OnOk result (out.new ≡ out.old ++ spaced (objective_words objective)) }
{
    if objective { out.append(b" o") } else { Ok(()) }
}

/// Appends the line of a combination.
pub fn write_close(combo: &Combo, out: &mut List<u8>) -> Result<(), Memory>
    ensures { OnOk result (out.new ≡ out.old ++ line_text (close_line first_style combo.now)) }
{
    out.append(b"close")?;
    write_objective(combo.objective(), out)?;
    write_entries(combo.entries(), out)?;
    out.push(b'\n')
}
