ghost use Rattle.std.specs.Prelude.{◌≡◌, ◌+◌, ◌≤◌, ◌++◌, ◌∷◌, [], codes, length, map, OnOk, OnErr};
ghost use Rattle.std.specs.Fmt.{decimal};
ghost use Rattle.std.specs.Io.KnownBytes.{Appends};
ghost use Rattle.qm_io.specs.Bytes.{AppendsFront};
ghost use Rattle.qm_io.specs.Causes.{HasCause};
ghost use Rattle.qm_certfile.specs.Lines.{line_text, text_of};
ghost use Rattle.qm_top.specs.PieceSteps.{IsUnderway};
ghost use Rattle.qm_top.specs.SpentLines.{entry_line, kind_word, spent_text};

use crate::piece::Piece;
use itoa::Buffer;
use qm_io::{Failed, Sink, write_all};
use qm_journal::{JEntry, JKind};

/// The most bytes that a piece has where a line is to be put behind them.
const ROOM: usize = 4000;

fn kind_byte(kind: JKind) -> u8
    ensures { result ∷ [] ≡ kind_word kind }
{
    match kind {
        JKind::Game => b'g',
        JKind::Query => b'q',
        JKind::Step => b'l',
    }
}

/// Appends the line of how many entries there are.
fn append_count(count: usize, piece: &mut Piece)
    requires { length piece.old ≤ 4000 }
    ensures { piece.new ≡ piece.old ++ line_text (codes "spent" ∷ decimal count ∷ []) }
{
    piece.append(b"spent ");
    piece.append(Buffer::new().format(count).as_bytes());
    piece.push(b'\n');
}

/// Appends the line of an entry.
fn append_entry(entry: JEntry, piece: &mut Piece)
    requires { length piece.old ≤ 4000 }
    ensures { piece.new ≡ piece.old ++ line_text (entry_line entry) }
{
    piece.push(kind_byte(entry.kind));
    piece.push(b' ');
    piece.append(Buffer::new().format(entry.parent).as_bytes());
    piece.push(b' ');
    piece.append(Buffer::new().format(entry.value).as_bytes());
    piece.push(b'\n');
}

/// Passes the piece on, and empties it.
fn pass_on<O: Sink>(piece: &mut Piece, out: &mut O) -> Result<(), Failed>
    ensures ok { OnOk result (Appends (O.taken out.old) (O.taken out.new) piece.old) }
    ensures empty { OnOk result (piece.new ≡ []) }
    ensures err { OnErr result (AppendsFront (O.taken out.old) (O.taken out.new) piece.old) }
    ensures cause { HasCause (O.faults out.old) (O.faults out.new) result }
{
    write_all(out, piece.as_slice())?;
    piece.clear();
    Ok(())
}

/// Passes the piece on where it has no room for a line.
fn make_room<O: Sink>(piece: &mut Piece, out: &mut O) -> Result<(), Failed>
    ensures room { OnOk result (length piece.new ≤ 4000) }
    ensures ok { OnOk result (IsUnderway (O.taken out.old) (O.taken out.new) piece.new piece.old) }
    ensures err { OnErr result (AppendsFront (O.taken out.old) (O.taken out.new) piece.old) }
    ensures cause { HasCause (O.faults out.old) (O.faults out.new) result }
{
    if piece.len() > ROOM {
        pass_on(piece, out)
    } else {
        Ok(())
    }
}

/// Writes the lines of the entries behind the piece; the last of them stay in it.
fn write_entries<O: Sink>(entries: &[JEntry], piece: &mut Piece, out: &mut O) -> Result<(), Failed>
    ensures ok { OnOk result (IsUnderway (O.taken out.old) (O.taken out.new) piece.new (piece.old ++ text_of (map entry_line entries.now))) }
    ensures err { OnErr result (AppendsFront (O.taken out.old) (O.taken out.new) (piece.old ++ text_of (map entry_line entries.now))) }
    ensures cause { HasCause (O.faults out.old) (O.faults out.new) result }
{
    for entry in entries {
        make_room(piece, out)?;
        append_entry(*entry, piece);
    }
    Ok(())
}

/// Writes the piece and the last line.
fn write_end<O: Sink>(piece: &mut Piece, out: &mut O) -> Result<(), Failed>
    ensures ok { OnOk result (Appends (O.taken out.old) (O.taken out.new) (piece.old ++ codes "end\n")) }
    ensures err { OnErr result (AppendsFront (O.taken out.old) (O.taken out.new) (piece.old ++ codes "end\n")) }
    ensures cause { HasCause (O.faults out.old) (O.faults out.new) result }
{
    make_room(piece, out)?;
    piece.append(b"end\n");
    pass_on(piece, out)
}

/// Writes the report of a spent journal with these entries, which takes no memory. `Failed`, where the sink failed before
/// it had taken all.
pub fn write_spent<O: Sink>(entries: &[JEntry], out: &mut O) -> Result<(), Failed>
    ensures ok { OnOk result (Appends (O.taken out.old) (O.taken out.new) (spent_text entries.now)) }
    ensures err { OnErr result (AppendsFront (O.taken out.old) (O.taken out.new) (spent_text entries.now)) }
    ensures cause { HasCause (O.faults out.old) (O.faults out.new) result }
{
    let mut piece = Piece::new();
    append_count(entries.len(), &mut piece);
    write_entries(entries, &mut piece, out)?;
    write_end(&mut piece, out)
}
