ghost use Rattle.std.specs.Prelude.{◌≡◌, ◌+◌, ◌<◌, ◌≤◌, ◌^◌, length};
ghost use Rattle.qm_lex.specs.Places.{column_behind, line_behind, place_of};

/// A place in a text: its line and its column, both from 1. A column is a byte.
#[derive(Clone, Copy, Debug, PartialEq, Eq)]
pub struct Place {
    pub line: u32,
    pub column: u32,
}

const FIRST: Place = Place { line: 1, column: 1 };

/// The place of the byte at this index, or of the end of the text.
pub fn place_at(text: &[u8], at: usize) -> Place
    requires inside { at ≤ length text.now }
    requires short { length text.now < 2 ^ 31 }
    ensures { result ≡ place_of text.now at }
{
    place_behind(FIRST, &text[..at])
}

/// The place behind bytes that begin at this place.
pub fn place_behind(start: Place, bytes: &[u8]) -> Place
    requires lines { start.line + length bytes.now < 2 ^ 32 }
    requires columns { start.column + length bytes.now < 2 ^ 32 }
    ensures line { result.line ≡ line_behind start.line bytes.now }
    ensures column { result.column ≡ column_behind start.column bytes.now }
    ensures few_lines { result.line ≤ start.line + length bytes.now }
    ensures few_columns { result.column ≤ start.column + length bytes.now }
{
    let Place {
        mut line,
        mut column,
    } = start;
    for byte in bytes {
        if *byte == b'\n' {
            line += 1;
            column = 1;
        } else {
            column += 1;
        }
    }
    Place { line, column }
}
