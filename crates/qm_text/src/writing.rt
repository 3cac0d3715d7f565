ghost use Rattle.std.specs.Prelude.{◌≡◌, ◌++◌, length, take, OnErr, OnOk};
ghost use Rattle.std.specs.Fmt.{decimal, signed_decimal};
ghost use Rattle.qm_text.specs.Numbers.{number_word};

use itoa::Buffer;
use qm_frac::Frac;
use qm_io::{List, Memory};

/// Appends the fraction: `A`, or `A/B` where the denominator isn't 1. `Memory` leaves the text as it was.
pub fn write_frac(f: Frac, out: &mut List<u8>) -> Result<(), Memory>
    ensures ok { OnOk result (out.new ≡ out.old ++ number_word f) }
    ensures err { OnErr result (out.new ≡ out.old) }
{
    let before = out.len();
    let written = write_quotient(f, out);
    if written.is_err() {
        out.truncate(before);
    }
    written
}

fn write_quotient(f: Frac, out: &mut List<u8>) -> Result<(), Memory>
    ensures ok { OnOk result (out.new ≡ out.old ++ number_word f) }
    ensures err { OnErr result (take (length out.old) out.new ≡ out.old) }
{
    out.append(Buffer::new().format(f.num()).as_bytes())?;
    if f.den() == 1 {
        return Ok(());
    }
    out.push(b'/')?;
    out.append(Buffer::new().format(f.den()).as_bytes())
}

/// Appends a whole number. `Memory` leaves the text as it was.
pub fn write_whole(n: i64, out: &mut List<u8>) -> Result<(), Memory>
    ensures ok { OnOk result (out.new ≡ out.old ++ signed_decimal n) }
    ensures err { OnErr result (out.new ≡ out.old) }
{
    out.append(Buffer::new().format(n).as_bytes())
}

/// Appends a count. `Memory` leaves the text as it was.
pub fn write_count(n: usize, out: &mut List<u8>) -> Result<(), Memory>
    ensures ok { OnOk result (out.new ≡ out.old ++ decimal n) }
    ensures err { OnErr result (out.new ≡ out.old) }
{
    out.append(Buffer::new().format(n).as_bytes())
}
