ghost use Rattle.std.specs.Prelude.{◌≡◌, ◌++◌, OnOk};
ghost use Rattle.qm_certfile.specs.Lines.{line_text};
ghost use Rattle.qm_certread.specs.Fits.{line_of};
ghost use Rattle.qm_certread.specs.SaidSteps.{claim_node};

use qm_certread::Claim;
use qm_io::{List, Memory};
use qm_text::write_frac;

/// Appends the line of a claim, as a certificate begins with it.
pub fn write_claim(claim: Claim, out: &mut List<u8>) -> Result<(), Memory>
    ensures { OnOk result (out.new ≡ out.old ++ line_text (line_of (claim_node claim))) }
{
    match claim {
        Claim::Optimal(value) => {
            out.append(b"optimal ")?;
            write_frac(value, out)?;
            out.push(b'\n')
        }
        Claim::Infeasible => out.append(b"infeasible\n"),
        Claim::NoPlay => out.append(b"empty\n"),
    }
}
