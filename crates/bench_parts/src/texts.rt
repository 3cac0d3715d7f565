use qm_lex::tokens;
use std::alloc::{AllocError, Global};

/// The most bytes of a text that has tokens.
pub const MOST: usize = 0x7FFF_FFFF;

/// A row of fifty bytes.
const ROW: &[u8] = b"row_17: 12.5 plant_7 + 3e2 x[4] - y <= 40 \\ a row\n";

/// How many tokens a text of so many thousand bytes has; none where it is too long to have any.
pub fn tokens_in(alloc: Global, thousands: u32) -> Result<usize, AllocError> {
    let mut text = Vec::new(alloc);
    for _ in 0..thousands {
        for _ in 0..20 {
            text.extend_from_slice(ROW)?;
        }
    }
    if text.len() > MOST {
        return Ok(0);
    }
    match tokens(alloc, &text) {
        Ok(tokens) => Ok(tokens.len()),
        Err(_) => Ok(0),
    }
}
