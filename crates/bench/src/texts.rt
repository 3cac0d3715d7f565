use crate::asked::Asked;
use qm_io::Memory;
use std::alloc::Global;

/// How many bytes the text of the made problem has, which is made so many times.
pub fn made_line(alloc: Global, asked: Asked) -> Result<String, Memory> {
    let mut length = 0;
    for _ in 0..asked.times {
        length = asked.made.bytes(alloc)?.len();
    }
    Ok(format!(in alloc; "{length}")?)
}
