use std::alloc::{AllocError, Global};

/// The first line of a text, without its end.
pub fn first_line(alloc: Global, text: &[u8]) -> Result<String, AllocError> {
    match text.split(|byte| *byte == b'\n').next() {
        Some(line) => String::from_utf8_lossy(alloc, line),
        None => Ok(String::new(alloc)),
    }
}

/// A text in one line: ` /` where a line ends, and a blank before what goes on.
pub fn one_line(alloc: Global, text: &[u8]) -> Result<String, AllocError> {
    let mut out = String::new(alloc);
    for (number, line) in text.split(|byte| *byte == b'\n').enumerate() {
        if number > 0 {
            out.push_str(" /")?;
            if !line.is_empty() {
                out.push(' ')?;
            }
        }
        out.push_str(String::from_utf8_lossy(alloc, line)?.as_str())?;
    }
    Ok(out)
}
