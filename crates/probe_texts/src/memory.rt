ghost use Rattle.std.specs.Prelude.{◌<◌};

use qm_io::{List, Memory, MemorySink, MemorySource};
use std::alloc::Global;

/// A number, and what stands behind it and a blank.
pub fn numbered(asked: &str) -> Option<(u64, &str)> {
    let (number, asked) = asked.split_once(' ')?;
    Some((number.parse::<u64>().ok()?, asked))
}

/// A source of bytes, which gives at most a piece in one call and fails at one call, counted from 1.
pub fn source_of(
    alloc: Global,
    bytes: &[u8],
    piece: usize,
    failing: u64,
) -> Result<MemorySource, Memory>
    requires { 0 < piece }
{
    let mut list = List::new(alloc);
    list.append(bytes)?;
    let mut reads = List::new(alloc);
    reads.push(failing)?;
    Ok(MemorySource::new(list, piece, reads))
}

/// A sink that takes at most a piece in one call and fails at one call, counted from 1.
pub fn sink_of(alloc: Global, piece: usize, failing: u64) -> Result<MemorySink, Memory>
    requires { 0 < piece }
{
    let mut writes = List::new(alloc);
    writes.push(failing)?;
    Ok(MemorySink::new(alloc, piece, writes))
}
