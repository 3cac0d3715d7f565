ghost use Rattle.std.specs.Prelude.{◌<◌, ◌≤◌, ◌^◌};

use qm_gen::generate;
use qm_io::{List, Memory};
use std::alloc::Global;

/// A number and a size that have a text.
#[derive(Clone, Copy)]
pub struct Made {
    number: u32,
    size: u32,
    ghost below: { number < 2 ^ 31 },
    ghost some: { 1 ≤ size },
    ghost few: { size ≤ 100 },
}

impl Made {
    /// This size, from 1 to 100, and this number below 2^31.
    pub fn new(size: u32, number: u32) -> Option<Made> {
        if number < 0x8000_0000 && 1 <= size && size <= 100 {
            Some(Made { number, size })
        } else {
            None
        }
    }

    /// The size and the number that are written.
    pub fn read(size: &str, number: &str) -> Option<Made> {
        Made::new(size.parse::<u32>().ok()?, number.parse::<u32>().ok()?)
    }

    pub fn number(self) -> u32 {
        self.number
    }

    pub fn size(self) -> u32 {
        self.size
    }

    /// The bytes of the text.
    pub fn bytes(self, alloc: Global) -> Result<List<u8>, Memory> {
        generate(alloc, self.number, self.size)
    }

    /// The text.
    pub fn text(self, alloc: Global) -> Result<String, Memory> {
        let bytes = self.bytes(alloc)?;
        Ok(String::from_utf8_lossy(alloc, bytes.as_slice())?)
    }
}
