use bench_made::Made;

/// A made problem, and how many times something is done with it.
#[derive(Clone, Copy)]
pub struct Asked {
    pub made: Made,
    pub times: u32,
}

impl Asked {
    pub fn read(size: &str, number: &str, times: &str) -> Option<Asked> {
        Some(Asked {
            made: Made::read(size, number)?,
            times: times.parse::<u32>().ok()?,
        })
    }
}
