//! The outside, as two traits. A `Source` gives bytes and a `Sink` takes them; their contracts say which bytes pass, and
//! count the calls that fail (`specs/Causes`, `specs/Bytes`).
//! The main calls are `read_all`, which reads an input to its end or until more than a limit came, and `write_all`, which
//! writes a text in as many calls as it takes; both tell a failing call (`specs/Whole`).
//! `MemorySource` and `MemorySink` tell their bytes, give them in pieces and fail where they are told to
//! (`specs/Memory`): with them a caller's proof and program show what would happen outside. `StdSource`, `StdSink` and
//! `FileSource` are the system's streams and files, which tell none.
//! `List` is the project's growing list, which contracts see as the list of its items; `Memory` says that there was no
//! room.
#![tactic(auto)]

mod calls;
mod edge;
mod list;
mod memory;
mod outside;
mod whole;

pub use edge::{FileSource, StdSink, StdSource};
pub use list::{List, Memory};
pub use memory::{MemorySink, MemorySource};
pub use outside::{Failed, Sink, Source};
pub use whole::{ReadFault, Whole, read_all, write_all};

#[cfg(test)]
mod tests;
