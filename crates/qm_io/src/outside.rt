ghost use Rattle.std.specs.Prelude.{List, ℕ};
ghost use Rattle.std.specs.declared.option.Option.{Option};
ghost use Rattle.std.specs.Io.{ReadsAtMost, WritesAtMost};
ghost use Rattle.std.specs.Io.KnownBytes.{ReadConsumes, WriteAppends};
ghost use Rattle.qm_io.specs.Causes.{HasCause};
ghost use Rattle.qm_io.specs.Bytes.{EndsExactly, TakesSome};

/// The outside failed: a read or a write was not done.
#[derive(Clone, Copy, Debug, PartialEq, Eq)]
pub struct Failed;

/// Bytes that come from outside.
pub trait Source {
    /// The bytes still to come, where the source tells them. One that tells them goes on telling them.
    ghost rest: { Self → Option (List ℕ) };

    /// How often the source has failed, up to the last value of its counter.
    ghost faults: { Self → ℕ };

    /// Puts the next bytes at the front of the buffer, and says how many. None, into a buffer with room,
    /// is the end of input. `Failed`, where the source failed: no byte is lost then.
    fn read(&mut self, buf: &mut [u8]) -> Result<usize, Failed>
        ensures bound { ReadsAtMost result buf.new }
        ensures bytes { ReadConsumes (rest self.old) (rest self.new) result buf.new }
        ensures end { EndsExactly (rest self.old) result buf.new }
        ensures cause { HasCause (faults self.old) (faults self.new) result };
}

/// A place outside that takes bytes.
pub trait Sink {
    /// The bytes taken so far, where the sink tells them. One that tells them goes on telling them.
    ghost taken: { Self → Option (List ℕ) };

    /// How often the sink has failed, up to the last value of its counter.
    ghost faults: { Self → ℕ };

    /// Takes a front of the piece, at least a byte of one that isn't empty, and says how long it is.
    /// `Failed`, where the sink failed: no byte is taken then.
    fn write(&mut self, buf: &[u8]) -> Result<usize, Failed>
        ensures bound { WritesAtMost result buf.now }
        ensures some { TakesSome result buf.now }
        ensures bytes { WriteAppends (taken self.old) (taken self.new) result buf.now }
        ensures cause { HasCause (faults self.old) (faults self.new) result };
}
