ghost use Rattle.std.specs.Prelude.{◌≡◌, ◌/◌, ◌<◌, ◌^◌};
ghost use Rattle.qm_gen.specs.Draws.{next_state};

/// Numbers that are drawn one behind the other; the state decides all that come.
#[derive(Drop)]
pub(crate) struct Draws {
    pub(crate) state: u64,
    ghost below: { state < 2 ^ 31 },
}

impl Draws {
    /// The draws of a number.
    pub(crate) fn new(number: u32) -> Draws
        requires { number < 2 ^ 31 }
        ensures { result.state ≡ number }
    {
        Draws {
            state: u64::from(number),
        }
    }

    /// Draws a number of 15 bits.
    pub(crate) fn draw(&mut self) -> u32
        ensures state { self.new.state ≡ next_state self.old.state }
        ensures drawn { result ≡ self.new.state / 65536 }
    {
        self.state = (self.state * 1_103_515_245 + 12_345) % 0x8000_0000;
        (self.state / 0x1_0000) as u32
    }
}
