use qm_io::List;

/// Who sets a variable.
#[derive(Clone, Copy, Debug, PartialEq, Eq)]
pub enum Player {
    Exists,
    All,
}

/// A variable: its name, who sets it, whether it takes whole values alone, and its two bounds.
#[derive(Debug, Drop)]
pub struct Var {
    pub name: List<u8>,
    pub player: Player,
    pub whole: bool,
    pub low: i64,
    pub high: i64,
}

impl Var {
    ghost use Rattle.std.specs.Prelude.{◌≡◌, pos, true};

    /// A variable with the values 0 and 1.
    pub fn binary(name: List<u8>, player: Player) -> Var
        ensures { result ≡ record { name = name; player = player; whole = true; low = pos 0; high = pos 1 } }
    {
        Var::whole_to(name, player, 1)
    }

    /// A variable with the whole values from 0 to `high`.
    pub fn whole_to(name: List<u8>, player: Player, high: i64) -> Var
        ensures { result ≡ record { name = name; player = player; whole = true; low = pos 0; high = high } }
    {
        Var {
            name,
            player,
            whole: true,
            low: 0,
            high,
        }
    }
}
