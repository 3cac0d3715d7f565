use qm_frac::Frac;

/// How many pairs of operands there are.
pub const PAIRS: usize = 50;

/// What kind of numbers an operation is given.
#[derive(Clone, Copy)]
pub enum Operands {
    Whole,
    Small,
    Wide,
}

/// The two operands of an operation.
#[derive(Clone, Copy)]
pub struct Pair {
    pub left: Frac,
    pub right: Frac,
}

// Numbers that are the same in each run.
#[derive(Drop)]
struct Random {
    state: u64,
}

impl Random {
    // A number of 40 bits.
    fn next(&mut self) -> u64 {
        let state = self.state;
        self.state = state
            .wrapping_mul(6364136223846793005)
            .wrapping_add(1442695040888963407);
        self.state >> 24
    }

    fn up_to(&mut self, most: u64) -> i128 {
        let n = self.next();
        if most == 0 {
            0
        } else {
            i128::from(n % most + 1)
        }
    }

    // A number of 80 bits.
    fn great(&mut self) -> i128 {
        let high = i128::from(self.next());
        let low = i128::from(self.next());
        high.wrapping_mul(0x100_0000_0000).wrapping_add(low)
    }
}

impl Operands {
    pub fn read(word: &str) -> Option<Operands> {
        match word {
            "whole" => Some(Operands::Whole),
            "small" => Some(Operands::Small),
            "wide" => Some(Operands::Wide),
            _ => None,
        }
    }

    /// Pairs of operands of this kind. Wide ones have 100 bits; what they share keeps a sum, and a product
    /// with the second turned round, in range.
    pub fn pairs(self) -> [Pair; PAIRS] {
        let one = Frac::whole(1);
        let mut pairs = [Pair {
            left: one,
            right: one,
        }; PAIRS];
        let mut random = Random { state: 1 };
        for pair in pairs.iter_mut() {
            *pair = match self {
                Operands::Whole => whole_pair(&mut random),
                Operands::Small => small_pair(&mut random),
                Operands::Wide => wide_pair(&mut random),
            };
        }
        pairs
    }
}

fn over(num: i128, den: i128) -> Frac {
    if den == 0 {
        Frac::whole(1)
    } else {
        Frac::of(num, den).unwrap_or(Frac::whole(1))
    }
}

fn whole_pair(random: &mut Random) -> Pair {
    Pair {
        left: over(random.up_to(1_000_000_000), 1),
        right: over(random.up_to(1_000_000_000).wrapping_neg(), 1),
    }
}

fn small_pair(random: &mut Random) -> Pair {
    Pair {
        left: over(random.up_to(1000), random.up_to(1000)),
        right: over(random.up_to(1000).wrapping_neg(), random.up_to(1000)),
    }
}

fn wide_pair(random: &mut Random) -> Pair {
    let num = random.great();
    let den = random.great();
    Pair {
        left: over(
            num.wrapping_mul(random.up_to(1_000_000)),
            den.wrapping_mul(random.up_to(1_000_000)),
        ),
        right: over(
            num.wrapping_mul(random.up_to(1_000_000)).wrapping_neg(),
            den.wrapping_mul(random.up_to(1_000_000)),
        ),
    }
}
