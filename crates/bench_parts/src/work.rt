use crate::answer::unasked;
use crate::operands::{Operands, Pair};
use qm_frac::{Frac, Leaves, gcd};
use std::alloc::{AllocError, Global};
use std::cmp::Ordering;

// What is timed. A plain operation is the one on 128 bits with checks against overflow: for whole numbers
// the operation alone, for fractions the products crosswise and one greatest common divisor.
#[derive(Clone, Copy)]
enum Work {
    Add,
    Sub,
    Mul,
    Div,
    Cmp,
    Floor,
    PlainAdd,
    PlainMul,
    PlainCmp,
}

impl Work {
    fn read(word: &str) -> Option<Work> {
        match word {
            "add" => Some(Work::Add),
            "sub" => Some(Work::Sub),
            "mul" => Some(Work::Mul),
            "div" => Some(Work::Div),
            "cmp" => Some(Work::Cmp),
            "floor" => Some(Work::Floor),
            "plain-add" => Some(Work::PlainAdd),
            "plain-mul" => Some(Work::PlainMul),
            "plain-cmp" => Some(Work::PlainCmp),
            _ => None,
        }
    }
}

// A number made of all the answers. Each turn does the work twenty times for each pair.
fn answers(work: Work, pairs: &[Pair], thousands: u32) -> u64 {
    match work {
        Work::Add => repeated(pairs, thousands, |p| bits(p.left.add(p.right))),
        Work::Sub => repeated(pairs, thousands, |p| bits(p.left.sub(p.right))),
        Work::Mul => repeated(pairs, thousands, |p| bits(p.left.mul(p.right))),
        Work::Div => repeated(pairs, thousands, |p| quotient(p)),
        Work::Cmp => repeated(pairs, thousands, |p| order(p.left.cmp(p.right))),
        Work::Floor => repeated(pairs, thousands, |p| low(p.left.floor())),
        Work::PlainAdd => repeated(pairs, thousands, |p| plain_sum(p)),
        Work::PlainMul => repeated(pairs, thousands, |p| plain_product(p)),
        Work::PlainCmp => repeated(pairs, thousands, |p| plain_order(p)),
    }
}

/// A number made of all the answers.
pub fn work_line(
    alloc: Global,
    work: &str,
    operands: &str,
    thousands: &str,
) -> Result<String, AllocError> {
    match (
        Work::read(work),
        Operands::read(operands),
        thousands.parse::<u32>().ok(),
    ) {
        (Some(work), Some(operands), Some(thousands)) => {
            let sum = answers(work, &operands.pairs(), thousands);
            format!(in alloc; "{sum}")
        }
        _ => unasked(alloc),
    }
}

fn repeated<F: Fn(Pair) -> u64 + Drop>(pairs: &[Pair], thousands: u32, step: F) -> u64
    requires { F.IsAlwaysCallable step }
{
    let mut sum: u64 = 0;
    for _ in 0..thousands {
        for _ in 0..20 {
            for pair in pairs {
                sum = sum.rotate_left(1) ^ step(*pair);
            }
        }
    }
    sum
}

fn low(n: i128) -> u64 {
    low_half(n.unsigned_abs())
}

fn low_half(n: u128) -> u64 {
    (n & 0xFFFF_FFFF_FFFF_FFFF) as u64
}

fn bits(answer: Result<Frac, Leaves>) -> u64 {
    match answer {
        Ok(value) => low(value.num()) ^ low(value.den()),
        Err(_) => 1,
    }
}

fn order(order: Ordering) -> u64 {
    match order {
        Ordering::Less => 1,
        Ordering::Equal => 2,
        Ordering::Greater => 3,
    }
}

fn quotient(pair: Pair) -> u64 {
    if pair.right.num() == 0 {
        0
    } else {
        bits(pair.left.div(pair.right))
    }
}

fn plain_sum(pair: Pair) -> u64 {
    let (a, b) = (pair.left.num(), pair.left.den());
    let (c, d) = (pair.right.num(), pair.right.den());
    if b == 1 && d == 1 {
        return plain_bits(a.checked_add(c), Some(1));
    }
    let left = a.checked_mul(d).unwrap_or(0);
    let right = c.checked_mul(b).unwrap_or(0);
    over_divisor(left.checked_add(right), b.checked_mul(d))
}

fn plain_product(pair: Pair) -> u64 {
    let (a, b) = (pair.left.num(), pair.left.den());
    let (c, d) = (pair.right.num(), pair.right.den());
    if b == 1 && d == 1 {
        return plain_bits(a.checked_mul(c), Some(1));
    }
    over_divisor(a.checked_mul(c), b.checked_mul(d))
}

fn plain_order(pair: Pair) -> u64 {
    let (a, b) = (pair.left.num(), pair.left.den());
    let (c, d) = (pair.right.num(), pair.right.den());
    if b == 1 && d == 1 {
        return order(a.cmp(&c));
    }
    let left = a.checked_mul(d).unwrap_or(0);
    let right = c.checked_mul(b).unwrap_or(0);
    order(left.cmp(&right))
}

fn plain_bits(num: Option<i128>, den: Option<i128>) -> u64 {
    match (num, den) {
        (Some(num), Some(den)) => low(num) ^ low(den),
        _ => 1,
    }
}

fn over_divisor(num: Option<i128>, den: Option<i128>) -> u64 {
    match (num, den) {
        (Some(num), Some(den)) => {
            let divisor = gcd(num, den);
            if divisor == 0 {
                0
            } else {
                low_half(num.unsigned_abs() / divisor) ^ low_half(den.unsigned_abs() / divisor)
            }
        }
        _ => 1,
    }
}
