//! Exact fractions whose numerator and denominator have 128 bits. No call takes memory.
//!
//! `Frac` is a fraction in lowest terms, and contracts see it as a `Fraction` of `qm_math`. An operation answers the
//! exact result in lowest terms, or `Leaves`: the operation and the operands whose result, or a number on the way to
//! it, is out of range.
//! Public clauses cite `specs/Lowest` (lowest terms and the range), `Arithmetic` (what each operation answers, and
//! where a sum fits), `Checked` (the same as an answer or `Leaves`, for evaluations in steps), `Order`, `Signs` and
//! `Gcd`. `laws` says that these are the operations multiplied out.
#![tactic(auto)]

mod frac;
mod gcds;
mod laws;
mod leaves;
mod numbers;
mod orders;
mod products;
mod sums;

pub use frac::{Frac, over_one};
pub use gcds::gcd;
pub use laws::{
    checked_values_are_exact, checked_values_are_fractions, gcd_is_greatest, quotient_times_divisor,
};
pub use leaves::{Leaves, Op};
