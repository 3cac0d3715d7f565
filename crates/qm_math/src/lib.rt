//! Definitions and laws of whole numbers, fractions, ranges and sums. Nothing here speaks of variables or games.
//!
//! Each law that other crates rest on is the contract of a function without a body. Fractions (`specs/Fraction`,
//! `Arithmetic`) form an ordered field up to being the same number: `field`, `order`, `laws`. What is said of sums
//! (`Sums`, `Totals`, `Over`) is in `adding`, of values over ranges (`Ranges`, `Ends`) in `boxes`, of rounding
//! (`Rounding`) in `floors`, of finite sets (`Counts`) in `counting`.
//! `tables` (`Combinations`, `Pivots`) has the half of Farkas' lemma that makes a combination of rows a proof: with
//! multipliers that are not negative it bounds, and where it contradicts a box no point meets the rows. It also has
//! the rounding of whole rows, as in the cuts of Chvátal and Gomory, and that a pivot keeps every row. `columns`
//! (`Lexicographic`) says that pivots keep columns lexicographically negative and lower them, by which Gomory's
//! dual method ends.
#![tactic(auto)]

mod adding;
mod boxes;
mod columns;
mod counting;
mod field;
mod floors;
mod laws;
mod order;
mod signs;
mod tables;

pub use adding::{
    sums_of_fractions, sums_of_whole_numbers, sums_over_one_denominator,
    the_sums_of_a_double_sum_exchange,
};
pub use boxes::{multiples_lie_between_the_ends, values_over_a_box_lie_between_the_ends};
pub use columns::{
    a_pivot_keeps_columns_negative, a_pivot_lowers_a_column, lists_of_fractions_are_ordered,
};
pub use counting::{distinct_lists_within, distinct_numbers_below};
pub use field::{
    denominators_stay_positive, fractions_divide, fractions_form_a_ring,
    the_same_fractions_give_the_same, whole_numbers_are_fractions,
};
pub use floors::{a_fraction_has_one_ceiling, a_fraction_has_one_floor};
pub use laws::{fractions_compare, least_product_is_a_bound};
pub use order::{
    orders_of_fractions_are_divided, orders_of_fractions_are_kept,
    strict_orders_of_fractions_are_kept,
};
pub use signs::products_of_whole_numbers_keep_orders;
pub use tables::{
    a_combination_bounds, a_combination_has_the_rows_values, a_combination_refutes,
    a_pivot_is_linear, a_pivot_keeps_every_row, a_shift_keeps_every_row,
    a_whole_row_is_rounded_down,
};
