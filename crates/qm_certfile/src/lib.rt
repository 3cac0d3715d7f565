//! Certificates: how a game ends, with a policy and a refutation that show it, and their text.
//!
//! `write` takes a game and a certificate and gives its text in version 1 (`CertificateLines`): the claim, a universal
//! play, and the trees, a line for each node in the order in which they are judged (`TreeLines`, `Lines`); how rows and
//! variables are named is the version's style (`Styles`). Nothing is lost:
//! `different_certificates_have_different_texts`, where no number has more than 64 digits (`Numbers`), and so where all
//! numbers are of their types (`WellFormed`): `different_well_formed_certificates_have_different_texts`.
//!
//! A certificate that passes (`Passes`) tells how its problem ends, and its policy reaches the value on every universal play:
//! `a_passing_certificate_tells_the_ending`. Its value is in lowest terms: `passing_values_are_in_lowest_terms`. All that
//! it is made of is of its type, so its text has no other: `passing_certificates_are_well_formed`.
#![tactic(auto)]

mod certificate;
mod empty_trees;
mod endings;
mod laws;
mod lines;
mod trees;
mod writer;

pub use certificate::Certificate;
pub use endings::{a_passing_certificate_tells_the_ending, passing_values_are_in_lowest_terms};
pub use laws::{
    different_certificates_have_different_texts,
    different_well_formed_certificates_have_different_texts, passing_certificates_are_well_formed,
};
pub use writer::{claimed, write};
