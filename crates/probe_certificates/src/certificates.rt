use crate::policies::{fraction, policy_of};
use crate::refutations::refutation_of;
use crate::trees::tree_of;
use probe_words::{NoAnswer, one_line, wholes_of};
use qm_certfile::{Certificate, write};
use qm_game::Game;
use std::alloc::{AllocError, Global};

/// The text of the certificate of these words, in one line; whether it passes isn't asked.
pub fn written_line(alloc: Global, game: &Game, words: &str) -> Result<String, AllocError> {
    match certificate_of(alloc, words) {
        Ok(certificate) => match write(alloc, game, &certificate) {
            Ok(text) => one_line(alloc, text.as_slice()),
            Err(_) => String::from_str(alloc, "memory"),
        },
        Err(why) => String::from_str(alloc, why.line()),
    }
}

// `VALUE | LEGAL | POLICY | REFUTATION`, `infeasible | LEGAL | REFUTATION` or `empty | TREE`.
fn certificate_of(alloc: Global, words: &str) -> Result<Certificate, NoAnswer> {
    let (claim, rest) = parted(words)?;
    if claim.starts_with("empty") {
        return Ok(Certificate::Empty(tree_of(alloc, rest)?));
    }
    let (legal, rest) = parted(rest)?;
    let legal = wholes_of(alloc, legal)?;
    if claim.starts_with("infeasible") {
        return Ok(Certificate::Infeasible {
            legal,
            refute: refutation_of(alloc, rest)?,
        });
    }
    let (policy, refute) = parted(rest)?;
    Ok(Certificate::Optimal {
        value: fraction(claim)?,
        legal,
        policy: policy_of(alloc, policy)?,
        refute: refutation_of(alloc, refute)?,
    })
}

fn parted(words: &str) -> Result<(&str, &str), NoAnswer> {
    words.split_once(" | ").ok_or(NoAnswer::Spelling)
}
