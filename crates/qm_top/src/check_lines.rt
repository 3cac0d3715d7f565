ghost use Rattle.std.specs.Prelude.{◌≡◌, IfOk};
ghost use Rattle.qm_certread.specs.Fits.{line_of};
ghost use Rattle.qm_certread.specs.SaidSteps.{claim_node};
ghost use Rattle.qm_top.specs.CheckLines.{accepted_line, leaves_line, refused_line, rule_word};

use crate::claim_lines::write_claim;
use crate::leave_lines::write_operation;
use qm_certread::Claim;
use qm_frac::Leaves;
use qm_io::{List, Memory};
use qm_text::write_count;
use qm_trees::Rule;
use std::alloc::Global;

/// The line of a text that is accepted, with its claim.
pub fn accepted_line(alloc: Global, claim: Claim) -> Result<List<u8>, Memory>
    ensures { IfOk result (λ line. line ≡ accepted_line (line_of (claim_node claim))) }
{
    let mut line = List::new(alloc);
    line.append(b"accepted ")?;
    write_claim(claim, &mut line)?;
    Ok(line)
}

fn rule_word(rule: Rule) -> &'static [u8]
    ensures { result.now ≡ rule_word rule }
{
    match rule {
        Rule::Text => b"text",
        Rule::Number => b"number",
        Rule::Legal => b"legal",
        Rule::Cut => b"cut",
        Rule::Cover => b"cover",
        Rule::Choose => b"choose",
        Rule::Leaf => b"leaf",
        Rule::Close => b"close",
        Rule::Pick => b"pick",
        Rule::Scenario => b"scenario",
        Rule::Use => b"use",
        Rule::Lemma => b"lemma",
    }
}

/// The line of a text that is refused: the number of its first line at fault, from 1, and the rule that this one breaks.
pub fn refused_line(alloc: Global, number: u32, rule: Rule) -> Result<List<u8>, Memory>
    ensures { IfOk result (λ line. line ≡ refused_line number rule) }
{
    let mut line = List::new(alloc);
    line.append(b"refused ")?;
    write_count(number as usize, &mut line)?;
    line.push(b' ')?;
    line.append(rule_word(rule))?;
    line.push(b'\n')?;
    Ok(line)
}

/// The line of a text with an operation that leaves: the number of its first line at fault, from 1, and the operation.
pub fn leaves_line(alloc: Global, number: u32, leaves: Leaves) -> Result<List<u8>, Memory>
    ensures { IfOk result (λ line. line ≡ leaves_line number leaves) }
{
    let mut line = List::new(alloc);
    line.append(b"leaves ")?;
    write_count(number as usize, &mut line)?;
    write_operation(leaves, &mut line)?;
    line.push(b'\n')?;
    Ok(line)
}
