ghost use Rattle.qm_simplex.specs.RunSteps.{IsStep, RunsTo};

use crate::stuck::Stuck;
use crate::{LeavePlace, LpFault, RunLeaves};
use qm_io::{List, Memory};
use qm_tableau::{Choice, LeavesAt, Tableau};
use std::alloc::Global;

/// How a run ends.
#[derive(Clone, Copy, Debug, PartialEq, Eq)]
pub enum Ending {
    /// No constant is negative.
    Best,
    /// The constant of this row can't be raised to 0.
    Void(u32),
}

/// The pivots of a run, and how it ends behind them.
#[derive(Debug, Drop)]
pub struct Finished {
    pub pivots: List<(u32, u32)>,
    pub ending: Ending,
}

/// Makes the rule's next pivot and puts it in the list, or tells how the run ends here.
fn step(tableau: &mut Tableau, pivots: &mut List<(u32, u32)>) -> Result<Option<Ending>, Stuck>
    ensures { IsStep tableau.old pivots.old result tableau.new pivots.new }
{
    match tableau.choose() {
        Err(LeavesAt { row, col, leaves }) => {
            Err(Stuck::Leaves(LeavePlace::Quotient(row, col), leaves))
        }
        Ok(Choice::Done) => Ok(Some(Ending::Best)),
        Ok(Choice::VoidRow(row)) => Ok(Some(Ending::Void(row))),
        Ok(Choice::Pivot(row, col)) => {
            pivots.push((row, col))?;
            match tableau.pivot(row, col) {
                Err(LeavesAt { row, col, leaves }) => {
                    Err(Stuck::Leaves(LeavePlace::Entry(row, col), leaves))
                }
                Ok(()) => Ok(None),
            }
        }
    }
}

/// Pivots by the rule until it names none. `Leaves`, where an operation leaves; the tableau then is as it was before
/// that pivot.
#[tactic(auto, using(crate::proofs::EndingRuns::pivots_lead_on))]
pub fn run(alloc: Global, tableau: &mut Tableau) -> Result<Finished, LpFault>
    ensures { RunsTo tableau.old result tableau.new }
{
    let mut pivots = List::new(alloc);
    loop {
        let _count = pivots.len();
        match step(tableau, &mut pivots) {
            Ok(None) => {}
            Ok(Some(ending)) => return Ok(Finished { pivots, ending }),
            Err(Stuck::Leaves(at, leaves)) => {
                return Err(LpFault::Leaves(RunLeaves { pivots, at, leaves }));
            }
            Err(Stuck::Memory) => return Err(LpFault::Memory),
        }
    }
}
