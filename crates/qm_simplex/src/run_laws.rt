ghost use Rattle.std.specs.Prelude.{◌≡◌, ◌<◌, List, length};
ghost use Rattle.qm_model.specs.declared.range.Range.{Range};
ghost use Rattle.qm_model.specs.declared.row.Row.{Row};
ghost use Rattle.qm_model.specs.declared.game.Problem.{Problem};
ghost use Rattle.qm_tableau.specs.Good.{IsGood};
ghost use Rattle.qm_tableau.specs.Tables.{Table};
ghost use Rattle.qm_simplex.specs.Ends.{IsShort, most_pivots};
ghost use Rattle.qm_simplex.specs.Runs.{Leads, Pivot};
ghost use Rattle.qm_simplex.specs.Stops.{Answer, IsRunFrom};

/// A run has one answer.
pub fn runs_have_one_answer()
    ensures { (P : Problem) (cuts : List Row) (bx : List Range) (t : Table) (one other : Answer) → IsRunFrom P cuts bx t one →
        IsRunFrom P cuts bx t other → one ≡ other }
{}

/// The tableaus of a run from a good one are good.
pub fn runs_keep_tableaus_good()
    ensures { (P : Problem) (cuts : List Row) (bx : List Range) (t last : Table) (pivots : List Pivot) → IsGood P cuts bx t →
        Leads t pivots last → IsGood P cuts bx last }
{}

/// From a good tableau on, no two tableaus of a run have the same quantities in their columns: the constants fall from
/// pivot to pivot, and these quantities decide the constants. So there are fewer pivots than 2 to the number of
/// quantities.
pub fn runs_are_short()
    ensures pivots { (P : Problem) (cuts : List Row) (bx : List Range) (t last : Table) (pivots : List Pivot) → IsGood P cuts bx t →
        Leads t pivots last → length pivots < most_pivots P cuts bx }
    ensures answers { (P : Problem) (cuts : List Row) (bx : List Range) (t : Table) (answer : Answer) → IsGood P cuts bx t →
        IsRunFrom P cuts bx t answer → IsShort P cuts bx answer }
{}

/// Each run from a good tableau has an answer.
pub fn runs_end()
    ensures { (P : Problem) (cuts : List Row) (bx : List Range) (t : Table) → IsGood P cuts bx t → (answer : Answer) × IsRunFrom P cuts bx t answer }
{}
