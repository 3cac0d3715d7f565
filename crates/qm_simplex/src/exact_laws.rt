ghost use Rattle.std.specs.Prelude.{◌≡◌, suc, List, All, Ok, length};
ghost use Rattle.qm_math.specs.Fraction.{HasPositiveDen};
ghost use Rattle.qm_tableau.specs.declared.choice.Choice.{Choice};
ghost use Rattle.qm_tableau.specs.Exact.{AreSameTables};
ghost use Rattle.qm_tableau.specs.Rule.{chosen};
ghost use Rattle.qm_tableau.specs.Tables.{Table};
ghost use Rattle.qm_simplex.specs.Exact.{LeadsExactly, exact_choice};
ghost use Rattle.qm_simplex.specs.Runs.{Leads, Pivot};

/// As long as no operation leaves, the run has the pivots of the run in unbounded fractions and the same numbers, and the
/// rule names the same.
#[tactic(auto, using(crate::proofs::ExactRuns::runs_exact))]
pub fn runs_are_exact()
    ensures { (t last : Table) (pivots : List Pivot) → All (λ row. length row ≡ suc (length t.columns)) t.rows →
        All (λ row. All HasPositiveDen row) t.rows → Leads t pivots last → (u : Table) × LeadsExactly t pivots u ×
        AreSameTables last u × ((named : Choice) → chosen last ≡ Ok named → exact_choice u ≡ named) }
{}
