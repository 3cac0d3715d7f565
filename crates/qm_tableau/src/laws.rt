ghost use Rattle.std.specs.Prelude.{◌≡◌, ◌<◌, ◌≤◌, ◌-◌, ◌<ℤ◌, ℕ, ℤ, suc, Ok, List, [], All, Contains, IsOk, length, map, pos, slice_index_or, slice_set, unsigned_abs};
ghost use Rattle.std.specs.List.{AllZip};
ghost use Rattle.qm_math.specs.Fraction.{Fraction, HasPositiveDen, IsBelow, IsSame, whole};
ghost use Rattle.qm_math.specs.Lexicographic.{IsLexBelow, IsLexNegative};
ghost use Rattle.qm_tableau.specs.Tables.{Table, entry_at, row_at};
ghost use Rattle.qm_tableau.specs.Pivoting.{pivoted};
ghost use Rattle.qm_tableau.specs.Rule.{chosen};
ghost use Rattle.qm_tableau.specs.declared.choice.Choice.TheVariants as choice;
ghost use Rattle.qm_tableau.specs.Columns.{affine_value, column_at};
ghost use Rattle.qm_model.specs.declared.range.Range.{Range};
ghost use Rattle.qm_model.specs.declared.row.Row.{Row};
ghost use Rattle.qm_model.specs.declared.game.Problem.{Problem};
ghost use Rattle.qm_tableau.specs.FirstTable.{first_table};
ghost use Rattle.qm_tableau.specs.Good.{IsGood};
ghost use Rattle.qm_tableau.specs.Exact.{AreSameTables, exact_table};
ghost use Rattle.qm_tableau.specs.Wholes.{AreSmallRows, at_place, fractions_of, updated_row};

/// A pivot that doesn't leave has the numbers of the pivot in unbounded fractions.
#[tactic(auto, using(crate::proofs::Exactness::pivot_exact))]
pub fn pivots_are_exact()
    ensures { (t u : Table) (r c : ℕ) → r < length t.rows →
        0 < unsigned_abs (entry_at t.rows r c).num →
        All (λ row. length row ≡ suc (length t.columns)) t.rows →
        All (λ row. All HasPositiveDen row) t.rows → pivoted t r c ≡ Ok u →
        AreSameTables u (exact_table t r c) }
{}

/// On rows of small whole numbers no operation of a pivot in a positive entry leaves, and the rows after it
/// are the updated ones.
#[tactic(auto, using(crate::proofs::NoLeaving::pivot_is))]
pub fn whole_rows_are_pivoted()
    ensures { (t : Table) (rows : List (List ℤ)) (r c : ℕ) → AreSmallRows t rows → r < length rows →
        c ≤ length t.columns → pos 0 <ℤ at_place (slice_index_or rows r []) (suc c) →
        pivoted t r c ≡ Ok (record { columns = slice_set t.columns (c - 1) r; rows = map (λ row. fractions_of (updated_row c (slice_index_or rows r []) row)) rows }) }
{}

/// Nor does any operation of the rule leave on such rows.
pub fn the_rule_never_leaves_whole_rows()
    ensures { (t : Table) (rows : List (List ℤ)) → AreSmallRows t rows → IsOk (chosen t) }
{}

/// A pivot keeps every row the same function: at any values of the columns' quantities, with what the
/// leaving row comes to in the place of the entering column's, each row comes to what it came to before.
#[tactic(auto, using(crate::proofs::Keeping::pivot_keeps))]
pub fn pivots_keep_every_row()
    ensures { (t u : Table) (r c : ℕ) (values : List Fraction) → r < length t.rows → 0 < c →
        c ≤ length t.columns → 0 < unsigned_abs (entry_at t.rows r c).num →
        All (λ row. length row ≡ suc (length t.columns)) t.rows →
        All (λ row. All HasPositiveDen row) t.rows → length values ≡ length t.columns →
        All HasPositiveDen values → pivoted t r c ≡ Ok u →
        AllZip (λ now before. IsSame
        (affine_value now (slice_set values (c - 1) (affine_value (row_at t.rows r) values)))
        (affine_value before values)) u.rows t.rows }
{}

/// A pivot where the row's constant is negative and its entry in the column positive, and the column is
/// lexicographically negative, makes the column of constants lexicographically smaller.
#[tactic(auto, using(crate::proofs::Lowering::pivot_lowers))]
pub fn pivots_lower_the_constants()
    ensures { (t u : Table) (r c : ℕ) → r < length t.rows → 0 < c →
        All (λ row. length row ≡ suc (length t.columns)) t.rows →
        All (λ row. All HasPositiveDen row) t.rows →
        IsBelow (entry_at t.rows r 0) (whole (pos 0)) →
        IsBelow (whole (pos 0)) (entry_at t.rows r c) → IsLexNegative (column_at t.rows c) →
        pivoted t r c ≡ Ok u → IsLexBelow (column_at u.rows 0) (column_at t.rows 0) }
{}

/// Each column of the first tableau from column 1 on is lexicographically negative.
#[tactic(auto, using(crate::proofs::Falling::first_falls))]
pub fn the_first_columns_are_negative()
    ensures { (P : Problem) (cuts : List Row) (bx : List Range) (j : ℕ) → j < length bx →
        IsLexNegative (column_at (first_table P cuts bx).rows (suc j)) }
{}

/// The quantities that the columns belong to decide the column of constants: two good tableaus of one
/// game, the same cuts and one box with the same of them have the same one.
#[tactic(auto, using(crate::proofs::Constants::same_constants))]
pub fn the_columns_decide_the_constants()
    ensures { (P : Problem) (cuts : List Row) (bx : List Range) (t u : Table) → IsGood P cuts bx t → IsGood P cuts bx u →
        All (Contains t.columns) u.columns →
        AllZip IsSame (column_at t.rows 0) (column_at u.rows 0) }
{}

/// The first tableau of a game, cuts and a box is good.
pub fn the_first_tableau_is_good()
    ensures { (P : Problem) (cuts : List Row) (bx : List Range) → IsGood P cuts bx (first_table P cuts bx) }
{}

/// A pivot that the rule names and that doesn't leave keeps a tableau good, and makes its column of
/// constants lexicographically smaller.
#[tactic(auto, using(crate::proofs::PivotGood::pivot_falls))]
pub fn pivots_keep_tableaus_good()
    ensures good { (P : Problem) (cuts : List Row) (bx : List Range) (t u : Table) (r c : ℕ) → IsGood P cuts bx t →
        chosen t ≡ Ok (choice.Pivot r c) → pivoted t r c ≡ Ok u → IsGood P cuts bx u }
    ensures falls { (P : Problem) (cuts : List Row) (bx : List Range) (t u : Table) (r c : ℕ) → IsGood P cuts bx t →
        chosen t ≡ Ok (choice.Pivot r c) → pivoted t r c ≡ Ok u →
        IsLexBelow (column_at u.rows 0) (column_at t.rows 0) }
{}
