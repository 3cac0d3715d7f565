ghost use Rattle.std.specs.Prelude.{◌≢◌, ◌↔◌, ℕ, ◌+◌, ℤ, pos, ◌+ℤ◌, ◌*ℤ◌, ◌≤ℤ◌, ◌<ℤ◌, unsigned_abs, true, false};
ghost use Rattle.qm_math.specs.Ranges.{IsBetween, least_product};
ghost use Rattle.qm_model.specs.declared.range.Range.{Range};
ghost use Rattle.qm_prop.specs.Narrower.{range_by};

/// A row alone narrows a range exactly so far. A whole value stays exactly where its term and the least of all other
/// terms leave the row met. An end of a continuous variable is less than one step beyond what the row allows.
pub fn a_row_narrows_exactly_so_far()
    ensures whole { (coef : ℤ) (slack : ℕ) (r : Range) (v : ℤ) → coef ≢ pos 0 → IsBetween r.low r.high v →
        (IsBetween (range_by true coef slack r).low (range_by true coef slack r).high v)
        ↔ ((coef *ℤ v) ≤ℤ (least_product coef r.low r.high +ℤ pos slack)) }
    ensures continuous { (coef : ℤ) (slack : ℕ) (r : Range) (v : ℤ) → coef ≢ pos 0 → IsBetween r.low r.high v →
        (IsBetween (range_by false coef slack r).low (range_by false coef slack r).high v)
        ↔ ((coef *ℤ v) <ℤ (least_product coef r.low r.high +ℤ pos (slack + unsigned_abs coef))) }
{}
