ghost use Rattle.std.specs.Prelude.{◌≢◌, ◌<◌, ◌≤◌, ℕ, ℤ, List, All, AllPairs, length};
ghost use Rattle.qm_math.specs.Counts.{AreWithin, count_within};

/// A list of numbers below n with no two equal has at most n.
pub fn distinct_numbers_below()
    ensures { (xs : List ℕ) (n : ℕ) → AllPairs (λ x y. x ≢ y) xs → All (λ x. x < n) xs →
        length xs ≤ n }
{}

/// Different lists of values, one between the ends of each range, are at most as many as the sizes
/// of the ranges multiplied.
pub fn distinct_lists_within()
    ensures { (ranges : List (ℤ × ℤ)) (lists : List (List ℤ)) → AllPairs (λ x y. x ≢ y) lists →
        All (AreWithin ranges) lists → length lists ≤ count_within ranges }
{}
