ghost use Rattle.std.specs.Prelude.{◌≡◌, ◌⊎◌, ℤ, pos, ◌*ℤ◌, ◌≤ℤ◌};

/// An order of whole numbers times a number that is not negative is kept, times one that is not
/// positive turned round.
pub fn products_of_whole_numbers_keep_orders()
    ensures nonneg { (a b : ℤ) → pos 0 ≤ℤ a → pos 0 ≤ℤ b → pos 0 ≤ℤ (a *ℤ b) }
    ensures kept { (k a b : ℤ) → pos 0 ≤ℤ k → a ≤ℤ b → (k *ℤ a) ≤ℤ (k *ℤ b) }
    ensures turned { (k a b : ℤ) → k ≤ℤ pos 0 → a ≤ℤ b → (k *ℤ b) ≤ℤ (k *ℤ a) }
    ensures zero { (a b : ℤ) → a *ℤ b ≡ pos 0 → (a ≡ pos 0) ⊎ (b ≡ pos 0) }
{}
