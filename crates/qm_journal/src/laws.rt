ghost use Rattle.std.specs.Prelude.{◌≡◌, ◌<◌, ◌+◌, ◌*◌, ◌≤◌, List, ℕ, ℤ, Option, false, length};
ghost use Rattle.qm_model.specs.declared.game.Problem.{Problem};
ghost use Rattle.qm_journal.specs.declared.entry.JEntry.{JEntry};
ghost use Rattle.qm_journal.specs.declared.entry.JKind.TheVariants.{Game};
ghost use Rattle.qm_journal.specs.Positions.{IsOfKind, position_of};
ghost use Rattle.qm_journal.specs.Lawful.{IsLawful, is_restricted};
ghost use Rattle.qm_journal.specs.Questions.{WentOn};
ghost use Rattle.qm_journal.specs.Enough.{enough, universal_prefixes, whole_prefixes};

/// A lawful journal has fewer entries than are enough, whatever else a search asks of its prefixes.
pub fn lawful_journals_are_short()
    ensures all { (P : Problem) (J : List JEntry) → IsLawful P J → length J + 2 ≤ whole_prefixes P * (1 + universal_prefixes P) }
    ensures unrestricted { (P : Problem) (J : List JEntry) → IsLawful P J → is_restricted P ≡ false → length J < whole_prefixes P }
    ensures enough { (P : Problem) (J : List JEntry) → IsLawful P J → length J < enough P }
{}

/// The answer to a question adds no game entry, and each entry stays where it stands.
pub fn answers_add_no_game_entries()
    ensures { (parent : ℕ) (value : Option ℤ) (old new : List JEntry) → WentOn parent value old new → (number : ℕ) → IsOfKind Game new number → IsOfKind Game old number × (position_of new number ≡ position_of old number) }
{}
