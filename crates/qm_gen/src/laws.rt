ghost use Rattle.std.specs.Prelude.{◌≡◌, ◌≤◌, ℕ, All, IsTrue, length};
ghost use Rattle.qm_model.specs.declared.game.Problem.{Problem};
ghost use Rattle.qm_normal.specs.Stated.{States};
ghost use Rattle.qm_small.specs.Small.{IsSmallText};
ghost use Rattle.qm_gen.specs.Generated.{generated_problem, generated_text};

use qm_normal::one_problem_a_text;
use qm_small::{small_texts_are_read_the_same, written_texts_are_small};

/// The text of a number and a size is a small text, so it states its problem by the whole grammar: no byte, word, name,
/// scope or limit of it is refused. It states no other, and all variables of that problem are whole.
pub fn generated_texts_are_small()
    ensures small { (number size : ℕ) → size ≤ 100 → IsSmallText (generated_text number size) (generated_problem number size) }
    ensures states { (number size : ℕ) → size ≤ 100 → States (generated_text number size) (generated_problem number size) }
    ensures one { (number size : ℕ) (P : Problem) → size ≤ 100 → States (generated_text number size) P → P ≡ generated_problem number size }
    ensures whole { (number size : ℕ) → All (λ x. IsTrue x.whole) (generated_problem number size).vars }
    ensures wholes { (number size : ℕ) → (generated_problem number size).wholes ≡ length (generated_problem number size).vars }
{
    written_texts_are_small();
    small_texts_are_read_the_same();
    one_problem_a_text();
}
