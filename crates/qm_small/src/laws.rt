ghost use Rattle.std.specs.Prelude.{◌≡◌, ℕ, List};
ghost use Rattle.qm_model.specs.declared.game.Problem.{Problem};
ghost use Rattle.qm_normal.specs.Stated.{States};
ghost use Rattle.qm_small.specs.Lines.{text_of};
ghost use Rattle.qm_small.specs.Problems.{problem_of};
ghost use Rattle.qm_small.specs.Small.{IsSmallText};
ghost use Rattle.qm_small.specs.Writable.{IsWritable};
ghost use Rattle.qm_small.specs.Written.{Written};

use qm_normal::one_problem_a_text;

/// A small text states its problem by the whole grammar.
pub fn small_texts_are_read_the_same()
    ensures { (text : List ℕ) (P : Problem) → IsSmallText text P → States text P }
{}

/// A small text states one problem at most.
pub fn one_problem()
    ensures { (text : List ℕ) (P Q : Problem) → IsSmallText text P → IsSmallText text Q → P ≡ Q }
{
    one_problem_a_text();
}

/// What can be written is said by a small text: its lines, with one space between words.
pub fn written_texts_are_small()
    ensures { (written : Written) → IsWritable written → IsSmallText (text_of written) (problem_of written) }
{}
