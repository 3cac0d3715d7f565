ghost use Rattle.std.specs.Prelude.{◌≡◌, ◌≢◌, ◌↔◌, ◌<◌, ◌≤◌, ◌^◌, ℕ, ℤ, All, List, length, unsigned_abs, Ok, Err, Some};
ghost use Rattle.qm_math.specs.Fraction.{IsSame};
ghost use Rattle.qm_model.specs.declared.game.Problem.{Problem};
ghost use Rattle.qm_model.specs.declared.row.Row.{Row};
ghost use Rattle.qm_model.specs.Points.{HoldsOver};
ghost use Rattle.qm_model.specs.Sound.{IsSound};
ghost use Rattle.qm_parse.specs.declared.ast.Ast.{Ast};
ghost use Rattle.qm_parse.specs.declared.ast.AstRow.{AstRow};
ghost use Rattle.qm_parse.specs.declared.word.Symbol.{Symbol};
ghost use Rattle.qm_parse.specs.Checks.{NamesRight};
ghost use Rattle.qm_lex.specs.declared.token.Token.{Token};
ghost use Rattle.qm_lex.specs.Texts.{AreTokens};
ghost use Rattle.qm_parse.specs.Parsing.{IsParsed};
ghost use Rattle.qm_parse.specs.Symbols.{AreSymbols};
ghost use Rattle.qm_parse.specs.Texts.{IsText};
ghost use Rattle.qm_normal.specs.declared.fault.NormalFault.TheVariants.{Memory};
ghost use Rattle.qm_normal.specs.Meaning.{AreWholeOver, HasNamesInOrder, HasNoConstant, IsMet, MeetsProblem, MeetsText, in_game_order, maximised_value, objective_over, value_over, written_value};
ghost use Rattle.qm_normal.specs.Normal.{normal_form};
ghost use Rattle.qm_normal.specs.Stated.{States};
ghost use Rattle.qm_normal.specs.Numbers.{HasProperNumbers, IsProperRow};
ghost use Rattle.qm_normal.specs.Rows.{normal_row, related};
ghost use Rattle.qm_normal.specs.Trees.{IsTreeInOrder};
ghost use Rattle.qm_normal.specs.Variables.{game_order, vars_of};

use qm_text::one_decimal_a_word;

/// A normal form is in order.
pub fn normal_forms_are_sound()
    ensures { (ast : Ast) (P : Problem) → HasProperNumbers ast → normal_form ast ≡ Ok P → IsSound P }
{}

/// The rows that a written row gives hold exactly where it does.
pub fn rows_are_what_is_written()
    ensures { (ast : Ast) (row : AstRow) (one : Row) (den : ℕ) (nums : ℕ → ℤ) →
        NamesRight ast → IsProperRow row → HasNoConstant row → HasNamesInOrder ast row.terms → 0 < den →
        normal_row (vars_of ast) (game_order ast) row.terms row.right ≡ Some one →
        All (HoldsOver den (in_game_order ast nums)) (related row.relation one) ↔ IsMet (value_over den nums) row }
{}

/// The objective of a normal form is the written one, negated where the text minimises.
pub fn the_objective_is_what_is_written()
    ensures { (ast : Ast) (P : Problem) (den : ℕ) (nums : ℕ → ℤ) →
        NamesRight ast → HasProperNumbers ast → HasNamesInOrder ast ast.objective → 0 < den → normal_form ast ≡ Ok P →
        IsSame (objective_over P den (in_game_order ast nums)) (maximised_value ast.sense (written_value (value_over den nums) ast.objective)) }
{}

/// Values, whole on whole variables, lie in the bounds of a normal form and meet its rows exactly where they meet the text.
pub fn the_problem_is_what_is_written()
    ensures { (ast : Ast) (P : Problem) (den : ℕ) (nums : ℕ → ℤ) →
        NamesRight ast → HasProperNumbers ast → All HasNoConstant ast.rows → All HasNoConstant ast.uncertain →
        normal_form ast ≡ Ok P → 0 < den → AreWholeOver den nums ast →
        MeetsProblem P den (in_game_order ast nums) ↔ MeetsText ast (value_over den nums) }
{}

/// The rows of a text have multiples of variables alone.
pub fn rows_of_a_text_have_no_constants()
    ensures rows { (names : List (List ℕ)) (symbols : List Symbol) (ast : Ast) → IsText names symbols ast → All HasNoConstant ast.rows }
    ensures uncertain { (names : List (List ℕ)) (symbols : List Symbol) (ast : Ast) → IsText names symbols ast → All HasNoConstant ast.uncertain }
{}

/// Each list of values, one for each variable in game order, is that of values given by names.
pub fn each_list_of_values_is_of_names()
    ensures { (ast : Ast) (values : List ℤ) → NamesRight ast → length values ≡ length (vars_of ast) → (nums : ℕ → ℤ) × (in_game_order ast nums ≡ values) }
{}

/// The numbers of a text are over positive denominators.
pub fn numbers_of_a_text_are_proper()
    ensures { (text : List ℕ) (names : List (List ℕ)) (line : ℕ) (tokens : List Token) (symbols : List Symbol) (ast : Ast) →
        AreSymbols text names line tokens symbols → IsText names symbols ast → HasProperNumbers ast }
{}

/// The tree that is parsed of a text is in order.
pub fn trees_of_texts_are_in_order()
    ensures { (text : List ℕ) (tokens : List Token) (ast : Ast) →
        length text < 2 ^ 31 → AreTokens text tokens → IsParsed text tokens (Ok ast) → IsTreeInOrder ast }
{}

/// Values of the variables of a parsed text, whole on whole variables, meet its normal form exactly where they meet the text,
/// and the objective is the written one.
pub fn normal_forms_are_what_is_parsed()
    ensures problem { (text : List ℕ) (tokens : List Token) (ast : Ast) (P : Problem) (den : ℕ) (nums : ℕ → ℤ) →
        IsParsed text tokens (Ok ast) → normal_form ast ≡ Ok P → 0 < den → AreWholeOver den nums ast →
        MeetsProblem P den (in_game_order ast nums) ↔ MeetsText ast (value_over den nums) }
    ensures objective { (text : List ℕ) (tokens : List Token) (ast : Ast) (P : Problem) (den : ℕ) (nums : ℕ → ℤ) →
        IsParsed text tokens (Ok ast) → normal_form ast ≡ Ok P → 0 < den →
        IsSame (objective_over P den (in_game_order ast nums)) (maximised_value ast.sense (written_value (value_over den nums) ast.objective)) }
{}

/// The problem that a text states is in order, and each bound of its variables is at most 2^50 away from 0.
pub fn stated_problems_are_in_order()
    ensures sound { (text : List ℕ) (P : Problem) → States text P → IsSound P }
    ensures near { (text : List ℕ) (P : Problem) → States text P → All (λ x. (unsigned_abs x.low ≤ 2 ^ 50) × (unsigned_abs x.high ≤ 2 ^ 50)) P.vars }
{}

/// A text states one problem at most.
pub fn one_problem_a_text()
    ensures { (text : List ℕ) (P Q : Problem) → States text P → States text Q → P ≡ Q }
{
    one_decimal_a_word();
}

/// Want of memory is no fault of a tree.
pub fn no_fault_is_want_of_memory()
    ensures { (ast : Ast) → normal_form ast ≢ Err Memory }
{}
