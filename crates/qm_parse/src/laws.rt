ghost use Rattle.std.specs.Prelude.{◌≡◌, ◌≢◌, ℕ, false, List, ◌++◌, All, Result, Ok, Err, ◌↔◌, Some, None, ◌<◌, ◌≤◌, length};
ghost use Rattle.qm_lex.specs.declared.place.Place.{Place};
ghost use Rattle.qm_parse.specs.declared.ast.Ast.{Ast};
ghost use Rattle.qm_parse.specs.declared.stage.State.{State};
ghost use Rattle.qm_parse.specs.declared.unread.Unread.{Unread};
ghost use Rattle.qm_parse.specs.declared.word.Symbol.{Symbol};
ghost use Rattle.qm_parse.specs.declared.unread.Unread.TheVariants.{Expected};
ghost use Rattle.qm_parse.specs.declared.fault.What.{What};
ghost use Rattle.qm_parse.specs.Wants.{Wants};
ghost use Rattle.qm_parse.specs.Faults.{CanGoOn, IsFirstFault, state_behind};
ghost use Rattle.qm_parse.specs.Reading.{empty_draft, leaves, read, start};
ghost use Rattle.qm_parse.specs.Texts.{IsText, KnowColons};
ghost use Rattle.qm_lex.specs.declared.token.Token.{Token};
ghost use Rattle.qm_lex.specs.Texts.{AreTokens};
ghost use Rattle.qm_parse.specs.Symbols.{AreSymbols};
ghost use Rattle.qm_parse.specs.Checks.{NamesRight, name_fault};
ghost use Rattle.qm_parse.specs.NameFaults.{IsFirstOffence};
ghost use Rattle.qm_parse.specs.declared.offence.NameFault.{NameFault};
ghost use Rattle.qm_parse.specs.Parsing.{IsParsed};
ghost use Rattle.qm_parse.specs.declared.fault.ParseFault.{ParseFault};
ghost use Rattle.qm_parse.specs.declared.fault.ParseFault.TheVariants.{Memory};
ghost use Rattle.qm_parse.specs.Known.{AreKnown, HasNumbersBelow};

use qm_text::one_decimal_a_word;

/// A text and its tokens have one answer, unless memory runs out.
pub fn one_answer()
    ensures { (text : List ℕ) (tokens : List Token) (one other : Result Ast ParseFault) → IsParsed text tokens one → IsParsed text tokens other →
        one ≢ Err Memory → other ≢ Err Memory → one ≡ other }
{
    one_decimal_a_word();
}

/// Tokens of a text have an answer, which isn't want of memory.
pub fn some_answer()
    ensures { (text : List ℕ) (tokens : List Token) → AreTokens text tokens → (answer : Result Ast ParseFault) × (answer ≢ Err Memory) × IsParsed text tokens answer }
{}

/// What is a text is read, and gives its tree.
pub fn a_text_is_read()
    ensures { (names : List (List ℕ)) (symbols : List Symbol) (ast : Ast) (end : Place) → KnowColons symbols → IsText names symbols ast → read start (empty_draft names) symbols end ≡ Ok ast }
{}

/// A text has one tree.
pub fn one_tree_a_text()
    ensures { (names : List (List ℕ)) (symbols : List Symbol) (one other : Ast) → KnowColons symbols → IsText names symbols one → IsText names symbols other → one ≡ other }
{}

/// Symbols have one first fault at most, and none where they are a text.
pub fn one_fault()
    ensures once { (symbols : List Symbol) (end : Place) (one other : Unread) → IsFirstFault symbols end one → IsFirstFault symbols end other → one ≡ other }
    ensures no_text { (names : List (List ℕ)) (symbols : List Symbol) (ast : Ast) (end : Place) (fault : Unread) → KnowColons symbols → IsText names symbols ast → ¬ IsFirstFault symbols end fault }
{}

/// Symbols that are read to their end are a text, and what is read is what it says.
pub(crate) fn what_is_read_is_written()
    ensures { (names : List (List ℕ)) (symbols : List Symbol) (end : Place) (ast : Ast) →
        read start (empty_draft names) symbols end ≡ Ok ast → IsText names symbols ast }
{}

/// The word that a first fault tells is what the part wants that has begun there.
pub fn expected_is_what_the_part_wants()
    ensures { (symbols : List Symbol) (end at : Place) (what : What) → KnowColons symbols →
        (fault : IsFirstFault symbols end (Expected at what)) → Wants what symbols fault.behind }
{}

/// The names among the symbols of tokens know whether a colon follows.
pub fn symbols_know_their_colons()
    ensures { (text : List ℕ) (names : List (List ℕ)) (line : ℕ) (tokens : List Token) (symbols : List Symbol) → AreSymbols text names line tokens symbols → KnowColons symbols }
{}

/// A text has no more rows, and no more uncertainty rows, than symbols.
pub fn each_row_takes_a_symbol()
    ensures rows { (names : List (List ℕ)) (symbols : List Symbol) (ast : Ast) → KnowColons symbols → IsText names symbols ast → length ast.rows ≤ length symbols }
    ensures uncertain { (names : List (List ℕ)) (symbols : List Symbol) (ast : Ast) → KnowColons symbols → IsText names symbols ast → length ast.uncertain ≤ length symbols }
{}

/// A text has no offence exactly where it uses its names right.
pub fn no_fault_where_names_are_right()
    ensures { (ast : Ast) → (name_fault ast ≡ None) ↔ NamesRight ast }
{}

/// An offence is told of a text exactly where it breaks a rule at the first place, and the rules judged before are kept.
pub fn fault_is_the_first_offence()
    ensures { (ast : Ast) (fault : NameFault) → (name_fault ast ≡ Some fault) ↔ IsFirstOffence ast fault }
{}

/// Where symbols are not read, there is their first fault.
pub(crate) fn a_fault_is_the_first()
    ensures { (names : List (List ℕ)) (symbols : List Symbol) (end : Place) (fault : Unread) → KnowColons symbols →
        read start (empty_draft names) symbols end ≡ Err fault → IsFirstFault symbols end fault }
{}

/// The names among the symbols of tokens are those of the list.
pub(crate) fn symbols_are_known()
    ensures { (text : List ℕ) (names : List (List ℕ)) (line : ℕ) (tokens : List Token) (symbols : List Symbol) →
        AreSymbols text names line tokens symbols → AreKnown (length names) symbols }
{}

/// Where the names among the symbols are known, so is each name in the tree that is read.
pub(crate) fn what_is_read_is_known()
    ensures { (n : ℕ) (names : List (List ℕ)) (symbols : List Symbol) (end : Place) (ast : Ast) →
        AreKnown n symbols → read start (empty_draft names) symbols end ≡ Ok ast → HasNumbersBelow n ast }
{}

/// Where each name in the tree is known, so is that of its offence.
pub(crate) fn a_fault_is_known()
    ensures { (n : ℕ) (ast : Ast) (fault : NameFault) →
        HasNumbersBelow n ast → name_fault ast ≡ Some fault → fault.name < n }
{}

/// Symbols of which each may follow, and of which no number leaves, are the beginning of a text.
pub(crate) fn a_beginning_goes_on()
    ensures { (front behind : List Symbol) (state : State) → All (λ symbol. leaves symbol.word ≡ false) front → KnowColons (front ++ behind) →
        state_behind start front ≡ Some state → CanGoOn front }
{}
