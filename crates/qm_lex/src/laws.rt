ghost use Rattle.std.specs.Prelude.{◌≡◌, ◌⊎◌, ℕ, List, length};
ghost use Rattle.qm_lex.specs.declared.token.Token.{Token};
ghost use Rattle.qm_lex.specs.Texts.{AreInOrder, AreTokens, IsFirstBad};

/// A text has one list of tokens at most.
pub fn one_list_of_tokens()
    ensures { (text : List ℕ) (one other : List Token) → AreTokens text one → AreTokens text other → one ≡ other }
{}

/// A text has one first bad byte at most.
pub fn one_bad_byte()
    ensures { (text : List ℕ) (one other : ℕ) → IsFirstBad text one → IsFirstBad text other → one ≡ other }
{}

/// A text has tokens or a bad byte, and not both.
pub fn tokens_or_a_bad_byte()
    ensures some { (text : List ℕ) → ((tokens : List Token) × AreTokens text tokens) ⊎ ((at : ℕ) × IsFirstBad text at) }
    ensures not_both { (text : List ℕ) (tokens : List Token) (at : ℕ) → AreTokens text tokens → ¬ IsFirstBad text at }
{}

/// The tokens of a text stand in order, and inside of it.
pub fn tokens_stand_in_order()
    ensures { (text : List ℕ) (tokens : List Token) → AreTokens text tokens → AreInOrder 0 tokens (length text) }
{}
