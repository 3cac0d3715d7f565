/// The rules of a certificate's lines.
#[derive(Clone, Copy, Debug, PartialEq, Eq)]
pub enum Rule {
    /// A line is spelled as its place asks.
    Text,
    /// Each number is one of its type.
    Number,
    /// The legal values are a universal play.
    Legal,
    /// The cut is the rounded combination.
    Cut,
    /// Ranges cover their range.
    Cover,
    /// A chosen value lies in its range.
    Choose,
    /// A leaf meets bounds and rows, and reaches the value.
    Leaf,
    /// A combination closes.
    Close,
    /// A picked value can be completed.
    Pick,
    /// A scenario can be played.
    Scenario,
    /// A lemma that is used covers.
    Use,
    /// A lemma's ranges lie within the bounds.
    Lemma,
}
