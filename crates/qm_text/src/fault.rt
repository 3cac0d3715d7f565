/// Why a text has no number of the program.
#[derive(Clone, Copy, Debug, PartialEq, Eq)]
pub enum NumberFault {
    /// The text isn't spelled as a number.
    NotNumber,
    /// The number is outside its type.
    Leaves,
}
