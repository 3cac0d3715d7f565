/// A row, an uncertainty row or a cut, by its number from 0 among its kind.
#[derive(Clone, Copy, Debug, PartialEq, Eq)]
pub enum RowId {
    Row(u32),
    Uncertain(u32),
    Cut(u32),
}
