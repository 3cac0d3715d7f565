use qm_io::List;
use qm_trees::Empty;

/// Whether the universal values so far can be completed.
#[derive(Debug, Drop)]
pub enum Legality {
    /// They can: values of the universal variables behind them, in game order.
    Completion(List<i64>),
    /// They can't: why no universal play has its values in the box.
    Illegal(Empty),
}
