//! The change of a function.

use crate::Order;
use stack_core::Text;

/// A weight on both sides.
#[derive(Clone, Copy, Debug, PartialEq)]
pub struct Change {
    pub before: u64,
    pub after: u64,
}

/// How changes are sorted: the greatest first, whether up or down.
#[derive(Clone, Copy, Debug, PartialEq)]
pub struct ChangeOrder {
    /// Which weight changes.
    pub by: Order,
    /// What all samples of both sides weigh, where shares of that are compared, and not weights.
    pub whole: Option<Change>,
}

/// The weights of a function on both sides: of the name that its frames have.
#[derive(Debug, Drop)]
pub struct FunctionChange {
    /// The name.
    pub name: Text,
    /// Its own weight, as a `FunctionSum` has it. A side without the function has 0.
    pub own: Change,
    /// Its total.
    pub total: Change,
}
