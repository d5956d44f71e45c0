//! The sums of a function.

use stack_core::Text;

/// The weights of a function: of the name that its frames have.
#[derive(Debug, Drop)]
pub struct FunctionSum {
    /// The name.
    pub name: Text,
    /// The sum of the weights of the samples whose last frame has the name.
    pub own: u64,
    /// The sum of the weights of the samples in whose stack the name stands, each sample once.
    pub total: u64,
}
