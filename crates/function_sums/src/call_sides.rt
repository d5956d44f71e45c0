//! The sides of a call.

/// Which functions of the calls of a function: those that call it, or those that it calls.
#[derive(Clone, Copy, Debug, PartialEq, Eq)]
pub enum CallSide {
    /// Those whose frames stand directly above its own.
    Callers,
    /// Those whose frames stand directly below its own.
    Callees,
}
