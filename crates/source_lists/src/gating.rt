//! Whether somebody is asked before each sample of a run.

use std::sync::Arc;

/// Who is asked before each sample of a run.
#[derive(Drop)]
pub enum Gating<G> {
    /// Nobody: each source is read to its end.
    Open,
    /// The gate.
    Asked(Arc<G>),
}
