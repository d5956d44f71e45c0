//! The forms in which samples that come are shown.

/// What is written of samples that come.
#[derive(Clone, Copy)]
pub enum LiveForm {
    /// Lines of JSON: those of the snapshots of their graph, and of the graph itself.
    Lines,
    /// Pages for browsers, of which each is to take the place of the one before.
    Pages,
    /// For a terminal, a table of their functions, in frames of which each takes the place of the one before.
    Table {
        /// After how many samples more there is a frame.
        every: u64,
    },
}
