//! The styles of a page. `checks/page_source --write` makes this file.

pub(crate) mod print;
pub(crate) mod style;
