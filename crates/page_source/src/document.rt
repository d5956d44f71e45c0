//! What stands round the styles, the data and the scripts of a page. `checks/page_source --write` makes this file.

pub(crate) mod data_end;
pub(crate) mod elements;
pub(crate) mod end;
pub(crate) mod start;
