//! The scripts of a page. `checks/page_source --write` makes this file.

pub(crate) mod part_01;
pub(crate) mod part_02;
pub(crate) mod part_03;
pub(crate) mod part_04;
pub(crate) mod part_05;
pub(crate) mod part_06;
