//! The constant parts of a page in order. `checks/page_source --write` makes this file.

use crate::{document, scripts, styles};

pub(crate) const HEAD: [&str; 4] = [
    document::start::TEXT,
    styles::style::TEXT,
    styles::print::TEXT,
    document::elements::TEXT,
];

pub(crate) const TAIL: [&str; 8] = [
    document::data_end::TEXT,
    scripts::part_01::TEXT,
    scripts::part_02::TEXT,
    scripts::part_03::TEXT,
    scripts::part_04::TEXT,
    scripts::part_05::TEXT,
    scripts::part_06::TEXT,
    document::end::TEXT,
];
