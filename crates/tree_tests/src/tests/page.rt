//! The example of README.md.

use super::{Growth, names_and_tree_grow};
use crate::tests::holds;
use std::test::Fail;

/// The numbers of `main` and `read`.
const NUMBERS: &[(&str, usize)] = &[("main", 0), ("read", 1)];

/// What the tree says at first, after 3 is added at both names, and after 1 is added at `main`.
const ADDED: &[Growth<'static>] = &[
    Growth {
        weights: &[],
        len: 1,
        places: &[(&[], 0, 0, &[])],
    },
    Growth {
        weights: &[(&[0, 1], 3)],
        len: 3,
        places: &[(&[], 3, 0, &[0])],
    },
    Growth {
        weights: &[(&[0], 1)],
        len: 3,
        places: &[(&[0], 4, 1, &[1])],
    },
];

#[test]
fn readme_example(rt: HostRuntime) -> Result<(), Fail> {
    holds(&rt, names_and_tree_grow(rt.alloc(), NUMBERS, ADDED))
}
