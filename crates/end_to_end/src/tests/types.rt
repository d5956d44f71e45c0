//! The sample types of profiles.

use crate::tests::answers::{Case, SILENT, end_so};
use crate::tests::worked::{BASE, SMALLEST};
use std::test::Fail;

/// Of two types, and of one.
const TYPES: &[Case<'static>] = &[
    Case {
        words: &["types", "x.pb"],
        files: &[("x.pb", BASE)],
        out: "n\tn\ncpu\tcpu\tdefault\n",
        ..SILENT
    },
    Case {
        words: &["types", "anything"],
        files: &[("anything", SMALLEST)],
        out: "cpu\tns\tdefault\n",
        ..SILENT
    },
];

#[test]
fn types_of_profiles(rt: HostRuntime) -> Result<(), Fail> {
    end_so(&rt, TYPES)
}

/// A fault, and a file that is not there.
const NO_PROFILES: &[Case<'static>] = &[
    Case {
        words: &["types", "x.pb"],
        files: &[("x.pb", b"2\x01a")],
        status: 1,
        err: "flamecollect: x.pb: BadStringZero at 0\n",
        ..SILENT
    },
    Case {
        words: &["types", "gone.pb"],
        files: &[("x.pb", SMALLEST)],
        status: 3,
        err: "flamecollect: gone.pb: cannot be read\n",
        ..SILENT
    },
];

#[test]
fn types_of_no_profile(rt: HostRuntime) -> Result<(), Fail> {
    end_so(&rt, NO_PROFILES)
}
