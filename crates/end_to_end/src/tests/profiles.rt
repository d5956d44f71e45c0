//! Profiles in, merged text out.

use crate::tests::answers::{Case, SILENT, end_so};
use crate::tests::worked::{BASE, INLINED_LINES, SMALLEST};
use std::test::Fail;

// One function at the lines 1 and 2.
const TWO_LINES: &[u8] = &[
    0x0a, 0x04, 0x08, 0x01, 0x10, 0x01, 0x12, 0x04, 0x08, 0x01, 0x10, 0x01, 0x12, 0x04, 0x08, 0x02,
    0x10, 0x01, 0x22, 0x08, 0x08, 0x01, 0x22, 0x04, 0x08, 0x01, 0x10, 0x01, 0x22, 0x08, 0x08, 0x02,
    0x22, 0x04, 0x08, 0x01, 0x10, 0x02, 0x2a, 0x04, 0x08, 0x01, 0x10, 0x02, 0x32, 0x00, 0x32, 0x01,
    0x6e, 0x32, 0x01, 0x66,
];

// A location without lines, at 0x1f0.
const ADDRESS: &[u8] = &[
    0x0a, 0x04, 0x08, 0x01, 0x10, 0x02, 0x12, 0x06, 0x0a, 0x01, 0x01, 0x12, 0x01, 0x07, 0x22, 0x05,
    0x08, 0x01, 0x18, 0xf0, 0x03, 0x32, 0x00, 0x32, 0x03, 0x63, 0x70, 0x75, 0x32, 0x02, 0x6e, 0x73,
];

// One sample whose frame is named `a`, a semicolon, a byte that is no text, and a line feed.
const LOSSY: &[u8] = &[
    0x0a, 0x04, 0x08, 0x01, 0x10, 0x02, 0x12, 0x06, 0x0a, 0x01, 0x01, 0x12, 0x01, 0x07, 0x22, 0x06,
    0x08, 0x01, 0x22, 0x02, 0x08, 0x01, 0x2a, 0x04, 0x08, 0x01, 0x10, 0x03, 0x32, 0x00, 0x32, 0x03,
    0x63, 0x70, 0x75, 0x32, 0x02, 0x6e, 0x73, 0x32, 0x04, 0x61, 0x3b, 0xff, 0x0a,
];

/// Under each name of profiles.
const NAMED: &[Case<'static>] = &[
    Case {
        words: &["fold", "cpu.prof"],
        files: &[("cpu.prof", SMALLEST)],
        out: "main 7\n",
        ..SILENT
    },
    Case {
        words: &["fold", "x.pprof"],
        files: &[("x.pprof", SMALLEST)],
        out: "main 7\n",
        ..SILENT
    },
    Case {
        words: &["fold", "x.pb"],
        files: &[("x.pb", SMALLEST)],
        out: "main 7\n",
        ..SILENT
    },
];

#[test]
fn smallest_profile(rt: HostRuntime) -> Result<(), Fail> {
    end_so(&rt, NAMED)
}

/// The preferred value, one by its name, and one that is not there.
const PICKED: &[Case<'static>] = &[
    Case {
        words: &["fold", "x.pb"],
        files: &[("x.pb", BASE)],
        out: "f 9\n",
        ..SILENT
    },
    Case {
        words: &["fold", "--type", "n", "x.pb"],
        files: &[("x.pb", BASE)],
        out: "f 5\n",
        ..SILENT
    },
    Case {
        words: &["fold", "x.pb", "--type", "x"],
        files: &[("x.pb", BASE)],
        status: 1,
        err: "flamecollect: x.pb: UnknownSampleType at 48\n",
        ..SILENT
    },
];

#[test]
fn picking_a_value(rt: HostRuntime) -> Result<(), Fail> {
    end_so(&rt, PICKED)
}

const ODD_NAMES: &[Case<'static>] = &[
    Case {
        words: &["fold", "x.pb"],
        files: &[("x.pb", ADDRESS)],
        out: "0x1f0 7\n",
        ..SILENT
    },
    Case {
        words: &["fold", "--lines", "x.pb"],
        files: &[("x.pb", ADDRESS)],
        out: "0x1f0 7\n",
        ..SILENT
    },
    Case {
        words: &["fold", "x.pb"],
        files: &[("x.pb", LOSSY)],
        out: "a:\u{fffd}  7\n",
        ..SILENT
    },
];

#[test]
fn address_frames_and_lossy_names(rt: HostRuntime) -> Result<(), Fail> {
    end_so(&rt, ODD_NAMES)
}

const INLINED: &[Case<'static>] = &[
    Case {
        words: &["fold", "x.pb"],
        files: &[("x.pb", INLINED_LINES)],
        out: "printf;memcpy 7\n",
        ..SILENT
    },
    Case {
        words: &["fold", "--lines", "x.pb"],
        files: &[("x.pb", INLINED_LINES)],
        out: "printf:40;memcpy:12 7\n",
        ..SILENT
    },
];

#[test]
fn lines_of_inlined_frames(rt: HostRuntime) -> Result<(), Fail> {
    end_so(&rt, INLINED)
}

const ONE_FUNCTION: &[Case<'static>] = &[
    Case {
        words: &["fold", "x.pb"],
        files: &[("x.pb", TWO_LINES)],
        out: "f 2\n",
        ..SILENT
    },
    Case {
        words: &["fold", "x.pb", "--lines"],
        files: &[("x.pb", TWO_LINES)],
        out: "f:1 1\nf:2 1\n",
        ..SILENT
    },
];

#[test]
fn one_function_two_lines(rt: HostRuntime) -> Result<(), Fail> {
    end_so(&rt, ONE_FUNCTION)
}

const AS_TEXT: &[Case<'static>] = &[Case {
    words: &["fold", "cpu.out"],
    files: &[("cpu.out", SMALLEST)],
    err: "flamecollect: cpu.out: ignored 3\n",
    ..SILENT
}];

// Under another name a profile is read as folded text, and almost all of it is ignored.
#[test]
fn profile_under_another_name(rt: HostRuntime) -> Result<(), Fail> {
    end_so(&rt, AS_TEXT)
}
