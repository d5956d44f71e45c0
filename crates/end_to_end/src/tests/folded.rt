//! Folded text in, merged text out.

use crate::tests::answers::{Case, SILENT, end_so};
use std::test::Fail;

const STORED: &[Case<'static>] = &[Case {
    input: b"a;b 2\na 1\na;b 3\n",
    out: "a 1\na;b 5\n",
    ..SILENT
}];

#[test]
fn stored_run(rt: HostRuntime) -> Result<(), Fail> {
    end_so(&rt, STORED)
}

const EMPTY: &[Case<'static>] = &[
    SILENT,
    Case {
        words: &["fold", "x.pb"],
        files: &[("x.pb", b"")],
        ..SILENT
    },
    Case {
        words: &["graph", "x"],
        files: &[("x", b"")],
        out: "{\"boxes\":[],\"total\":0,\"view\":\"graph\",\"width\":1200}\n",
        ..SILENT
    },
];

#[test]
fn empty_sources(rt: HostRuntime) -> Result<(), Fail> {
    end_so(&rt, EMPTY)
}

/// Odd stacks, and odd ends.
const ODD: &[Case<'static>] = &[
    Case {
        input: b" 5\na; 1\na;;b 1\n\na x\na 5 \n",
        out: " 5\na 1\na;;b 1\n",
        err: "flamecollect: -: ignored 3\n",
        ..SILENT
    },
    Case {
        input: b"a 1\r\nc\t007\nb 2\r",
        out: "a 1\nc 7\n",
        err: "flamecollect: -: ignored 1\n",
        ..SILENT
    },
];

#[test]
fn odd_lines(rt: HostRuntime) -> Result<(), Fail> {
    end_so(&rt, ODD)
}

const REFUSED: &[Case<'static>] = &[
    Case {
        words: &["fold", "x.folded"],
        files: &[("x.folded", b"b 2\na 1.5\n")],
        status: 1,
        err: "flamecollect: x.folded: DecimalWeight at 2\n",
        ..SILENT
    },
    Case {
        words: &["fold", "x.folded"],
        files: &[("x.folded", b"b 2\na 1 2\n")],
        status: 1,
        err: "flamecollect: x.folded: TwoColumns at 2\n",
        ..SILENT
    },
];

#[test]
fn refused_counts(rt: HostRuntime) -> Result<(), Fail> {
    end_so(&rt, REFUSED)
}

/// A file, to be read as often as there may be sources.
const MOST: &[&str] = &[
    "fold", "x", "x", "x", "x", "x", "x", "x", "x", "x", "x", "x", "x", "x", "x", "x", "x", "x",
    "x", "x", "x", "x", "x", "x", "x", "x", "x", "x", "x", "x", "x", "x", "x", "x", "x", "x", "x",
    "x", "x", "x", "x", "x", "x", "x", "x", "x", "x", "x", "x", "x", "x", "x", "x", "x", "x", "x",
    "x", "x", "x", "x", "x", "x", "x", "x", "x",
];

/// The same once more.
const TOO_MANY: &[&str] = &[
    "fold", "x", "x", "x", "x", "x", "x", "x", "x", "x", "x", "x", "x", "x", "x", "x", "x", "x",
    "x", "x", "x", "x", "x", "x", "x", "x", "x", "x", "x", "x", "x", "x", "x", "x", "x", "x", "x",
    "x", "x", "x", "x", "x", "x", "x", "x", "x", "x", "x", "x", "x", "x", "x", "x", "x", "x", "x",
    "x", "x", "x", "x", "x", "x", "x", "x", "x", "x",
];

/// One source as heavy as it may be, and one that is too heavy; then as many sources as there may be, each as heavy as it may be, and one
/// more.
const WEIGHTS: &[Case<'static>] = &[
    Case {
        input: b"a 72057594037927935\nb 0\n",
        out: "a 72057594037927935\n",
        ..SILENT
    },
    Case {
        input: b"a 72057594037927935\nb 1\n",
        status: 1,
        err: "flamecollect: -: TotalTooLarge at 2\n",
        ..SILENT
    },
    Case {
        words: &["graph", "x"],
        files: &[("x", b"a 72057594037927935\nb 1\nc 1.5\n")],
        status: 1,
        err: "flamecollect: x: TotalTooLarge at 2\n",
        ..SILENT
    },
    Case {
        words: MOST,
        files: &[("x", b"a 72057594037927935\n")],
        out: "a 4611686018427387840\n",
        ..SILENT
    },
    Case {
        words: TOO_MANY,
        files: &[("x", b"a 72057594037927935\n")],
        status: 2,
        err: "flamecollect: too many files\n",
        ..SILENT
    },
];

#[test]
fn limits_of_weights_and_depth_by_weights(rt: HostRuntime) -> Result<(), Fail> {
    end_so(&rt, WEIGHTS)
}

const COMPRESSED: &[Case<'static>] = &[
    Case {
        input: b"\x1f\x8b\x08",
        status: 1,
        err: "flamecollect: -: Compressed at 1\n",
        ..SILENT
    },
    Case {
        words: &["chart", "x.pb"],
        files: &[("x.pb", b"\x1f\x8b\x08")],
        status: 1,
        err: "flamecollect: x.pb: Compressed at 0\n",
        ..SILENT
    },
];

#[test]
fn compressed_and_cut(rt: HostRuntime) -> Result<(), Fail> {
    end_so(&rt, COMPRESSED)
}

/// Files of which two are faults.
const SEVERAL: Case<'static> = Case {
    files: &[
        ("bad", b"a 1.5\n"),
        ("good", b"a 1\nb\n"),
        ("worse", b"a 1 2\n"),
    ],
    ..SILENT
};

/// All three are read, and one of them beside files that are not there.
const FAULTS: &[Case<'static>] = &[
    Case {
        words: &["fold", "bad", "good", "worse"],
        status: 1,
        err: "flamecollect: bad: DecimalWeight at 1\nflamecollect: good: ignored 1\n\
            flamecollect: worse: TwoColumns at 1\n",
        ..SEVERAL
    },
    Case {
        words: &["fold", "bad", "missing", "absent"],
        status: 3,
        err: "flamecollect: missing: cannot be read\n",
        ..SEVERAL
    },
];

// All sources are told of, in order, before the run ends.
#[test]
fn faults_of_several_sources(rt: HostRuntime) -> Result<(), Fail> {
    end_so(&rt, FAULTS)
}

const THREE_FILES: Case<'static> = Case {
    files: &[
        ("x", b"b 1\na 2\n"),
        ("y", b"a;c 4\nb 8\n"),
        ("z", b"a 16\n 32\n"),
    ],
    out: " 32\na 18\na;c 4\nb 9\n",
    ..SILENT
};

/// In small rings, and in large ones.
const RINGS: &[Case<'static>] = &[
    Case {
        words: &["fold", "--ring", "1", "x", "y", "z"],
        ..THREE_FILES
    },
    Case {
        words: &["fold", "x", "--ring", "65536", "y", "z"],
        ..THREE_FILES
    },
];

// The order of stacks does not depend on the order in which samples arrive.
#[test]
fn fold_of_several_sources(rt: HostRuntime) -> Result<(), Fail> {
    end_so(&rt, RINGS)
}
