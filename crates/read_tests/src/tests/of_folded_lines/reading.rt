//! Texts, and the samples and the ending that they have.

use super::{Fault, clean, end_in_faults, ends_in_fault, reads_as};
use stack_core::ReadKind;
use std::alloc::AllocError;
use std::process::Abort;
use std::test::Fail;

/// Texts that end without a fault, the lines of their samples, and how many lines are ignored.
type Clean<'a> = (&'a [u8], &'a [u8], u64);

fn end_clean(rt: &(impl Abort + AllocGlobal), texts: &[Clean<'_>]) -> Result<(), Fail> {
    for (text, lines, ignored) in texts {
        reads_as(rt, text, lines, clean(*ignored))?;
    }
    Ok(())
}

const EMPTY: &[Clean<'static>] = &[(b"", b"", 0)];

#[test]
fn empty_sources(rt: HostRuntime) -> Result<(), Fail> {
    end_clean(&rt, EMPTY)
}

const ODD: &[Clean<'static>] = &[
    (b" 5\na; 1\na;;b 1\n\na x\na 5 \n", b" 5\na 1\na;;b 1\n", 3),
    (b"a 1\r\nc\t007\nb 2\r", b"a 1\nc 7\n", 1),
];

#[test]
fn odd_lines(rt: HostRuntime) -> Result<(), Fail> {
    end_clean(&rt, ODD)
}

const REFUSED_COUNTS: &[Fault<'static>] = &[
    (b"b 2\na 1.5\n", b"b 2\n", ReadKind::DecimalWeight, 2),
    (b"b 2\na 1 2\n", b"b 2\n", ReadKind::TwoColumns, 2),
];

#[test]
fn refused_counts(rt: HostRuntime) -> Result<(), Fail> {
    end_in_faults(&rt, REFUSED_COUNTS)
}

const REFUSED_STARTS: &[Fault<'static>] = &[
    (b"a\t1 2\n", b"", ReadKind::TwoColumns, 1),
    (b"\x1f\x8b", b"", ReadKind::Compressed, 1),
];

const TWO_RETURNS: &[Clean<'static>] = &[(b"a 1\r\r\n", b"", 1)];

#[test]
fn returns_and_tabs(rt: HostRuntime) -> Result<(), Fail> {
    end_clean(&rt, TWO_RETURNS)?;
    end_in_faults(&rt, REFUSED_STARTS)
}

/// Appends a line of so many names `a` and the weight 1.
fn append_deep_line(line: &mut Vec<u8>, names: usize) -> Result<(), AllocError> {
    line.push(b'a')?;
    for _ in 1..names {
        line.extend_from_slice(b";a")?;
    }
    line.extend_from_slice(b" 1\n")
}

/// The deepest line is read, and one that is deeper is a fault.
fn deepest_is_read(rt: &(impl Abort + AllocGlobal), line: &mut Vec<u8>) -> Result<(), AllocError> {
    append_deep_line(line, 4_096)?;
    reads_as(rt, line, line, clean(0))?;
    line.clear();
    append_deep_line(line, 4_097)?;
    ends_in_fault(rt, &(line, b"", ReadKind::TooDeep, 1))
}

/// The greatest weight, and one of nothing.
const HEAVIEST: &[Clean<'static>] = &[(
    b"a 72057594037927935\nb 0\n",
    b"a 72057594037927935\nb 0\n",
    0,
)];

const TOO_HEAVY: &[Fault<'static>] = &[
    (
        b"a 72057594037927935\nb 1\n",
        b"a 72057594037927935\n",
        ReadKind::TotalTooLarge,
        2,
    ),
    (
        b"a 99999999999999999999999999999999999999999\n",
        b"",
        ReadKind::TotalTooLarge,
        1,
    ),
];

#[test]
fn limits_of_weights_and_depth(rt: HostRuntime) -> Result<(), Fail> {
    deepest_is_read(&rt, &mut Vec::new(rt.alloc()))?;
    end_clean(&rt, HEAVIEST)?;
    end_in_faults(&rt, TOO_HEAVY)
}

const COMPRESSED: &[Fault<'static>] = &[(b"\x1f\x8b\x08", b"", ReadKind::Compressed, 1)];

#[test]
fn compressed_and_cut(rt: HostRuntime) -> Result<(), Fail> {
    end_in_faults(&rt, COMPRESSED)
}

/// The text of a cut, its lines, and how many lines it has that are ignored.
const CUTS: &[Clean<'static>] = &[
    (b"", b"", 0),
    (b"a", b"", 1),
    (b"a;", b"", 1),
    (b"a;b", b"", 1),
    (b"a;b ", b"", 1),
    (b"a;b 2", b"a;b 2\n", 0),
    (b"a;b 2\n", b"a;b 2\n", 0),
    (b"a;b 2\na", b"a;b 2\n", 1),
    (b"a;b 2\na ", b"a;b 2\n", 1),
    (b"a;b 2\na 1", b"a;b 2\na 1\n", 0),
    (b"a;b 2\na 1\n", b"a;b 2\na 1\n", 0),
    (b"a;b 2\na 1\na", b"a;b 2\na 1\n", 1),
    (b"a;b 2\na 1\na;", b"a;b 2\na 1\n", 1),
    (b"a;b 2\na 1\na;b", b"a;b 2\na 1\n", 1),
    (b"a;b 2\na 1\na;b ", b"a;b 2\na 1\n", 1),
    (b"a;b 2\na 1\na;b 3", b"a;b 2\na 1\na;b 3\n", 0),
    (b"a;b 2\na 1\na;b 3\n", b"a;b 2\na 1\na;b 3\n", 0),
];

#[test]
fn cut_folded_text(rt: HostRuntime) -> Result<(), Fail> {
    end_clean(&rt, CUTS)
}

const LOSSY: &[Clean<'static>] = &[(
    b"a\xff;\xe2\x82A\xc0 1\n",
    b"a\xef\xbf\xbd;\xef\xbf\xbdA\xef\xbf\xbd 1\n",
    0,
)];

#[test]
fn lossy_names(rt: HostRuntime) -> Result<(), Fail> {
    end_clean(&rt, LOSSY)
}

const BEGIN_ALIKE: &[Clean<'static>] = &[
    (
        b"a;b;c 1\na;b;c;d 2\na;b 3\na;bc 4\na;b;cc 5\na 6\n;a;b 7\n;a;;b 8\na;b;;c 9\n",
        b"a;b;c 1\na;b;c;d 2\na;b 3\na;bc 4\na;b;cc 5\na 6\n;a;b 7\n;a;;b 8\na;b;;c 9\n",
        0,
    ),
    // The head before has `;` at its end, or is not UTF-8.
    (
        b"a;b;; 1\na;b;;c 2\na; 3\n\xff;a 4\n\xff;b 5\n\xff\xfe 6\n",
        b"a;b 1\na;b;;c 2\na 3\n\xef\xbf\xbd;a 4\n\xef\xbf\xbd;b 5\n\xef\xbf\xbd\xef\xbf\xbd 6\n",
        0,
    ),
    // They differ behind the first bytes, which are compared in steps.
    (
        b"a_name_of_thirty-two_bytes_is_one;b 1\na_name_of_thirty-two_bytes_is_one;c 2\na_name_of_thirty-two_bytes_is_two;c 3\n",
        b"a_name_of_thirty-two_bytes_is_one;b 1\na_name_of_thirty-two_bytes_is_one;c 2\na_name_of_thirty-two_bytes_is_two;c 3\n",
        0,
    ),
];

#[test]
fn names_shared_with_the_line_before(rt: HostRuntime) -> Result<(), Fail> {
    end_clean(&rt, BEGIN_ALIKE)
}

const OF_KNOWN_HEADS: &[Fault<'static>] = &[
    (
        b"a 72057594037927935\na 1\n",
        b"a 72057594037927935\n",
        ReadKind::TotalTooLarge,
        2,
    ),
    (b"a 1\na 1.5\n", b"a 1\n", ReadKind::DecimalWeight, 2),
    (b"a 1\na 1 2\n", b"a 1\n", ReadKind::TwoColumns, 2),
    // The stack of the first line has the name `a 5`, and the head of the second is it.
    (b"a 5; 1\na 5 1\n", b"a 5 1\n", ReadKind::TwoColumns, 2),
];

const KNOWN_HEADS: &[Clean<'static>] = &[(b"a 1\na\na x\na 2\n", b"a 1\na 2\n", 2)];

/// A line whose head is known has the faults that its count has.
#[test]
fn known_heads_have_faults(rt: HostRuntime) -> Result<(), Fail> {
    end_in_faults(&rt, OF_KNOWN_HEADS)?;
    end_clean(&rt, KNOWN_HEADS)
}
