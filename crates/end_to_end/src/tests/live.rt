//! Live runs over streams in memory, beside runs over the same bytes as whole files.

use crate::tests::answers::{Written, add_files, only_input, status_of, texts};
use crate::tests::holds;
use crate::tests::outputs::Stingy;
use crate::tests::worked::THREE_LINES;
use flame_tool::{CountedWriter, MemoryFiles, Outlet, live, live_plan};
use std::alloc::{AllocError, Global};
use std::io::Write;
use std::sync::Wait;
use std::test::Fail;
use std::thread::Threads;

/// A live run, and how it is to end: it writes what a run with the words of a graph writes of what is shown.
#[derive(Clone, Copy)]
struct LiveCase<'a> {
    words: &'a [&'a str],
    input: &'a [u8],
    files: &'a [(&'a str, &'a [u8])],
    status: u8,
    err: &'a str,
    graph: &'a [&'a str],
    shown: &'a [(&'a str, &'a [u8])],
}

/// Samples of the input, of which there is a snapshot after each two.
const OF_THE_INPUT: LiveCase<'static> = LiveCase {
    words: &["live", "--every", "2", "--width", "10"],
    input: THREE_LINES,
    files: &[],
    status: 0,
    err: "",
    graph: &["graph", "--every", "2", "--width", "10"],
    shown: &[],
};

const OF_NOTHING: LiveCase<'static> = LiveCase {
    words: &["live"],
    input: b"",
    graph: &["graph"],
    ..OF_THE_INPUT
};

/// An ignored line is told, and an end without LF is one.
const OF_A_FILE: LiveCase<'static> = LiveCase {
    words: &["live", "--every", "1", "x"],
    files: &[("x", b"a;b 1\n# no sample\na;c 2\na;b 3")],
    err: "flamecollect: x: ignored 1\n",
    graph: &["graph", "--every", "1", "x"],
    shown: &[("x", b"a;b 1\na;c 2\na;b 3\n")],
    ..OF_NOTHING
};

/// Of two sources a graph without snapshots is the same in whatever order their samples come.
const OF_TWO_FILES: LiveCase<'static> = LiveCase {
    words: &["live", "x", "y"],
    files: &[("x", b"a;b 1\nc 2\n"), ("y", b"a 4\n")],
    err: "",
    graph: &["graph", "x", "y"],
    shown: &[("x", b"a;b 1\nc 2\n"), ("y", b"a 4\n")],
    ..OF_NOTHING
};

/// A fault ends its source, and the other goes on.
const WITH_A_FAULT: LiveCase<'static> = LiveCase {
    files: &[("x", b"a 1\nb 1.5\nc 3\n"), ("y", b"d 4\ne 5\n")],
    status: 1,
    err: "flamecollect: x: DecimalWeight at 2\n",
    shown: &[("x", b"a 1\n"), ("y", b"d 4\ne 5\n")],
    ..OF_TWO_FILES
};

/// Read strictly, an ignored line ends its source as a fault does, and so does a source without a sample.
const STRICTLY: LiveCase<'static> = LiveCase {
    words: &["live", "--strict", "x", "y"],
    files: &[("x", b"a 1\r\nno count\r\nc 3\n"), ("y", b"d 4\ne 5")],
    err: "flamecollect: x: NoCount at 2\n",
    ..WITH_A_FAULT
};

const STRICTLY_NOTHING: LiveCase<'static> = LiveCase {
    files: &[("x", b"a 1\n"), ("y", b"")],
    err: "flamecollect: y: NoSamples at 0\n",
    shown: &[("x", b"a 1\n"), ("y", b"")],
    ..STRICTLY
};

/// Without such a line, and with a fault before one, it is as ever.
const STRICTLY_CLEAN: LiveCase<'static> = LiveCase {
    words: &["live", "--strict", "x", "y"],
    ..OF_TWO_FILES
};

const STRICTLY_FAULTY: LiveCase<'static> = LiveCase {
    words: &["live", "--strict", "x", "y"],
    files: &[("x", b"a 1\nb 1.5\nno count\n"), ("y", b"d 4\ne 5\n")],
    ..WITH_A_FAULT
};

/// `flame_tool::live` of the plan of words, without its clauses, so that what calls it is proved without them.
fn live_status<T: Threads + Wait + Copy + Send + 'static, W: Outlet, E: Outlet>(
    rt: &T,
    alloc: Global,
    words: &[&str],
    files: &mut MemoryFiles,
    out: &mut W,
    err: &mut E,
) -> Result<u8, AllocError> {
    let words = texts(alloc, words)?;
    match live_plan(alloc, words.as_slice()) {
        Some(plan) => Ok(live(rt, alloc, false, &plan, files, out, err)),
        None => Err(AllocError),
    }
}

/// Runs live with these words, and answers its status.
fn lives<T: Threads + Wait + Copy + Send + 'static, W: Write>(
    rt: &T,
    alloc: Global,
    words: &[&str],
    files: &mut MemoryFiles,
    out: &mut W,
    err: &mut Vec<u8>,
) -> Result<u8, AllocError> {
    let mut out = CountedWriter::new(out);
    let mut err = CountedWriter::new(err);
    live_status(rt, alloc, words, files, &mut out, &mut err)
}

/// What a run with the words of a graph writes of what the case shows.
fn graph_of<T: Threads + Wait + Copy + Send + 'static>(
    rt: &T,
    alloc: Global,
    case: &LiveCase<'_>,
) -> Result<Written, AllocError> {
    let mut files = only_input(alloc, case.input)?;
    add_files(alloc, &mut files, case.shown)?;
    let mut written = Written::nothing(alloc);
    let (out, err) = (&mut written.out, &mut written.err);
    let _status = status_of(rt, alloc, case.graph, &mut files, out, err)?;
    Ok(written)
}

fn ends_so<T: Threads + Wait + Copy + Send + 'static>(
    rt: &T,
    alloc: Global,
    case: &LiveCase<'_>,
) -> Result<bool, AllocError> {
    let wanted = graph_of(rt, alloc, case)?;
    let mut files = only_input(alloc, case.input)?;
    add_files(alloc, &mut files, case.files)?;
    let mut written = Written::nothing(alloc);
    let (out, err) = (&mut written.out, &mut written.err);
    let status = lives(rt, alloc, case.words, &mut files, out, err)?;
    Ok(
        status == case.status
            && !wanted.out.is_empty()
            && written.out.as_slice() == wanted.out.as_slice()
            && written.err.as_slice() == case.err.as_bytes(),
    )
}

fn each_ends_so<T: Threads + Wait + Copy + Send + 'static>(
    rt: &T,
    alloc: Global,
    cases: &[LiveCase<'_>],
) -> Result<bool, AllocError> {
    for case in cases {
        if !ends_so(rt, alloc, case)? {
            return Ok(false);
        }
    }
    Ok(true)
}

#[test]
fn writes_what_a_graph_is(rt: HostRuntime) -> Result<(), Fail> {
    let cases = [
        OF_THE_INPUT,
        OF_NOTHING,
        OF_A_FILE,
        OF_TWO_FILES,
        WITH_A_FAULT,
        STRICTLY,
        STRICTLY_NOTHING,
        STRICTLY_CLEAN,
        STRICTLY_FAULTY,
    ];
    holds(&rt, each_ends_so(&rt, rt.alloc(), &cases))
}

/// Ends with this status and message, and writes nothing.
fn ends_at_once<T: Threads + Wait + Copy + Send + 'static>(
    rt: &T,
    alloc: Global,
    words: &[&str],
    status: u8,
    message: &str,
) -> Result<bool, AllocError> {
    let mut files = only_input(alloc, b"a 1\n")?;
    add_files(alloc, &mut files, &[("x", b"a 1\n")])?;
    let mut written = Written::nothing(alloc);
    let (out, err) = (&mut written.out, &mut written.err);
    let found = lives(rt, alloc, words, &mut files, out, err)?;
    Ok(found == status && written.out.is_empty() && written.err.as_slice() == message.as_bytes())
}

#[test]
fn an_absent_file(rt: HostRuntime) -> Result<(), Fail> {
    let words = ["live", "--every", "1", "x", "z", "x", "w"];
    let message = "flamecollect: z: cannot be read\n";
    holds(&rt, ends_at_once(&rt, rt.alloc(), &words, 3, message))
}

#[test]
fn too_many_files(rt: HostRuntime) -> Result<(), Fail> {
    let mut words = ["x"; 66];
    words[0] = "live";
    let message = "flamecollect: too many files\n";
    holds(&rt, ends_at_once(&rt, rt.alloc(), &words, 2, message))
}

/// Wherever the output fails, it is cut there.
fn is_cut_wherever<T: Threads + Wait + Copy + Send + 'static>(
    rt: &T,
    alloc: Global,
) -> Result<bool, AllocError> {
    let whole = graph_of(rt, alloc, &OF_THE_INPUT)?;
    for room in 0..whole.out.len() {
        let mut files = only_input(alloc, THREE_LINES)?;
        let mut out = Stingy::with_room(alloc, room);
        let mut err = Vec::new(alloc);
        let status = lives(
            rt,
            alloc,
            OF_THE_INPUT.words,
            &mut files,
            &mut out,
            &mut err,
        )?;
        let is_cut = out.taken.len() <= room && whole.out.starts_with(out.taken.as_slice());
        let is_told = err.as_slice() == b"flamecollect: output failed\n".as_slice();
        if status != 3 || !is_cut || !is_told {
            return Ok(false);
        }
    }
    Ok(true)
}

#[test]
fn each_write_of_a_line_fails_in_turn(rt: HostRuntime) -> Result<(), Fail> {
    holds(&rt, is_cut_wherever(&rt, rt.alloc()))
}
