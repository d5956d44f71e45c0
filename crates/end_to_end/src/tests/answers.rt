//! Runs over files in memory.

use crate::tests::holds;
use flame_tool::{CountedWriter, Files, MemoryFiles, NamedFile, Outlet, SOURCE_LIMIT};
use std::alloc::{AllocError, Global};
use std::io::Write;
use std::process::Abort;
use std::sync::Wait;
use std::test::Fail;
use std::thread::Threads;

/// What a run is given, and how it is to end.
#[derive(Clone, Copy)]
pub(super) struct Case<'a> {
    pub(super) words: &'a [&'a str],
    pub(super) files: &'a [(&'a str, &'a [u8])],
    pub(super) input: &'a [u8],
    pub(super) status: u8,
    pub(super) out: &'a str,
    pub(super) err: &'a str,
}

/// Without words, files and input a run succeeds, and writes nothing.
pub(super) const SILENT: Case<'static> = Case {
    words: &[],
    files: &[],
    input: b"",
    status: 0,
    out: "",
    err: "",
};

/// What went out of a run.
#[derive(Drop)]
pub(super) struct Written {
    pub(super) out: Vec<u8>,
    pub(super) err: Vec<u8>,
}

impl Written {
    pub(super) fn nothing(alloc: Global) -> Written {
        Written {
            out: Vec::new(alloc),
            err: Vec::new(alloc),
        }
    }
}

pub(super) fn texts(alloc: Global, words: &[&str]) -> Result<Vec<String>, AllocError> {
    let mut texts = Vec::new(alloc);
    for word in words {
        texts.push(String::from_str(alloc, word)?)?;
    }
    Ok(texts)
}

fn named(alloc: Global, path: &str, bytes: &[u8]) -> Result<NamedFile, AllocError> {
    Ok(NamedFile {
        path: String::from_str(alloc, path)?,
        bytes: bytes.to_vec(alloc)?,
    })
}

pub(super) fn add_files(
    alloc: Global,
    files: &mut MemoryFiles,
    given: &[(&str, &[u8])],
) -> Result<(), AllocError> {
    for (path, bytes) in given {
        files.add(named(alloc, path, bytes)?)?;
    }
    Ok(())
}

/// `flame_tool::run` without its clauses, so that what calls it is proved without them.
pub(super) fn run<T: Threads + Wait + Copy + Send + 'static, F: Files, W: Outlet, E: Outlet>(
    rt: &T,
    alloc: Global,
    words: Vec<String>,
    files: &mut F,
    out: &mut W,
    err: &mut E,
) -> u8 {
    flame_tool::run(rt, alloc, words, files, out, err)
}

/// Runs the program with these words, and answers its status.
pub(super) fn status_of<T: Threads + Wait + Copy + Send + 'static, F: Files, W: Write, E: Write>(
    rt: &T,
    alloc: Global,
    words: &[&str],
    files: &mut F,
    out: &mut W,
    err: &mut E,
) -> Result<u8, AllocError> {
    let words = texts(alloc, words)?;
    let mut out = CountedWriter::new(out);
    let mut err = CountedWriter::new(err);
    Ok(run(rt, alloc, words, files, &mut out, &mut err))
}

/// Runs over these files, beside which it has those of the case, and ends as it is to.
fn ends_over<T: Threads + Wait + Copy + Send + 'static>(
    rt: &T,
    alloc: Global,
    case: &Case<'_>,
    files: &mut MemoryFiles,
    written: &mut Written,
) -> Result<bool, AllocError> {
    add_files(alloc, files, case.files)?;
    let (out, err) = (&mut written.out, &mut written.err);
    let status = status_of(rt, alloc, case.words, files, out, err)?;
    Ok(
        status == case.status
            && written.out.as_slice() == case.out.as_bytes()
            && written.err.as_slice() == case.err.as_bytes(),
    )
}

/// No file, and this input.
pub(super) fn only_input(alloc: Global, input: &[u8]) -> Result<MemoryFiles, AllocError> {
    Ok(MemoryFiles::new(alloc, input.to_vec(alloc)?, SOURCE_LIMIT))
}

/// A run ends as it is to.
fn ends_so<T: Threads + Wait + Copy + Send + 'static>(
    rt: &T,
    alloc: Global,
    case: &Case<'_>,
) -> Result<bool, AllocError> {
    let mut files = only_input(alloc, case.input)?;
    ends_over(rt, alloc, case, &mut files, &mut Written::nothing(alloc))
}

/// The same where a text that is a file is read as a stream.
fn ends_so_over_streams<T: Threads + Wait + Copy + Send + 'static>(
    rt: &T,
    alloc: Global,
    case: &Case<'_>,
) -> Result<bool, AllocError> {
    let mut files = only_input(alloc, case.input)?.with_stored();
    ends_over(rt, alloc, case, &mut files, &mut Written::nothing(alloc))
}

fn each_ends_so<T: Threads + Wait + Copy + Send + 'static>(
    rt: &T,
    alloc: Global,
    cases: &[Case<'_>],
) -> Result<bool, AllocError> {
    for case in cases {
        if !ends_so(rt, alloc, case)? || !ends_so_over_streams(rt, alloc, case)? {
            return Ok(false);
        }
    }
    Ok(true)
}

/// Each of these runs ends as it is to.
pub(super) fn end_so<T: Threads + Wait + AllocGlobal + Abort + Copy + Send + 'static>(
    rt: &T,
    cases: &[Case<'_>],
) -> Result<(), Fail> {
    holds(rt, each_ends_so(rt, rt.alloc(), cases))
}
