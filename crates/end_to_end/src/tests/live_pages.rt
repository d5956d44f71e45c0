//! Pages of `live`, which take the place of a file one after the other.
use crate::tests::answers::{Case, SILENT, Written, add_files, only_input};
use crate::tests::deliveries::status_of;
use crate::tests::holds;
use crate::tests::worked::THREE_LINES;
use flame_tool::{MemoryOutputs, NamedFile, OutputStep};
use std::alloc::{AllocError, Global};
use std::sync::Wait;
use std::test::Fail;
use std::thread::Threads;

/// Two samples want a page each time, and the last page has all three.
const OF_THREE_LINES: Case<'static> = Case {
    words: &["live", "--every", "2", "--page", "y", "x"],
    files: &[("x", THREE_LINES)],
    ..SILENT
};

const OF_TWO: &str =
    r#">{"drawings":[{"gap":[0,0],"least":0,"left_out":{"boxes":0,"weight":0},"name":[0,1],"rest":[0,0],"tail":[1,0],"total":1,"up":[1,0]}],"more":true,"names":["all","a"],"sources":[],"title":"flamecollect live","view":"graph","whole":1}<"#;

const OF_ALL: &str =
    r#">{"drawings":[{"gap":[0,0,0],"least":0,"left_out":{"boxes":0,"weight":0},"name":[0,1,2],"rest":[0,0,0],"tail":[3,2,2],"total":3,"up":[1,0,1]}],"names":["all","a","b"],"sources":[],"title":"flamecollect live","view":"graph","whole":3}<"#;

/// The samples before a fault are on the last page.
const WITH_A_FAULT: Case<'static> = Case {
    files: &[("x", b"a 1\nc 0\nb 2\nb 1.5\nd 1\n")],
    status: 1,
    err: "flamecollect: x: DecimalWeight at 4\n",
    ..OF_THREE_LINES
};

/// Nothing is read where a stream can't be opened, and no page takes a place.
const OF_NO_FILE: Case<'static> = Case {
    files: &[],
    status: 3,
    err: "flamecollect: x: cannot be read\n",
    ..OF_THREE_LINES
};

const THAT_FAILS: Case<'static> = Case {
    status: 3,
    err: "flamecollect: output failed\n",
    ..OF_THREE_LINES
};

/// Whether a part stands in a text.
fn has_part(text: &[u8], part: &[u8]) -> bool {
    for at in 0..text.len() {
        if text[at..].starts_with(part) {
            return true;
        }
    }
    false
}

/// Whether a page of these data took the place of the file.
fn is_page(page: &NamedFile, data: &str) -> bool {
    page.path.as_str() == "y" && has_part(&page.bytes, data.as_bytes())
}

/// Whether just these pages took their places, in order.
fn has_pages(outputs: &MemoryOutputs, wanted: &[&str]) -> bool {
    let pages = outputs.placed();
    pages.len() == wanted.len()
        && pages
            .iter()
            .zip(wanted)
            .all(|(page, data)| is_page(page, data))
}

/// Whether a run over these outputs leaves these pages.
fn leaves<T: Threads + Wait + Copy + Send + 'static>(
    rt: &T,
    alloc: Global,
    case: &Case<'_>,
    mut outputs: MemoryOutputs,
    pages: &[&str],
) -> Result<bool, AllocError> {
    let mut files = only_input(alloc, case.input)?;
    add_files(alloc, &mut files, case.files)?;
    let mut written = Written::nothing(alloc);
    let (out, err) = (&mut written.out, &mut written.err);
    let status = status_of(rt, alloc, case.words, &mut files, &mut outputs, out, err)?;
    Ok(
        status == case.status
            && written.out.is_empty()
            && written.err.as_slice() == case.err.as_bytes()
            && has_pages(&outputs, pages),
    )
}

fn each_leaves<T: Threads + Wait + Copy + Send + 'static>(
    rt: &T,
    alloc: Global,
) -> Result<bool, AllocError> {
    let outputs = || MemoryOutputs::new(alloc);
    Ok(
        leaves(rt, alloc, &OF_THREE_LINES, outputs(), &[OF_TWO, OF_ALL])?
            && leaves(rt, alloc, &WITH_A_FAULT, outputs(), &[OF_TWO, OF_ALL])?
            && leaves(rt, alloc, &OF_NO_FILE, outputs(), &[])?
            && leaves(
                rt,
                alloc,
                &THAT_FAILS,
                outputs().failing_at(OutputStep::Begin),
                &[],
            )?
            && leaves(
                rt,
                alloc,
                &THAT_FAILS,
                outputs().failing_at(OutputStep::Place),
                &[],
            )?
            && leaves(
                rt,
                alloc,
                &OF_THREE_LINES,
                outputs().on_terminal(),
                &[OF_TWO, OF_ALL],
            )?,
    )
}

#[test]
fn pages_take_their_place_one_after_the_other(rt: HostRuntime) -> Result<(), Fail> {
    holds(&rt, each_leaves(&rt, rt.alloc()))
}
