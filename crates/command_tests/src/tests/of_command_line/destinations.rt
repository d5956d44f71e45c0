//! Where worked command lines want what they ask for.

use super::lines::{none_fails, words_of};
use command_line::{Destination, asked_destination};
use std::alloc::{AllocError, Global};
use std::test::Fail;

/// Where a line is to be written.
#[derive(Clone, Copy)]
enum Place<'a> {
    /// To standard output, what may be a page or a picture.
    Standard(bool),
    /// To this file.
    File(&'a str),
    /// To this file, page after page.
    Pages(&'a str),
}

const PLACES: &[(&str, Place<'static>)] = &[
    ("live a", Place::Standard(false)),
    ("live -o x.json a", Place::File("x.json")),
    ("live --page x.html a", Place::Pages("x.html")),
    ("live --page=x.html -o y", Place::Standard(false)),
    ("live --page x.html --help", Place::Standard(false)),
    ("graph --page a", Place::Standard(true)),
    ("graph --page -o x.html a", Place::File("x.html")),
    ("svg cpu.pb", Place::File("cpu.pb.svg")),
];

fn is_place(found: &Destination, place: Place<'_>) -> bool {
    match found {
        Destination::Standard { is_document } => {
            matches!(place, Place::Standard(wanted) if wanted == *is_document)
        }
        Destination::File(path) => matches!(place, Place::File(wanted) if wanted == path.get()),
        Destination::Pages(path) => matches!(place, Place::Pages(wanted) if wanted == path.get()),
    }
}

fn is_placed(alloc: Global, line: &str, place: Place<'_>) -> Result<bool, AllocError> {
    let words = words_of(alloc, line)?;
    Ok(is_place(&asked_destination(alloc, words.as_slice())?, place))
}

// The first line that is written elsewhere than stands beside it.
fn first_elsewhere<'a>(
    alloc: Global,
    rows: &[(&'a str, Place<'_>)],
) -> Result<Option<&'a str>, AllocError> {
    for (line, place) in rows {
        if !is_placed(alloc, *line, *place)? {
            return Ok(Some(*line));
        }
    }
    Ok(None)
}

#[test]
fn destinations_of_lines(rt: HostRuntime) -> Result<(), Fail> {
    none_fails(&rt, first_elsewhere(rt.alloc(), PLACES))
}
