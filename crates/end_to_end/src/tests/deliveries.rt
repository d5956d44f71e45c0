//! Runs that write to a file, which takes its place when it is whole.
ghost use Rattle.std.specs.Prelude.{◌≡◌, false, OnErr, OnOk, string_bytes};
ghost use Rattle.flame_tool.specs.Outputs.{placed_after, unknown_placed};

use crate::tests::answers::{Case, SILENT, Written, add_files, only_input, texts};
use crate::tests::holds;
use crate::tests::outputs::Stingy;
use crate::tests::worked::{AFTER, BEFORE, CHANGES, GRAPH_OF_THREE_LINES, THREE_LINES};
use flame_tool::{
    CountedWriter, Draft, Files, MemoryFiles, MemoryOutputs, Outlet, OutputStep, Outputs, Streams,
};
use std::alloc::{AllocError, Global};
use std::io;
use std::io::Write;
use std::process::Abort;
use std::sync::Wait;
use std::test::Fail;
use std::thread::Threads;

/// A run, and the bytes of the file `y`, if that takes its place.
#[derive(Clone, Copy)]
struct Delivery<'a> {
    case: Case<'a>,
    placed: Option<&'a str>,
}

/// A line that is ignored is told, and the file is whole.
const FOLDED: Delivery<'static> = Delivery {
    case: Case {
        words: &["fold", "-o", "y", "x"],
        files: &[("x", b"a;b 2\na 1\nc\n")],
        err: "flamecollect: x: ignored 1\n",
        ..SILENT
    },
    placed: Some("a 1\na;b 2\n"),
};

const OF_THE_INPUT: Delivery<'static> = Delivery {
    case: Case {
        words: &["fold", "--output=y"],
        input: b"a 1\n",
        ..SILENT
    },
    placed: Some("a 1\n"),
};

const WITH_A_FAULT: Delivery<'static> = Delivery {
    case: Case {
        words: &["fold", "-o", "y", "x"],
        files: &[("x", b"a 1\nb 1.5\n")],
        status: 1,
        err: "flamecollect: x: DecimalWeight at 2\n",
        ..SILENT
    },
    placed: None,
};

const OF_NO_FILE: Delivery<'static> = Delivery {
    case: Case {
        words: &["fold", "-o", "y", "x"],
        status: 3,
        err: "flamecollect: x: cannot be read\n",
        ..SILENT
    },
    placed: None,
};

/// What grew over the limit is shown.
const GROWN: Delivery<'static> = Delivery {
    case: Case {
        words: &["diff", "--fail-over", "5", "-o", "y", "old", "new"],
        files: &[("old", BEFORE), ("new", AFTER)],
        status: 4,
        err: "flamecollect: grew by more than 5 %: c\n",
        ..SILENT
    },
    placed: Some(CHANGES),
};

const LIVE: Delivery<'static> = Delivery {
    case: Case {
        words: &["live", "--width", "10", "-o", "y", "x"],
        files: &[("x", THREE_LINES)],
        ..SILENT
    },
    placed: Some(GRAPH_OF_THREE_LINES),
};

/// The samples before a fault are shown.
const LIVE_WITH_A_FAULT: Delivery<'static> = Delivery {
    case: Case {
        words: &["live", "--width", "10", "-o", "y", "x"],
        files: &[("x", b"a 1\nc 0\nb 2\nb 1.5\nd 1\n")],
        status: 1,
        err: "flamecollect: x: DecimalWeight at 4\n",
        ..SILENT
    },
    placed: Some(GRAPH_OF_THREE_LINES),
};

const LIVE_OF_NO_FILE: Delivery<'static> = Delivery {
    case: Case {
        words: &["live", "-o", "y", "x"],
        status: 3,
        err: "flamecollect: x: cannot be read\n",
        ..SILENT
    },
    placed: None,
};

/// Of words without `-o` no file is written.
const TO_STANDARD_OUTPUT: Delivery<'static> = Delivery {
    case: Case {
        words: &["fold"],
        input: b"a 1\n",
        out: "a 1\n",
        ..SILENT
    },
    placed: None,
};

const EACH: &[Delivery<'static>] = &[
    FOLDED,
    OF_THE_INPUT,
    WITH_A_FAULT,
    OF_NO_FILE,
    GROWN,
    LIVE,
    LIVE_WITH_A_FAULT,
    LIVE_OF_NO_FILE,
    TO_STANDARD_OUTPUT,
];

/// `flame_tool::deliver` without its clauses, so that what calls it is proved without them.
fn deliver<
    T: Threads + Wait + Copy + Send + 'static,
    F: Files + Streams,
    D: Outputs,
    W: Outlet,
    E: Outlet,
>(
    rt: &T,
    alloc: Global,
    words: Vec<String>,
    files: &mut F,
    outputs: &mut D,
    out: &mut W,
    err: &mut E,
) -> u8 {
    flame_tool::deliver(rt, alloc, words, files, outputs, out, err)
}

/// Runs the program with these words, and answers its status.
pub fn status_of<T: Threads + Wait + Copy + Send + 'static, D: Outputs, W: Write, E: Write>(
    rt: &T,
    alloc: Global,
    words: &[&str],
    files: &mut MemoryFiles,
    outputs: &mut D,
    out: &mut W,
    err: &mut E,
) -> Result<u8, AllocError> {
    let words = texts(alloc, words)?;
    let mut out = CountedWriter::new(out);
    let mut err = CountedWriter::new(err);
    Ok(deliver(rt, alloc, words, files, outputs, &mut out, &mut err))
}

/// Whether just this file took its place, or none.
fn has_placed(outputs: &MemoryOutputs, wanted: Option<&str>) -> bool {
    match (outputs.placed(), wanted) {
        ([], None) => true,
        ([file], Some(text)) => {
            file.path.as_str() == "y" && file.bytes.as_slice() == text.as_bytes()
        }
        _ => false,
    }
}

/// Whether a run over these outputs ends as it is to.
fn ends_over<T: Threads + Wait + Copy + Send + 'static>(
    rt: &T,
    alloc: Global,
    wanted: &Delivery<'_>,
    outputs: &mut MemoryOutputs,
) -> Result<bool, AllocError> {
    let case = &wanted.case;
    let mut files = only_input(alloc, case.input)?;
    add_files(alloc, &mut files, case.files)?;
    let mut written = Written::nothing(alloc);
    let (out, err) = (&mut written.out, &mut written.err);
    let status = status_of(rt, alloc, case.words, &mut files, outputs, out, err)?;
    Ok(
        status == case.status
            && written.out.as_slice() == case.out.as_bytes()
            && written.err.as_slice() == case.err.as_bytes()
            && has_placed(outputs, wanted.placed),
    )
}

fn each_ends<T: Threads + Wait + Copy + Send + 'static>(
    rt: &T,
    alloc: Global,
    cases: &[Delivery<'_>],
) -> Result<bool, AllocError> {
    for wanted in cases {
        if !ends_over(rt, alloc, wanted, &mut MemoryOutputs::new(alloc))? {
            return Ok(false);
        }
    }
    Ok(true)
}

#[test]
fn files_are_left_where_they_are_whole(rt: HostRuntime) -> Result<(), Fail> {
    holds(&rt, each_ends(&rt, rt.alloc(), EACH))
}

const FAILED: &str = "flamecollect: output failed\n";

/// Where the file can't be made, nothing is read.
fn fails_at_its_beginning<T: Threads + Wait + Copy + Send + 'static>(
    rt: &T,
    alloc: Global,
    delivery: Delivery<'_>,
) -> Result<bool, AllocError> {
    let case = Case {
        status: 3,
        err: FAILED,
        ..delivery.case
    };
    let wanted = Delivery { case, placed: None };
    let mut outputs = MemoryOutputs::new(alloc).failing_at(OutputStep::Begin);
    ends_over(rt, alloc, &wanted, &mut outputs)
}

/// Where it can't take its place, that is said behind what is said of the sources.
fn fails_at_its_place<T: Threads + Wait + Copy + Send + 'static>(
    rt: &T,
    alloc: Global,
    delivery: Delivery<'_>,
    err: &str,
) -> Result<bool, AllocError> {
    let case = Case {
        status: 3,
        err,
        ..delivery.case
    };
    let wanted = Delivery { case, placed: None };
    let mut outputs = MemoryOutputs::new(alloc).failing_at(OutputStep::Place);
    ends_over(rt, alloc, &wanted, &mut outputs)
}

fn fails_at_each_step<T: Threads + Wait + Copy + Send + 'static>(
    rt: &T,
    alloc: Global,
) -> Result<bool, AllocError> {
    let told = "flamecollect: x: ignored 1\nflamecollect: output failed\n";
    Ok(
        fails_at_its_beginning(rt, alloc, FOLDED)?
            && fails_at_its_beginning(rt, alloc, LIVE)?
            && fails_at_its_place(rt, alloc, FOLDED, told)?
            && fails_at_its_place(rt, alloc, LIVE, FAILED)?,
    )
}

#[test]
fn files_that_fail(rt: HostRuntime) -> Result<(), Fail> {
    holds(&rt, fails_at_each_step(&rt, rt.alloc()))
}

const ON_A_TERMINAL: &str =
    "flamecollect: a page or a picture is not for a terminal: -o FILE writes it to a file\n";

/// A page, which goes to no terminal.
const PAGE: Case<'static> = Case {
    words: &["graph", "--page", "x"],
    files: &[("x", THREE_LINES)],
    status: 2,
    err: ON_A_TERMINAL,
    ..SILENT
};

const PICTURE: Case<'static> = Case {
    words: &["svg"],
    ..PAGE
};

/// On a terminal a text is written, and so is a file.
const ON_TERMINALS: &[Delivery<'static>] = &[
    Delivery {
        case: PAGE,
        placed: None,
    },
    Delivery {
        case: PICTURE,
        placed: None,
    },
    FOLDED,
    TO_STANDARD_OUTPUT,
];

fn refuses_a_terminal<T: Threads + Wait + Copy + Send + 'static>(
    rt: &T,
    alloc: Global,
) -> Result<bool, AllocError> {
    let mut all = true;
    for wanted in ON_TERMINALS {
        all &= ends_over(
            rt,
            alloc,
            wanted,
            &mut MemoryOutputs::new(alloc).on_terminal(),
        )?;
    }
    Ok(all)
}

#[test]
fn pages_and_pictures_on_terminals(rt: HostRuntime) -> Result<(), Fail> {
    holds(&rt, refuses_a_terminal(&rt, rt.alloc()))
}

/// Files that take only so many bytes, and how many took their places.
#[derive(Drop)]
struct StingyOutputs {
    room: usize,
    placed: u64,
}

impl Outputs for StingyOutputs {
    type Writer = CountedWriter<Stingy>;

    ghost placed = { λ _. unknown_placed };

    ghost has_terminal = { λ _. false };

    fn begin(&mut self, alloc: Global, path: &str) -> io::Result<Draft<CountedWriter<Stingy>>> {
        let path = String::from_str(alloc, path)?;
        let writer = CountedWriter::new(Stingy::with_room(alloc, self.room));
        Ok(Draft::new(path, writer))
    }

    fn place(&mut self, draft: Draft<CountedWriter<Stingy>>) -> io::Result<()>
        ensures ok { OnOk result (unknown_placed ≡ placed_after unknown_placed
            (string_bytes draft.path) (⟦<CountedWriter<Stingy> as Outlet>⟧.contents draft.writer)) }
        ensures err { OnErr result (unknown_placed ≡ unknown_placed) }
        ensures terminal { false ≡ false }
    {
        self.placed = self.placed.saturating_add(1);
        Ok(())
    }

    fn discard(&mut self, _draft: Draft<CountedWriter<Stingy>>)
        ensures unplaced { unknown_placed ≡ unknown_placed }
        ensures terminal { false ≡ false }
    {}

    fn is_terminal(&self) -> bool {
        false
    }
}

/// Wherever the file fails, at the last place where it is flushed, it does not take its place.
fn fails_wherever<T: Threads + Wait + Copy + Send + 'static>(
    rt: &T,
    alloc: Global,
) -> Result<bool, AllocError> {
    let mut all = true;
    for room in 0..11 {
        let mut files = only_input(alloc, b"a;b 2\na 1\na;b 3\n")?;
        let mut outputs = StingyOutputs { room, placed: 0 };
        let mut written = Written::nothing(alloc);
        let (out, err) = (&mut written.out, &mut written.err);
        let words = &["fold", "-o", "y"];
        let status = status_of(rt, alloc, words, &mut files, &mut outputs, out, err)?;
        all &= status == 3 && outputs.placed == 0 && written.out.is_empty();
        all &= written.err.as_slice() == FAILED.as_bytes();
    }
    Ok(all)
}

#[test]
fn each_write_of_a_file_fails_in_turn(rt: HostRuntime) -> Result<(), Fail> {
    holds(&rt, fails_wherever(&rt, rt.alloc()))
}
