//! Runs whose sources are read in different ways.
ghost use Rattle.std.specs.Prelude.{◌≡◌, IfOk, None};

use super::faults::NEGATIVE;
use super::shown::{Given, is_read, see};
use super::stated::{CLEAN, Listed};
use crate::tests::holds;
use crate::tests::worked::{BASE, INLINED_LINES};
use flame_tool::{Filter, Format, Options, Views};
use profile_tables::{Naming, Pick};
use ring_collect::{CollectFault, RingSize};
use stack_core::{Names, OpenGate, ReadFault, ReadKind, SourceEnd, Text};
use std::alloc::{AllocError, Global};
use std::process::Abort;
use std::sync::Wait;
use std::test::Fail;
use std::thread::Threads;

/// What a run reads and how, its lists, and what all samples weigh.
struct Reading {
    given: &'static [Given],
    ring: u32,
    /// The sample type of a profile, where it is not the preferred one.
    picked: Option<&'static str>,
    naming: Naming,
    focus: &'static [&'static str],
    hide: &'static [&'static str],
    lists: &'static [Listed],
    total: u128,
}

fn pick_of(alloc: Global, reading: &Reading) -> Result<Pick, AllocError> {
    match reading.picked {
        Some(name) => Ok(Pick::Named(Text::from_str(alloc, name)?)),
        None => Ok(Pick::Preferred),
    }
}

fn filter_of(alloc: Global, reading: &Reading) -> Result<Filter, AllocError> {
    Ok(Filter {
        focus: Names::from_strs(alloc, reading.focus)?,
        hide: Names::from_strs(alloc, reading.hide)?,
    })
}

fn options_of(alloc: Global, reading: &Reading, ring: RingSize) -> Result<Options, AllocError>
    ensures { IfOk result (λ options. options.every ≡ None) }
{
    Ok(Options {
        ring,
        pick: pick_of(alloc, reading)?,
        naming: reading.naming,
        filter: filter_of(alloc, reading)?,
        every: None,
    })
}

fn reads<T: Threads + Wait + Copy + Send + 'static>(
    rt: &T,
    alloc: Global,
    reading: &Reading,
) -> Result<bool, CollectFault> {
    let Some(ring) = RingSize::of(reading.ring) else {
        return Ok(false);
    };
    let options = options_of(alloc, reading, ring)?;
    let Reading {
        given,
        lists,
        total,
        ..
    } = *reading;
    is_read(rt, alloc, given, &options, OpenGate, (lists, total))
}

fn reads_each<T: Threads + Wait + Copy + Send + 'static>(
    rt: &T,
    alloc: Global,
    readings: &[Reading],
) -> Result<bool, CollectFault> {
    for reading in readings {
        if !reads(rt, alloc, reading)? {
            return Ok(false);
        }
    }
    Ok(true)
}

/// Each of these is read as it is to be.
fn read_so<T: Threads + Wait + Abort + AllocGlobal + Copy + Send + 'static>(
    rt: &T,
    readings: &[Reading],
) -> Result<(), Fail> {
    holds(rt, reads_each(rt, rt.alloc(), readings))
}

/// An empty folded source, and a profile of two sample types.
const PICKED: Reading = Reading {
    given: &[(Format::Folded, &[]), (Format::Pprof, &[(BASE, 1)])],
    ring: 4,
    picked: None,
    naming: Naming::Plain,
    focus: &[],
    hide: &[],
    lists: &[(&[], 1, CLEAN), (&[(&["f"], 9)], 1, CLEAN)],
    total: 9,
};

/// The preferred sample type, and one by its name.
const PICKINGS: &[Reading] = &[
    PICKED,
    Reading {
        picked: Some("n"),
        lists: &[(&[], 1, CLEAN), (&[(&["f"], 5)], 1, CLEAN)],
        total: 5,
        ..PICKED
    },
    // The second sample has 5 and -1.
    Reading {
        given: &[(Format::Pprof, NEGATIVE)],
        picked: Some("n"),
        lists: &[(&[(&["f"], 5)], 2, CLEAN)],
        total: 10,
        ..PICKED
    },
];

#[test]
fn picking_a_value(rt: HostRuntime) -> Result<(), Fail> {
    read_so(&rt, PICKINGS)
}

/// An empty folded source, and a profile with an inlined function.
const INLINED: Reading = Reading {
    given: &[
        (Format::Folded, &[]),
        (Format::Pprof, &[(INLINED_LINES, 1)]),
    ],
    lists: &[(&[], 1, CLEAN), (&[(&["printf", "memcpy"], 7)], 1, CLEAN)],
    total: 7,
    ..PICKED
};

/// Without lines, and with them.
const NAMINGS: &[Reading] = &[
    INLINED,
    Reading {
        naming: Naming::Lines,
        lists: &[
            (&[], 1, CLEAN),
            (&[(&["printf:40", "memcpy:12"], 7)], 1, CLEAN),
        ],
        ..INLINED
    },
];

#[test]
fn lines_of_inlined_frames(rt: HostRuntime) -> Result<(), Fail> {
    read_so(&rt, NAMINGS)
}

/// There is nothing to see.
fn are_empty(views: &Views) -> Result<bool, CollectFault> {
    Ok(
        views.lists().is_empty()
            && views.order().is_empty()
            && views.table().len() == 0
            && views.tree().total(&[]) == 0
            && views.graph().is_empty()
            && views.chart().is_empty()
            && views.snapshots().is_empty(),
    )
}

#[test]
fn no_sources(rt: HostRuntime) -> Result<(), Fail> {
    see(&rt, &[], 1, Some(1), &are_empty)
}

const DECIMAL: SourceEnd = SourceEnd::Fault(ReadFault {
    kind: ReadKind::DecimalWeight,
    at: 2,
});

const ONE_IGNORED: SourceEnd = SourceEnd::Clean { ignored: 1 };

/// What stands before the fault is seen, and what other sources have.
const REFUSED: &[Reading] = &[Reading {
    given: &[
        (Format::Folded, &[(b"b 2\na 1.5\n", 1)]),
        (Format::Folded, &[(b"c 3\n\n", 1)]),
    ],
    ring: 1,
    lists: &[
        (&[(&["b"], 2)], 1, DECIMAL),
        (&[(&["c"], 3)], 1, ONE_IGNORED),
    ],
    total: 5,
    ..PICKED
}];

#[test]
fn refused_counts(rt: HostRuntime) -> Result<(), Fail> {
    read_so(&rt, REFUSED)
}

/// Of three samples one stands in a parser and reads nothing. The tree and the list have what the filter keeps.
const FILTERED: &[Reading] = &[Reading {
    given: &[(
        Format::Folded,
        &[(b"main;parse;read 5\nmain;parse 3\nmain;layout 2\n", 1)],
    )],
    ring: 2,
    focus: &["pars"],
    hide: &["read"],
    lists: &[(&[(&["main", "parse"], 3)], 1, CLEAN)],
    total: 3,
    ..PICKED
}];

#[test]
fn filtered_samples(rt: HostRuntime) -> Result<(), Fail> {
    read_so(&rt, FILTERED)
}

/// A source as heavy as it may be.
const HEAVIEST: Given = (Format::Folded, &[(b"a 72057594037927935\n", 1)]);

/// The weights of the graph are those of 64 sources, each as heavy as it may be.
fn are_heaviest(views: &Views) -> Result<bool, CollectFault> {
    let graph = views.graph();
    Ok(
        views.tree().total(&[0]) == 4_611_686_018_427_387_840
            && views.chart().len() == 2
            && graph.len() == 2
            && graph[1].own == 4_611_686_018_427_387_840,
    )
}

/// As many sources as there may be, each as heavy as it may be.
#[test]
fn limits_of_weights_and_depth_by_weights(rt: HostRuntime) -> Result<(), Fail> {
    see(&rt, &[HEAVIEST; 64], 1, None, &are_heaviest)
}
