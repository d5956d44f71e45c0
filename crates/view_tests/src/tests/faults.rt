//! Faults in the bytes of a source, and the samples before them, as its list has them.

use super::formats::{CPU, FUNCTION, LOCATION, NO_TEXT, NS, SAMPLE, TYPE, Whole, reads_to};
use super::shown::Part;
use crate::tests::holds;
use crate::tests::worked::BASE;
use flame_tool::Format;
use ring_collect::CollectFault;
use stack_core::{ReadFault, ReadKind, SourceEnd};
use std::alloc::Global;
use std::sync::Wait;
use std::test::Fail;
use std::thread::Threads;

/// A source, and the kind and the place of its fault.
type Faulty = (Whole, ReadKind, u64);

fn read_to_faults<T: Threads + Wait + Copy + Send + 'static>(
    rt: &T,
    alloc: Global,
    sources: &[Faulty],
) -> Result<bool, CollectFault> {
    for (source, kind, at) in sources {
        let fault = SourceEnd::Fault(ReadFault {
            kind: *kind,
            at: *at,
        });
        if !reads_to(rt, alloc, *source, fault)? {
            return Ok(false);
        }
    }
    Ok(true)
}

const GZIP: &[Part] = &[(&[0x1f, 0x8b, 0x08], 1)];

const CUT_SHORT: &[Faulty] = &[
    ((Format::Pprof, GZIP, &[]), ReadKind::Compressed, 0),
    ((Format::Folded, GZIP, &[]), ReadKind::Compressed, 1),
    (
        (Format::Pprof, &[(&[0x0a], 1)], &[]),
        ReadKind::Truncated,
        0,
    ),
    ((Format::Pprof, &[TYPE], &[]), ReadKind::BadString, 0),
    (
        (
            Format::Pprof,
            &[TYPE, SAMPLE, (&[0x22, 0x06, 0x08, 0x01, 0x22, 0x02], 1)],
            &[],
        ),
        ReadKind::Truncated,
        14,
    ),
    (
        (
            Format::Pprof,
            &[TYPE, SAMPLE, LOCATION, FUNCTION, NO_TEXT, CPU],
            &[],
        ),
        ReadKind::BadString,
        0,
    ),
    (
        (
            Format::Pprof,
            &[TYPE, SAMPLE, LOCATION, FUNCTION, NO_TEXT, CPU, NS],
            &[],
        ),
        ReadKind::BadString,
        22,
    ),
    (
        (
            Format::Pprof,
            &[
                TYPE,
                SAMPLE,
                LOCATION,
                FUNCTION,
                NO_TEXT,
                CPU,
                NS,
                (&[0x32, 0x04, 0x6d, 0x61, 0x69], 1),
            ],
            &[],
        ),
        ReadKind::Truncated,
        39,
    ),
];

#[test]
fn sources_that_are_cut_short(rt: HostRuntime) -> Result<(), Fail> {
    holds(&rt, read_to_faults(&rt, rt.alloc(), CUT_SHORT))
}

/// A second sample, of which the preferred value is -1, and the other one 5.
pub(super) const NEGATIVE: &[Part] = &[
    (BASE, 1),
    (&[0x12, 0x10, 0x0a, 0x01, 0x01, 0x12, 0x0b, 0x05], 1),
    (&[0xff], 9),
    (&[0x01], 1),
];

const FAULTY_SAMPLES: &[Faulty] = &[
    (
        (Format::Pprof, NEGATIVE, &[(&["f"], 9)]),
        ReadKind::NegativeWeight,
        48,
    ),
    (
        (
            Format::Pprof,
            &[(BASE, 1), (&[0x12, 0x02, 0x0a, 0x05], 1)],
            &[(&["f"], 9)],
        ),
        ReadKind::Truncated,
        48,
    ),
    (
        (
            Format::Pprof,
            &[
                (BASE, 1),
                (&[0x12, 0x06, 0x0a, 0x01, 0x01, 0x12, 0x01, 0x07], 1),
            ],
            &[(&["f"], 9)],
        ),
        ReadKind::ValueCount,
        48,
    ),
    (
        (
            Format::Pprof,
            &[
                (BASE, 1),
                (&[0x12, 0x07, 0x0a, 0x01, 0x02, 0x12, 0x02, 0x05, 0x09], 1),
            ],
            &[(&["f"], 9)],
        ),
        ReadKind::UnknownLocation,
        48,
    ),
];

#[test]
fn samples_before_a_fault(rt: HostRuntime) -> Result<(), Fail> {
    holds(&rt, read_to_faults(&rt, rt.alloc(), FAULTY_SAMPLES))
}

const FAULTY_FIELDS: &[Faulty] = &[
    (
        (Format::Pprof, &[(BASE, 1), (&[0x80], 9), (&[0x02], 1)], &[]),
        ReadKind::BadVarint,
        48,
    ),
    (
        (Format::Pprof, &[(BASE, 1), (&[0x00], 1)], &[]),
        ReadKind::BadFieldNumber,
        48,
    ),
    (
        (Format::Pprof, &[(BASE, 1), (&[0x0b], 1)], &[]),
        ReadKind::BadWireType,
        48,
    ),
    (
        (Format::Pprof, &[(BASE, 1), (&[0x72, 0x00], 1)], &[]),
        ReadKind::WrongKind,
        48,
    ),
    (
        (Format::Pprof, &[(BASE, 1), (&[0x22, 0x00], 1)], &[]),
        ReadKind::ZeroId,
        48,
    ),
    (
        (Format::Pprof, &[(BASE, 1), FUNCTION], &[]),
        ReadKind::DuplicateId,
        48,
    ),
    (
        (
            Format::Pprof,
            &[
                (BASE, 1),
                (&[0x22, 0x06, 0x08, 0x02, 0x22, 0x02, 0x08, 0x07], 1),
            ],
            &[],
        ),
        ReadKind::UnknownFunction,
        48,
    ),
    (
        (Format::Pprof, &[(BASE, 1), (&[0x70, 0x04], 1)], &[]),
        ReadKind::BadString,
        48,
    ),
    (
        (Format::Pprof, &[(&[0x32, 0x01, 0x61], 1)], &[]),
        ReadKind::BadStringZero,
        0,
    ),
    (
        (Format::Pprof, &[(&[0x12, 0x00], 1)], &[]),
        ReadKind::NoSampleType,
        2,
    ),
];

#[test]
fn faults_of_tables(rt: HostRuntime) -> Result<(), Fail> {
    holds(&rt, read_to_faults(&rt, rt.alloc(), FAULTY_FIELDS))
}
