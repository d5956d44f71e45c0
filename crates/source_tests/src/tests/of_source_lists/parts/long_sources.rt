//! Long sources, and how they end.

use run_options::Format;
use stack_core::{ReadFault, ReadKind, SourceEnd};

/// Bytes, and how often they come.
pub type Repeated = (&'static [u8], usize);

/// What stands one after another in a long source: bytes, and how often they come together.
pub type Section = (&'static [Repeated], usize);

/// A long source, and how it ends.
pub type Long = (Format, &'static [Section], SourceEnd);

/// Four lines, of which the third is ignored, and so long that a text of 2,000 times these lines has four readers.
const FOUR_LINES: &[Repeated] = &[
    (b"main;parse;read_a_line_of_text 1\nmain;merge 2\n#", 1),
    (b" a long comment", 450),
    (b"\nmain;parse;cut 3\n", 1),
];

/// The four lines so often that 6,000 lines come before others.
const BEFORE: Section = (FOUR_LINES, 1_500);

const AFTER: Section = (FOUR_LINES, 500);

/// A line after 6,000 others, which is of another name, of other bytes, or empty.
pub const TEXTS: &[Long] = &[
    (
        Format::Folded,
        &[BEFORE, (&[(b"other;name 7\n", 1)], 1), AFTER],
        SourceEnd::Clean { ignored: 2_000 },
    ),
    (
        Format::Folded,
        &[BEFORE, (&[(b"\x1f\x8b 7\n", 1)], 1), AFTER],
        SourceEnd::Clean { ignored: 2_000 },
    ),
    (
        Format::Folded,
        &[BEFORE, (&[(b"\n", 1)], 1), AFTER],
        SourceEnd::Clean { ignored: 2_001 },
    ),
];

/// A line with a fault after 6,000 others.
pub const WITH_FAULT: &[Long] = &[
    (
        Format::Folded,
        &[BEFORE, (&[(b"main 1.5\n", 1)], 1), AFTER],
        SourceEnd::Fault(ReadFault {
            kind: ReadKind::DecimalWeight,
            at: 6_001,
        }),
    ),
    (
        Format::Folded,
        &[BEFORE, (&[(b"main 1 2\n", 1)], 1), AFTER],
        SourceEnd::Fault(ReadFault {
            kind: ReadKind::TwoColumns,
            at: 6_001,
        }),
    ),
    (
        Format::Folded,
        &[BEFORE, (&[(b"main 72057594037927935\n", 1)], 1), AFTER],
        SourceEnd::Fault(ReadFault {
            kind: ReadKind::TotalTooLarge,
            at: 6_001,
        }),
    ),
];

const HALF_OF_ALL: Section = (&[(b"main 36028797018963968\n", 1)], 1);

/// No part weighs too much, and all do.
pub const TOO_HEAVY: &[Long] = &[(
    Format::Folded,
    &[HALF_OF_ALL, (FOUR_LINES, 2_000), HALF_OF_ALL],
    SourceEnd::Fault(ReadFault {
        kind: ReadKind::TotalTooLarge,
        at: 8_002,
    }),
)];

pub const COMPRESSED: &[Long] = &[(
    Format::Folded,
    &[(&[(b"\x1f\x8b", 1)], 1), (FOUR_LINES, 2_000)],
    SourceEnd::Fault(ReadFault {
        kind: ReadKind::Compressed,
        at: 1,
    }),
)];

const ONE_SAMPLE: Repeated = (b"\x12\x06\x0a\x01\x01\x12\x01\x07", 1);

const OTHER_SAMPLE: Repeated = (b"\x12\x07\x0a\x02\x02\x01\x12\x01\x03", 1);

/// A sample type, which two samples 5,000 times and others follow.
const TYPE: Section = (&[(b"\x0a\x04\x08\x01\x10\x02", 1)], 1);

const SAMPLES: Section = (&[ONE_SAMPLE, OTHER_SAMPLE], 5_000);

const LAST_SAMPLES: Section = (&[OTHER_SAMPLE], 3_500);

/// The locations, functions and strings. A string that nothing names makes a profile so long that it has four readers.
const TABLES: Section = (
    &[
        (
            b"\x22\x06\x08\x01\x22\x02\x08\x01\x22\x06\x08\x02\x22\x02\x08\x02",
            1,
        ),
        (b"\x2a\x04\x08\x01\x10\x03\x2a\x04\x08\x02\x10\x04", 1),
        (b"\x32\x00\x32\x03cpu\x32\x02ns\x32\x04main\x32\x04work", 1),
        (b"\x32\x80\x80\x80\x03", 1),
        (&[b' '; 64], 6 << 14),
    ],
    1,
);

/// A sample that stands at 85,006. The first one has a stack of its own.
pub const PROFILES: &[Long] = &[
    (
        Format::Pprof,
        &[
            TYPE,
            SAMPLES,
            (&[(b"\x12\x06\x0a\x01\x02\x12\x01\x09", 1)], 1),
            LAST_SAMPLES,
            TABLES,
        ],
        SourceEnd::Clean { ignored: 0 },
    ),
    (
        Format::Pprof,
        &[
            TYPE,
            SAMPLES,
            (&[(b"\x12\x06\x0a\x01\x03\x12\x01\x09", 1)], 1),
            LAST_SAMPLES,
            TABLES,
        ],
        SourceEnd::Fault(ReadFault {
            kind: ReadKind::UnknownLocation,
            at: 85_006,
        }),
    ),
    (
        Format::Pprof,
        &[
            TYPE,
            SAMPLES,
            (&[(b"\x12\x03\x0a\x01\x02", 1)], 1),
            LAST_SAMPLES,
            TABLES,
        ],
        SourceEnd::Fault(ReadFault {
            kind: ReadKind::ValueCount,
            at: 85_006,
        }),
    ),
];

/// The tables have a fault, which is told before any sample. It stands after 6,408,018 bytes.
pub const WITH_BAD_TABLES: &[Long] = &[(
    Format::Pprof,
    &[
        TYPE,
        SAMPLES,
        LAST_SAMPLES,
        TABLES,
        (&[(b"\x22\x02\x08\x00", 1)], 1),
    ],
    SourceEnd::Fault(ReadFault {
        kind: ReadKind::ZeroId,
        at: 6_408_018,
    }),
)];
