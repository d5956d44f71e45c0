use super::texts::is_written;
use std::process::Abort;
use std::test::Fail;
use wire_fields::{Field, FieldValue, Fields, Packed, WireFault, WireKind, laws};

fn fault(kind: WireKind, at: usize) -> WireFault {
    WireFault { kind, at }
}

/// What a call of a reader of fields answers.
type Answer<'a> = Result<Option<Field<'a>>, WireFault>;

/// Whether the next calls of a reader answer so.
fn answers(fields: &mut Fields<'_>, wanted: &[Answer<'_>]) -> bool {
    for answer in wanted {
        if fields.next() != *answer {
            return false;
        }
    }
    true
}

/// A message, and what the first calls of its reader answer.
type Message<'a> = (&'a [u8], &'a [Answer<'a>]);

fn are_read(rt: &impl Abort, messages: &[Message<'_>]) {
    for (message, wanted) in messages {
        assert!(rt; answers(&mut Fields::over(message), wanted));
    }
}

/// Whether the next calls of a reader of packed numbers answer so.
fn answers_numbers(packed: &mut Packed<'_>, wanted: &[Result<Option<u64>, WireFault>]) -> bool {
    for answer in wanted {
        if packed.next() != *answer {
            return false;
        }
    }
    true
}

/// A run, and what the first calls of its reader answer.
type Run<'a> = (&'a [u8], &'a [Result<Option<u64>, WireFault>]);

fn are_runs(rt: &impl Abort, runs: &[Run<'_>]) {
    for (run, wanted) in runs {
        assert!(rt; answers_numbers(&mut Packed::over(run), wanted));
    }
}

const LAST_NUMBER: &[u8] = &[0xf8, 0xff, 0xff, 0xff, 0x0f, 0x00];

const PAST_LAST_NUMBER: &[u8] = &[0x80, 0x80, 0x80, 0x80, 0x10, 0x00];

const LARGEST: &[u8] = &[
    0x08, 0xff, 0xff, 0xff, 0xff, 0xff, 0xff, 0xff, 0xff, 0xff, 0x01,
];

const PAST_LARGEST: &[u8] = &[
    0x08, 0xff, 0xff, 0xff, 0xff, 0xff, 0xff, 0xff, 0xff, 0xff, 0x02,
];

const OF_PAST_LAST_NUMBER: WireFault = WireFault {
    kind: WireKind::BadFieldNumber,
    at: 0,
};

const OF_PAST_LARGEST: WireFault = WireFault {
    kind: WireKind::BadVarint,
    at: 0,
};

const CUT: WireFault = WireFault {
    kind: WireKind::Truncated,
    at: 0,
};

const OF_150: Field<'static> = Field {
    number: 1,
    at: 0,
    value: FieldValue::Varint(150),
};

const OF_LAST_NUMBER: Field<'static> = Field {
    number: 536_870_911,
    at: 0,
    value: FieldValue::Varint(0),
};

const OF_LARGEST: Field<'static> = Field {
    number: 1,
    at: 0,
    value: FieldValue::Varint(u64::MAX),
};

const MESSAGES: &[Message<'static>] = &[
    (b"\x08\x96\x01", &[Ok(Some(OF_150)), Ok(None), Ok(None)]),
    (LAST_NUMBER, &[Ok(Some(OF_LAST_NUMBER))]),
    (PAST_LAST_NUMBER, &[Err(OF_PAST_LAST_NUMBER)]),
    (LARGEST, &[Ok(Some(OF_LARGEST))]),
    (PAST_LARGEST, &[Err(OF_PAST_LARGEST)]),
];

const RUNS: &[Run<'static>] = &[
    (
        b"\x01\x80\x00\xac\x02",
        &[Ok(Some(1)), Ok(Some(0)), Ok(Some(300)), Ok(None)],
    ),
    (b"\x80", &[Err(CUT), Err(CUT)]),
];

#[test]
fn fields_and_packed(rt: HostRuntime) {
    are_read(&rt, MESSAGES);
    are_runs(&rt, RUNS);
}

// A length of 2^64-1.
const LONGEST: &[u8] = &[
    0x0a, 0xff, 0xff, 0xff, 0xff, 0xff, 0xff, 0xff, 0xff, 0xff, 0x01,
];

const OF_LONGEST: &[Message<'static>] = &[(LONGEST, &[Err(CUT)])];

#[test]
fn greatest_length_and_least_index(rt: HostRuntime) {
    are_read(&rt, OF_LONGEST);
}

// The encoding guide's string "testing" in field 2, the other wire types behind it, and then a group, whose
// fault repeats at the offset of its tag.
const WIRE_TYPES: &[u8] = &[
    0x12, 0x07, 0x74, 0x65, 0x73, 0x74, 0x69, 0x6e, 0x67, 0x19, 1, 2, 3, 4, 5, 6, 7, 8, 0x25, 9,
    10, 11, 12, 0x2b, 0x2c,
];

const STRING: Field<'static> = Field {
    number: 2,
    at: 0,
    value: FieldValue::Bytes(b"testing"),
};

const EIGHT: Field<'static> = Field {
    number: 3,
    at: 9,
    value: FieldValue::Eight([1, 2, 3, 4, 5, 6, 7, 8]),
};

const FOUR: Field<'static> = Field {
    number: 4,
    at: 18,
    value: FieldValue::Four([9, 10, 11, 12]),
};

const GROUP: WireFault = WireFault {
    kind: WireKind::BadWireType,
    at: 23,
};

const OF_WIRE_TYPES: &[Message<'static>] = &[(
    WIRE_TYPES,
    &[
        Ok(Some(STRING)),
        Ok(Some(EIGHT)),
        Ok(Some(FOUR)),
        Err(GROUP),
        Err(GROUP),
    ],
)];

#[test]
fn each_wire_type(rt: HostRuntime) {
    are_read(&rt, OF_WIRE_TYPES);
}

/// Whether each of these fields, which stand in a message, begins where it says, and the rest of the message at `rest`.
fn begin_at(fields: &mut Fields<'_>, wanted: &[Field<'_>], rest: Option<usize>) -> bool {
    for field in wanted {
        if fields.next_at() != Some(field.at) || fields.next() != Ok(Some(*field)) {
            return false;
        }
    }
    fields.next_at() == rest
}

/// A message, its fields, and where its rest begins.
type Beginnings<'a> = (&'a [u8], &'a [Field<'a>], Option<usize>);

const BEGINNINGS: &[Beginnings<'static>] = &[
    (WIRE_TYPES, &[STRING, EIGHT, FOUR], Some(23)),
    (b"", &[], None),
];

#[test]
fn where_fields_begin(rt: HostRuntime) {
    for (message, wanted, rest) in BEGINNINGS {
        assert!(rt; begin_at(&mut Fields::over(message), wanted, *rest));
    }
}

#[test]
fn laws_of_the_readings() {
    laws::fields_have_one_reading();
    laws::numbers_have_one_reading();
    laws::fields_are_those_spelled();
    laws::numbers_are_those_spelled();
}

#[test]
fn faults_are_written(rt: HostRuntime) -> Result<(), Fail> {
    is_written(&rt, &fault(WireKind::BadVarint, 3), "BadVarint at 3")?;
    is_written(&rt, &WireKind::Truncated, "Truncated")?;
    Ok(())
}

fn is_first_of_the_page(field: Field<'_>) -> bool {
    field.number == 1 && field.value == FieldValue::Varint(150)
}

const NUMBERS_OF_THE_PAGE: &[Result<Option<u64>, WireFault>] = &[
    Ok(Some(5)),
    Ok(Some(9)),
    Ok(None),
];

fn is_second_of_the_page(field: Field<'_>) -> bool {
    match field.value {
        FieldValue::Bytes(run) => {
            field.at == 3 && answers_numbers(&mut Packed::over(run), NUMBERS_OF_THE_PAGE)
        }
        _ => false,
    }
}

/// The next field, which there is.
fn next<'a>(rt: &impl Abort, fields: &mut Fields<'a>) -> Field<'a> {
    let field = fields.next().expect(rt, "no fault");
    field.expect(rt, "a field")
}

fn are_of_the_page(rt: &impl Abort, fields: &mut Fields<'_>) {
    assert!(rt; is_first_of_the_page(next(rt, fields)));
    assert!(rt; is_second_of_the_page(next(rt, fields)));
    assert!(rt; fields.next() == Ok(None));
}

/// The lines of README.md.
#[test]
fn example_of_the_page(rt: HostRuntime) {
    let message = [0x08, 0x96, 0x01, 0x12, 0x02, 0x05, 0x09];
    are_of_the_page(&rt, &mut Fields::over(&message));
}
