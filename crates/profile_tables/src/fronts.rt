//! Samples whose location ids are one packed run, their first field, so that the bytes of the run tell them.

ghost use Rattle.std.specs.Prelude.{◌≡◌, None, IfSome};
ghost use Rattle.wire_fields.specs.Field.{seen_value};
ghost use Rattle.wire_fields.specs.Reading.{numbers_of};
ghost use Rattle.profile_messages.specs.Message.{first, numbers_in};
ghost use Rattle.profile_messages.specs.Shapes.{faults_of_value, repeated_shape};
ghost use Rattle.profile_tables.specs.checked.Fronts.{with_value, with_values, IsFirstHeld, AreValuesIn, IsFront};
ghost use Rattle.profile_tables.specs.checked.SeenOutline.{seen_outline};

use crate::outline::Outline;
use profile_messages::Span;
use wire_fields::{FieldValue, Fields, Packed};

/// The first field of a message, where it holds bytes.
#[derive(Drop)]
pub(crate) struct FirstHeld<'a> {
    number: u32,
    /// Where the bytes lie in the message.
    pub(crate) place: Span,
    /// The fields behind it.
    behind: Fields<'a>,
}

/// The first field of a message, where it holds bytes. The field behind it is not read.
pub(crate) fn first_held(message: &[u8]) -> Option<FirstHeld<'_>>
    ensures { IfSome result (λ held. IsFirstHeld message.now held.number held.place held.behind) }
{
    let mut behind = Fields::over(message);
    let Ok(Some(first)) = behind.next() else {
        return None;
    };
    let FieldValue::Bytes(bytes) = first.value else {
        return None;
    };
    let end = behind.next_at().unwrap_or(message.len());
    let start = end - bytes.len();
    Some(FirstHeld {
        number: first.number,
        place: Span { start, end },
        behind,
    })
}

/// How many values a sample has, and the chosen one, which is 0 where there is none.
#[derive(Clone, Copy)]
struct Values {
    count: usize,
    weight: u64,
}

impl Values {
    /// With a further value.
    fn with(self, chosen: usize, value: u64) -> Option<Values>
        ensures { IfSome result (λ more. more ≡ with_value chosen self value) }
    {
        let weight = if self.count == chosen {
            value
        } else {
            self.weight
        };
        let count = self.count.checked_add(1)?;
        Some(Values { count, weight })
    }

    /// With the values of a packed run, where it has no fault.
    fn with_run(self, chosen: usize, run: &[u8]) -> Option<Values>
        ensures values { IfSome result (λ more. more
            ≡ with_values chosen self (numbers_of run.now).items) }
        ensures fault { IfSome result (λ _. (numbers_of run.now).fault ≡ None) }
    {
        let mut values = self;
        let mut run = Packed::over(run);
        while let Some(value) = run.next().ok()? {
            values = values.with(chosen, value)?;
        }
        Some(values)
    }

    /// With the values of a field, where it has no fault.
    fn with_field(self, chosen: usize, value: FieldValue<'_>) -> Option<Values>
        ensures values { IfSome result (λ more. more
            ≡ with_values chosen self (numbers_in (seen_value value.entry))) }
        ensures fault { IfSome result (λ _.
            first (faults_of_value repeated_shape (seen_value value.entry)) ≡ None) }
    {
        match value {
            FieldValue::Varint(value) => self.with(chosen, value),
            FieldValue::Bytes(run) => self.with_run(chosen, run),
            FieldValue::Eight(_) | FieldValue::Four(_) => None,
        }
    }
}

/// The values of a sample's further fields, where these have no location ids and no fault.
fn values_in(chosen: usize, mut fields: Fields<'_>) -> Option<Values>
    ensures { IfSome result (AreValuesIn chosen fields.entry) }
{
    let mut values = Values {
        count: 0,
        weight: 0,
    };
    while let Some(field) = fields.next().ok()? {
        match field.number {
            1 => return None,
            2 => values = values.with_field(chosen, field.value)?,
            _ => {}
        }
    }
    Some(values)
}

/// A sample whose location ids are one packed run, its first field, and which has as many values as there are sample types.
#[derive(Clone, Copy)]
pub(crate) struct Front {
    /// Where the run lies in the file.
    pub(crate) run: Span,
    /// The chosen value, of which a negative one is seen as its 64 bits.
    pub(crate) weight: u64,
}

/// The front of the sample whose tag is at an offset. Its location ids are not decoded. None says nothing of the sample.
pub(crate) fn front_of(file: &[u8], at: usize, outline: &Outline) -> Option<Front>
    ensures { IfSome result (λ front.
        IsFront file.now at (seen_outline outline.now) front.run front.weight) }
{
    let behind = file.get(at..)?;
    let Span { start, end } = first_held(behind)?.place;
    let sample = &behind[start..end];
    let ids = first_held(sample)?;
    if ids.number != 1 {
        return None;
    }
    let values = values_in(outline.chosen.unwrap_or(0), ids.behind)?;
    if values.count != outline.sample_types {
        return None;
    }
    let begins = at + start;
    let run = Span {
        start: begins + ids.place.start,
        end: begins + ids.place.end,
    };
    Some(Front {
        run,
        weight: values.weight,
    })
}
