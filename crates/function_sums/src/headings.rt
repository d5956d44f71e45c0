//! What stands above a table.

ghost use Rattle.std.specs.Prelude.{◌≡◌, ◌++◌, [], codes, IfOk, OnOk};
ghost use Rattle.std.specs.Io.{StartsWith};
ghost use Rattle.function_sums.specs.Told.{kind_of, labelled, shown_of, sides_heading, told_of, whole_heading};

use crate::changes::Change;
use crate::entries::Saying;
use crate::telling::Telling;
use itoa::Buffer;
use std::alloc::{AllocError, Global};

// How many are shown of how many, and of what.
#[derive(Clone, Copy)]
pub(crate) struct Shown<'a> {
    pub(crate) shown: usize,
    pub(crate) count: usize,
    pub(crate) what: &'static str,
    // The function of which the others are the callers or the callees; else it is empty.
    pub(crate) name: &'a str,
}

impl Shown<'_> {
    // So many functions of so many.
    pub(crate) fn functions(shown: usize, count: usize) -> Shown<'static>
        ensures { shown_of result.shown result.count result.what.now result.name.now
            ≡ shown_of shown count (codes " functions") [] }
    {
        Shown {
            shown,
            count,
            what: " functions",
            name: "",
        }
    }

    // What stands above a table of weights that are parts of the whole.
    pub(crate) fn of_whole(
        &self,
        alloc: Global,
        telling: &Telling<'_>,
        is_exact: bool,
        whole: u64,
    ) -> Result<Vec<u8>, AllocError>
        ensures { IfOk result (λ text. text.items
            ≡ shown_of self.now.shown self.now.count self.now.what.now self.now.name.now
            ++ whole_heading is_exact (told_of telling.now) whole) }
    {
        let mut text = Vec::new(alloc);
        self.append(&mut text)?;
        append_whole(&mut text, telling, is_exact, whole)?;
        Ok(text)
    }

    // And above one of changes.
    pub(crate) fn of_sides(
        &self,
        alloc: Global,
        telling: &Telling<'_>,
        is_exact: bool,
        sides: Change,
    ) -> Result<Vec<u8>, AllocError>
        ensures { IfOk result (λ text. text.items
            ≡ shown_of self.now.shown self.now.count self.now.what.now self.now.name.now
            ++ sides_heading is_exact (told_of telling.now) sides.before sides.after) }
    {
        let mut text = Vec::new(alloc);
        self.append(&mut text)?;
        append_sides(&mut text, telling, is_exact, sides)?;
        Ok(text)
    }

    fn append(&self, out: &mut Vec<u8>) -> Result<(), AllocError>
        ensures { OnOk result (out.new.items ≡ out.old.items
            ++ shown_of self.now.shown self.now.count self.now.what.now self.now.name.now) }
    {
        let mut digits = Buffer::new();
        out.extend_from_slice(b"Showing ")?;
        out.extend_from_slice(digits.format(self.shown).as_bytes())?;
        out.extend_from_slice(b" of ")?;
        out.extend_from_slice(digits.format(self.count).as_bytes())?;
        out.extend_from_slice(self.what.as_bytes())?;
        out.extend_from_slice(self.name.as_bytes())
    }
}

fn append_whole(
    out: &mut Vec<u8>,
    telling: &Telling<'_>,
    is_exact: bool,
    whole: u64,
) -> Result<(), AllocError>
    ensures { OnOk result (out.new.items
        ≡ out.old.items ++ whole_heading is_exact (told_of telling.now) whole) }
{
    let saying = Saying::of(telling, is_exact);
    append_kind(out, telling, is_exact)?;
    out.extend_from_slice(b", total ")?;
    saying.append(out, whole)?;
    out.extend_from_slice(b"\n")
}

fn append_sides(
    out: &mut Vec<u8>,
    telling: &Telling<'_>,
    is_exact: bool,
    sides: Change,
) -> Result<(), AllocError>
    ensures { OnOk result (out.new.items
        ≡ out.old.items ++ sides_heading is_exact (told_of telling.now) sides.before sides.after) }
{
    let saying = Saying::of(telling, is_exact);
    append_kind(out, telling, is_exact)?;
    out.extend_from_slice(b", total ")?;
    saying.append(out, sides.before)?;
    out.extend_from_slice(b" before, ")?;
    saying.append(out, sides.after)?;
    out.extend_from_slice(b" after\n")
}

// Appends the type of the weights, and their unit where they don't say it themselves.
fn append_kind(out: &mut Vec<u8>, telling: &Telling<'_>, is_exact: bool) -> Result<(), AllocError>
    ensures { OnOk result (out.new.items ≡ out.old.items ++ kind_of is_exact (told_of telling.now)) }
{
    append_labelled(out, b", type ", telling.type_name)?;
    if is_exact {
        append_labelled(out, b", unit ", telling.unit)?;
    }
    Ok(())
}

// Appends a text behind its label, unless it is empty.
fn append_labelled(out: &mut Vec<u8>, label: &[u8], text: &str) -> Result<(), AllocError>
    ensures { OnOk result (out.new.items ≡ out.old.items ++ labelled label.now text.now) }
{
    if text.is_empty() {
        return Ok(());
    }
    out.extend_from_slice(label)?;
    out.extend_from_slice(text.as_bytes())
}
