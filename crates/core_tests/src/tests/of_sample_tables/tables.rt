ghost use Rattle.std.specs.Prelude.{◌≡◌};

use crate::tests::answers::holds;
use sample_tables::{Names, RowTable, Text};
use std::alloc::{AllocError, Global};
use std::process::Abort;
use std::test::Fail;

/// A table that has nothing yet takes what a test gives it, and then has what it should.
fn table_holds(
    rt: &(impl Abort + AllocGlobal),
    takes: fn(Global, &mut RowTable) -> Result<bool, AllocError>,
) -> Result<(), Fail>
    requires { IsAlwaysCallable takes }
{
    holds(rt, takes(rt.alloc(), &mut RowTable::new(rt.alloc())))
}

fn add_name(alloc: Global, table: &mut RowTable, name: &str) -> Result<(), AllocError> {
    table.add_name(Text::from_str(alloc, name)?)
}

/// Takes two samples of one stack, where there are two names.
fn takes_samples(table: &mut RowTable) -> Result<bool, AllocError> {
    if table.name_count() != 2 {
        return Ok(false);
    }
    table.take_row([0, 1].as_slice(), 5)?;
    table.take_again(0, 2)?;
    Ok(table.len() == 2 && table.frames(1) == [0, 1].as_slice() && table.total() == 7)
}

fn takes_as_on_the_page(alloc: Global, table: &mut RowTable) -> Result<bool, AllocError> {
    add_name(alloc, table, "main")?;
    add_name(alloc, table, "parse")?;
    takes_samples(table)
}

// The example of README.md.
#[test]
fn example_of_the_page(rt: HostRuntime) -> Result<(), Fail> {
    table_holds(&rt, takes_as_on_the_page)
}

/// The only sample, whose names were told with it.
fn has_named_sample(table: &RowTable) -> bool {
    table.name_count() == 2
        && table.name(1) == "b"
        && table.stack_count() == 1
        && table.stack(0) == [0, 1].as_slice()
        && table.len() == 1
        && table.weight(0) == 3
}

fn takes_names(alloc: Global, table: &mut RowTable) -> Result<bool, AllocError> {
    table.take(Names::from_strs(alloc, &["a", "b"])?, 3)?;
    Ok(has_named_sample(table))
}

#[test]
fn samples_with_names_of_their_own(rt: HostRuntime) -> Result<(), Fail> {
    table_holds(&rt, takes_names)
}

fn keeps_before_it_takes(_: Global, table: &mut RowTable) -> Result<bool, AllocError> {
    table.keep([].as_slice())?;
    table.take_row([].as_slice(), 1)?;
    Ok(table.stack_count() == 2 && table.len() == 1 && table.stack_number(0) == 1)
}

#[test]
fn kept_stacks_have_no_sample(rt: HostRuntime) -> Result<(), Fail> {
    table_holds(&rt, keeps_before_it_takes)
}
