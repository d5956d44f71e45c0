//! A reader's samples as rows of frame numbers.

ghost use Rattle.std.specs.Prelude.{◌≡◌, ◌<◌, ◌≤◌, All, None, length, IfOk, OnOk};
ghost use Rattle.sample_tables.specs.Samples.{IsLimited};

use call_tree::FrameTable;
use folded_lines::FoldedReader;
use stack_core::{Close, Ledger, Listed, Sample, SampleReader, SourceList, Step, Text};
use std::alloc::{AllocError, Global};

/// The number of a name in the table. A name that is new there is told to the ledger.
fn number_of(
    alloc: Global,
    table: &mut FrameTable,
    ledger: &mut Ledger,
    name: &str,
) -> Result<usize, AllocError>
    requires still_open { ledger.old.close ≡ None }
    requires told { length ledger.old.told ≡ length table.old }
    ensures number { IfOk result (λ number. number < length ledger.new.told) }
    ensures still_open { OnOk result (ledger.new.close ≡ None) }
    ensures told { OnOk result (length ledger.new.told ≡ length table.new) }
    ensures grows { OnOk result (length ledger.old.told ≤ length ledger.new.told) }
{
    let number = table.intern(name)?;
    if ledger.told() < table.len() {
        ledger.tell(Text::from_str(alloc, name)?)?;
    }
    Ok(number)
}

/// The numbers of some names.
fn numbers_of(
    alloc: Global,
    table: &mut FrameTable,
    ledger: &mut Ledger,
    names: &[String],
) -> Result<Vec<usize>, AllocError>
    requires still_open { ledger.old.close ≡ None }
    requires told { length ledger.old.told ≡ length table.old }
    ensures numbers { IfOk result (λ numbers.
        All (λ number. number < length ledger.new.told) numbers.items) }
    ensures count { IfOk result (λ numbers. length numbers.items ≡ length names.now) }
    ensures still_open { OnOk result (ledger.new.close ≡ None) }
    ensures told { OnOk result (length ledger.new.told ≡ length table.new) }
{
    let mut numbers = Vec::with_capacity(alloc, names.len())?;
    for name in names {
        let number = number_of(alloc, table, ledger, name.as_str())?;
        numbers.push(number)?;
    }
    Ok(numbers)
}

/// Takes a sample as a row.
fn take_sample(
    alloc: Global,
    table: &mut FrameTable,
    ledger: &mut Ledger,
    sample: &Sample,
) -> Result<(), AllocError>
    requires limits { IsLimited sample.now }
    requires still_open { ledger.old.close ≡ None }
    requires told { length ledger.old.told ≡ length table.old }
    ensures still_open { OnOk result (ledger.new.close ≡ None) }
    ensures told { OnOk result (length ledger.new.told ≡ length table.new) }
{
    let numbers = numbers_of(alloc, table, ledger, sample.stack.get())?;
    ledger.take_row(Listed::of(numbers), sample.weight)
}

/// The names and the list of folded text.
pub fn list_text(alloc: Global, bytes: Vec<u8>) -> Result<(FrameTable, SourceList), AllocError>
    ensures { IfOk result (λ made. length made.1.told ≡ length made.0) }
{
    let mut reader = FoldedReader::over(bytes);
    list_samples(alloc, &mut reader)
}

/// The names of a source's frames, and the list of its samples, whose numbers are those of the names.
fn list_samples<R: SampleReader>(
    alloc: Global,
    reader: &mut R,
) -> Result<(FrameTable, SourceList), AllocError>
    ensures { IfOk result (λ made. length made.1.told ≡ length made.0) }
{
    let mut table = FrameTable::new(alloc);
    let mut ledger = Ledger::new(alloc);
    'samples: loop {
        match reader.next(alloc)? {
            Step::Sample(sample) => take_sample(alloc, &mut table, &mut ledger, &sample)?,
            Step::End(ending) => {
                ledger.close(Close::Read(ending));
                return Ok((table, ledger.into_list()));
            }
        }
    }
}
