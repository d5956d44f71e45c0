//! A reader that gives what a filter keeps.

ghost use Rattle.std.specs.Prelude.{◌≡◌, ◌<◌, ◌^◌, [], IfOk, OnErr, IfSome, IsNone, IsOkAnd, IsSome, length, map};
ghost use Rattle.stack_core.specs.Reading.{IsEnd, IsWithinLimits};
ghost use Rattle.run_options.specs.Filters.{kept_rest};
ghost use Rattle.source_lists.specs.checked.Filtering.{PassesOn};

use run_options::Filter;
use stack_core::{SampleReader, Step};
use std::alloc::{AllocError, Global};

/// A reader that gives the samples of another which a filter keeps, and its ending.
#[derive(Drop)]
pub(crate) struct FilteredReader<R: SampleReader> {
    pub(crate) reader: R,
    pub(crate) filter: Filter,
}

impl<R: SampleReader> FilteredReader<R> {
    /// What the reader gives next, or nothing where that is a sample which is left out.
    fn try_next(&mut self, alloc: Global) -> Result<Option<Step>, AllocError>
        ensures passes { IfOk result (λ found.
            PassesOn (kept_rest self.old.filter (R.rest self.old.reader)) found
            (kept_rest self.new.filter (R.rest self.new.reader))) }
        ensures limits { IfOk result (λ found. IfSome found IsWithinLimits) }
        ensures nearer { IfOk result (λ found. IsNone found
            → length (R.rest self.new.reader).samples < length (R.rest self.old.reader).samples) }
        ensures refused { OnErr result (kept_rest self.new.filter (R.rest self.new.reader)
            ≡ kept_rest self.old.filter (R.rest self.old.reader)) }
        ensures few { length (kept_rest self.old.filter (R.rest self.old.reader)).samples
            < 2 ^ 64 }
        ensures ended { IfOk result (λ found. IfSome found (λ step. IsEnd step
            → R.has_ended self.new.reader × ((R.rest self.new.reader).samples ≡ []))) }
        ensures repeats { R.has_ended self.old.reader → (R.rest self.old.reader).samples ≡ []
            → IsOkAnd result IsSome }
    {
        match self.reader.next(alloc)? {
            Step::Sample(sample) => {
                if self.filter.keeps(sample.stack.get()) {
                    Ok(Some(Step::Sample(sample)))
                } else {
                    Ok(None)
                }
            }
            Step::End(ending) => Ok(Some(Step::End(ending))),
        }
    }
}

impl<R: SampleReader> SampleReader for FilteredReader<R> {
    ghost use Rattle.std.specs.Prelude.{◌≡◌, []};
    ghost use Rattle.run_options.specs.Filters.{kept_rest};

    ghost rest = { λ filtered. kept_rest filtered.filter (R.rest filtered.reader) };

    ghost has_ended = { λ filtered. R.has_ended filtered.reader
        × ((R.rest filtered.reader).samples ≡ []) };

    fn next(&mut self, alloc: Global) -> Result<Step, AllocError> {
        'samples: loop {
            if let Some(step) = self.try_next(alloc)? {
                return Ok(step);
            }
        }
    }
}

/// A reader of what the filter keeps, for each reader.
pub(crate) fn filter_all<R: SampleReader + Drop>(
    alloc: Global,
    readers: Vec<R>,
    filter: &Filter,
) -> Result<Vec<FilteredReader<R>>, AllocError>
    ensures { IfOk result (λ all.
        map (λ one. kept_rest one.filter (R.rest one.reader)) all.items
        ≡ map (λ reader. kept_rest filter.now (R.rest reader)) readers.items) }
{
    let mut all = Vec::with_capacity(alloc, readers.len())?;
    for reader in readers {
        let filter = filter.copy(alloc)?;
        all.push(FilteredReader { reader, filter })?;
    }
    Ok(all)
}
