//! Runs in which no gate is asked: each source is read to its end.

ghost use Rattle.std.specs.Prelude.{◌≡◌, ◌≤◌, [], ◌∷◌, IfErr, IfOk, MatchResult, length};
ghost use Rattle.source_lists.specs.checked.OpenRuns.{IsOfRun, ReadsOpen};

use crate::input_readers::readers_of_inputs;
use crate::inputs::Input;
use crate::part_lists::joined_list;
use crate::part_runs::{CleanParts, part_count};
use crate::run_faults::{RunFault, RunResult};
use crate::runners::Runner;
use crate::source_lists::SourceLists;
use crate::unreadable_sources::{first_unreadable, stored_texts};
use stack_core::{NoSink, RowSink};
use std::alloc::{AllocError, Global};
use std::sync::Wait;
use std::thread::Threads;

fn alone(alloc: Global, input: Input) -> Result<Vec<Input>, AllocError>
    ensures { IfOk result (λ inputs. inputs.items ≡ input ∷ []) }
{
    Ok(vec![in alloc; input]?)
}

/// The one source, if it is read in several parts.
fn one_long(inputs: Vec<Input>) -> Result<Input, Vec<Input>>
    ensures { MatchResult result (λ input. inputs.items ≡ input ∷ []) (λ same. same ≡ inputs) }
{
    match inputs.as_slice() {
        [input] if part_count(input) > 1 => {}
        _ => return Err(inputs),
    }
    let mut inputs = inputs;
    match inputs.pop() {
        Some(input) => Ok(input),
        None => Err(inputs),
    }
}

impl<T: Threads + Wait + Copy + Send + 'static> Runner<'_, T> {
    /// Collects all samples of the sources, each by one reader.
    fn collect_each<S: RowSink>(&self, inputs: Vec<Input>, sink: &mut S) -> RunResult<SourceLists>
        requires { length inputs.items ≤ 64 }
        ensures reads { IfOk result (λ run. ReadsOpen self.now.options.now self.now.is_summed inputs.items run.lists) }
        ensures err { IfErr result (IsOfRun (length inputs.items)) }
        ensures setting { S.setting sink.new ≡ S.setting sink.old }
    {
        let texts = stored_texts(self.alloc, &inputs)?;
        let readers = readers_of_inputs(self.alloc, inputs, self.options)?;
        let run = self.run_open(readers, sink)?;
        if let Some(source) = first_unreadable(self.alloc, &run.lists, &texts)? {
            return Err(RunFault::Unreadable { source });
        }
        Ok(SourceLists::of(run))
    }

    /// Collects all samples of a source, in parts if that can be.
    fn collect_in_parts<S: RowSink>(&self, input: Input, sink: &mut S) -> RunResult<SourceLists>
        ensures reads { IfOk result (λ run. ReadsOpen self.now.options.now self.now.is_summed (input ∷ []) run.lists) }
        ensures err { IfErr result (IsOfRun 1) }
        ensures setting { S.setting sink.new ≡ S.setting sink.old }
    {
        if let Some(CleanParts { lists, ignored }) = self.read_parts(&input, sink)? {
            // The bytes are given back before the lists are copied.
            drop(input);
            let list = joined_list(self.alloc, lists, ignored)?;
            let _count = list.len();
            return Ok(SourceLists::of_one(self.alloc, list)?);
        }
        // The sink was fed with the parts.
        let inputs = alone(self.alloc, input)?;
        self.collect_each(inputs, &mut NoSink::new())
    }

    /// Collects all samples of the sources, whatever the filter.
    pub(crate) fn collect_all<S: RowSink>(
        &self,
        inputs: Vec<Input>,
        sink: &mut S,
    ) -> RunResult<SourceLists>
        requires { length inputs.items ≤ 64 }
        ensures reads { IfOk result (λ run. ReadsOpen self.now.options.now self.now.is_summed inputs.items run.lists) }
        ensures err { IfErr result (IsOfRun (length inputs.items)) }
        ensures setting { S.setting sink.new ≡ S.setting sink.old }
    {
        match one_long(inputs) {
            Ok(input) => self.collect_in_parts(input, sink),
            Err(inputs) => self.collect_each(inputs, sink),
        }
    }
}
