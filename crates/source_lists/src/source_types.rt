//! The sample types whose values are the weights of sources.

ghost use Rattle.std.specs.Prelude.{◌≡◌, ◌+◌, ◌<◌, ℕ, IfErr, IfOk, IfSome, IsErrOf, length};
ghost use Rattle.run_options.specs.declared.formats.Format.TheVariants.{Pprof as IsPprof};
ghost use Rattle.source_lists.specs.Sources.{known_input, known_inputs};
ghost use Rattle.source_lists.specs.Types.{input_type, no_type, type_of_bytes, types_of};
ghost use Rattle.source_lists.specs.checked.OpenRuns.{IsOfRun};

use crate::inputs::{Content, Input};
use crate::loaded_sources::LoadedSource;
use crate::run_faults::RunFault;
use profile_messages::{SampleType, TableFault, chosen_type};
use run_options::{Format, Options, Pick};
use stack_core::Text;
use std::alloc::{AllocError, Global};

/// The type of a source that has none, as folded text: name and unit are empty.
fn no_type(alloc: Global) -> SampleType
    ensures { result ≡ no_type }
{
    SampleType {
        name: Text::of(String::new(alloc)),
        unit: Text::of(String::new(alloc)),
    }
}

/// The sample type of a profile's weights.
fn type_of_profile(alloc: Global, bytes: &[u8], pick: &Pick) -> Result<SampleType, AllocError>
    ensures { IfOk result (λ found. found ≡ type_of_bytes IsPprof bytes.now pick.now) }
{
    match chosen_type(alloc, bytes, pick) {
        Ok(Some(found)) => Ok(found),
        Ok(None) | Err(TableFault::Read(_)) => Ok(no_type(alloc)),
        Err(TableFault::OutOfMemory) => Err(AllocError),
    }
}

fn type_of_source(
    alloc: Global,
    source: &LoadedSource,
    pick: &Pick,
) -> Result<SampleType, AllocError>
    ensures { IfOk result (λ found. found ≡ type_of_bytes source.now.0 source.now.1 pick.now) }
{
    match source.format() {
        Format::Folded => Ok(no_type(alloc)),
        Format::Pprof => type_of_profile(alloc, source.bytes().as_slice(), pick),
    }
}

/// The sample type of the weights of the source at a place.
fn type_of_input(
    alloc: Global,
    input: &Input,
    at: usize,
    options: &Options,
) -> Result<SampleType, RunFault>
    ensures found { IfOk result (λ found. IfSome (known_input input.now) (λ source.
        found ≡ input_type options.now source)) }
    ensures unreadable { IfErr result (IsOfRun (at + 1)) }
{
    match input.content() {
        Content::Text(_) => Ok(no_type(alloc)),
        Content::Loaded(_) | Content::Profile(_) => {
            let source = input.share()?.load_at(alloc, at)?;
            Ok(type_of_source(alloc, &source, &options.pick)?)
        }
    }
}

/// For each source the sample type whose values are its weights, as the options pick it. Name and unit are empty for folded text, for
/// a profile without samples, and for one with a fault before its samples, which reading the source tells. A stored profile is loaded
/// for it; one that can't be read is `RunFault::Unreadable`.
pub fn chosen_types(
    alloc: Global,
    inputs: &[Input],
    options: &Options,
) -> Result<Vec<SampleType>, RunFault>
    ensures types { IfOk result (λ types. IfSome (known_inputs inputs.now) (λ sources.
        types.items ≡ types_of options.now sources)) }
    ensures unreadable { (source : ℕ) → IsErrOf result (RunFault.Unreadable source)
        → source < length inputs.now }
{
    let mut types = Vec::with_capacity(alloc, inputs.len())?;
    for input in inputs {
        let found = type_of_input(alloc, input, types.len(), options)?;
        let Ok(()) = types.push(found) else {
            return Err(RunFault::from(AllocError));
        };
    }
    Ok(types)
}
