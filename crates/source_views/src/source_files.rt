//! The sources of a run as files that are opened one after another.
ghost use Rattle.std.specs.Prelude.{◌≡◌, ◌≢◌, ◌≤◌, ℕ, List, Option, [], ◌∷◌, ◌++◌, IfOk, IfErr, IfSome, OnOk, length, map, string_bytes};
ghost use Rattle.run_options.specs.declared.formats.Format.{Format as SourceFormat};
ghost use Rattle.source_lists.specs.Sources.{known_source};
ghost use Rattle.source_views.specs.Opening.{AreLoaded, IsLoaded, IsLoadedInput};
ghost use Rattle.source_views.specs.Failures.{IsOfLoad, IsOpening};

use crate::failures::Failure;
use byte_io::Files;
use run_options::{Format, format_of};
use source_lists::{Input, Source};
use std::alloc::{AllocError, Global};

/// The most sources of a run.
pub const SOURCE_COUNT: usize = 64;

/// The sources of these paths, in order, or the input where there is none. The first that fails ends it. All have the format that was
/// asked for, or each that of its name. A file that the files give where it is stored is opened only, but for profiles where those are
/// wanted whole, as what looks for their types does; every other source is loaded.
pub fn load_sources<F: Files>(
    alloc: Global,
    files: &mut F,
    paths: &[String],
    asked: Option<Format>,
    whole_profiles: bool,
) -> Result<Vec<Input>, Failure>
    ensures few { IfOk result (λ inputs. length inputs.items ≤ 64) }
    ensures count { IfOk result (λ inputs.
        length paths.now ≡ 2 → length inputs.items ≡ 2) }
    ensures loaded { IfOk result (λ inputs. AreLoaded asked (F.known_input files.old)
        (F.known_file files.old) (map string_bytes paths.now) inputs.items) }
    ensures err { IfErr result (IsOpening (length paths.now)) }
    ensures within { result ≢ Err Failure.TooManyFiles → length paths.now ≤ 64 }
{
    if paths.len() > SOURCE_COUNT {
        return Err(Failure::TooManyFiles);
    }
    let mut inputs = Vec::new(alloc);
    if paths.is_empty() {
        let source = input(alloc, files, asked)?;
        add_input(&mut inputs, Input::of(source)?)?;
        return Ok(inputs);
    }
    for path in paths {
        add_named(alloc, files, path, asked, whole_profiles, &mut inputs)?;
    }
    Ok(inputs)
}

// Adds the source of the path after those that were opened. Where it can't be, it is blamed, by its place.
fn add_named<F: Files>(
    alloc: Global,
    files: &mut F,
    path: &str,
    asked: Option<Format>,
    whole_profiles: bool,
    inputs: &mut Vec<Input>,
) -> Result<(), Failure>
    ensures loaded { OnOk result ((source : SourceFormat × Option (List ℕ))
        × (inputs.new.items ≡ inputs.old.items ++ source ∷ [])
        × IsLoaded asked (F.known_file files.old) path.now source) }
    ensures files { F.known_file files.new ≡ F.known_file files.old }
    ensures err { IfErr result (IsOfLoad (length inputs.old.items)) }
{
    let source = open_source(alloc, files, inputs.len(), path, asked, whole_profiles)?;
    add_input(inputs, source)?;
    Ok(())
}

fn add_input(inputs: &mut Vec<Input>, input: Input) -> Result<(), AllocError>
    ensures { OnOk result (inputs.new.items ≡ inputs.old.items ++ input ∷ []) }
{
    inputs.push(input)?;
    Ok(())
}

// The source of the path, where it is stored if it may be read there.
fn open_source<F: Files>(
    alloc: Global,
    files: &mut F,
    at: usize,
    path: &str,
    asked: Option<Format>,
    whole_profiles: bool,
) -> Result<Input, Failure>
    ensures opened { IfOk result (λ source.
        IsLoaded asked (F.known_file files.old) path.now source) }
    ensures files { F.known_file files.new ≡ F.known_file files.old }
    ensures err { IfErr result (IsOfLoad at) }
{
    let format = asked.unwrap_or(format_of(path));
    if !whole_profiles || format == Format::Folded {
        if let Some(text) = files.stored(alloc, path) {
            return Ok(Input::stored(format, text));
        }
    }
    let source = open_named(alloc, files, at, path, asked)?;
    Ok(Input::of(source)?)
}

// The input, which is folded text unless another format was asked for.
fn input<F: Files>(alloc: Global, files: &mut F, asked: Option<Format>) -> Result<Source, Failure>
    ensures input { IfOk result (λ source.
        IfSome (F.known_input files.old) (IsLoadedInput asked (known_source source ∷ []))) }
    ensures err { IfErr result (IsOfLoad 0) }
{
    match files.input(alloc) {
        Ok(bytes) => Ok(Source {
            format: asked.unwrap_or(Format::Folded),
            bytes,
        }),
        Err(fault) => Err(Failure::of_load(0, fault)),
    }
}

/// The source of a path. Where it is not loaded, the failure is that of its load, of the source at this place.
pub fn open_named<F: Files>(
    alloc: Global,
    files: &mut F,
    at: usize,
    path: &str,
    asked: Option<Format>,
) -> Result<Source, Failure>
    ensures opened { IfOk result (λ source.
        IsLoaded asked (F.known_file files.old) path.now (known_source source)) }
    ensures files { F.known_file files.new ≡ F.known_file files.old }
    ensures err { IfErr result (IsOfLoad at) }
{
    match files.named(alloc, path) {
        Ok(bytes) => Ok(Source {
            format: asked.unwrap_or(format_of(path)),
            bytes,
        }),
        Err(fault) => Err(Failure::of_load(at, fault)),
    }
}
