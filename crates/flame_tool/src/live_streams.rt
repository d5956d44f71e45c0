//! The streams of a live run, opened.
ghost use Rattle.std.specs.Prelude.{◌≡◌, ◌≢◌, ◌<◌, ◌≤◌, ◌^◌, ◌↔◌, [], ◌∷◌, ◌++◌, true, All, IfErr, IfOk, IfSome, IsErr, IsErrOf, IsNone, IsSomeAnd, OnOk, length, map, string_bytes};
ghost use Rattle.std.specs.List.{list_any};
ghost use Rattle.source_views.specs.Failures.{IsOfLoad, IsOpening};
ghost use Rattle.stack_core.specs.Reading.{Rest};
ghost use Rattle.stack_core.specs.RowReading.{GivesSome};
ghost use Rattle.flame_tool.specs.ToldLive.{IsMissing, stream_count};
ghost use Rattle.flame_tool.specs.checked.LiveStreams.{AreOpened, GivesStream, ReadsText};

use byte_io::{Inlet, Streams};
use folded_lines::FoldedStream;
use source_views::{Failure, SOURCE_COUNT};
use stack_core::RowReader;
use std::alloc::{AllocError, Global};

/// A reader of the rows of a stream of folded text.
pub(crate) trait StreamReader<I: Inlet>: RowReader {
    /// Of the stream that comes by this inlet, up to its first ignored line if it is strict. Where no read of it fails, its bytes are known.
    fn over_stream(alloc: Global, inlet: I, is_strict: bool) -> Self
        requires { I.is_sure inlet ≡ true
            → IsSomeAnd (I.remaining inlet) (λ known. length known < 2 ^ 64) }
        ensures gives { (rest : Rest) → Self.gives result rest
            ↔ GivesStream is_strict (I.remaining inlet) (I.is_sure inlet) rest }
        ensures told { Self.told result ≡ record { names = []; stacks = [] } };
}

impl<I: Inlet> StreamReader<I> for FoldedStream<I> {
    fn over_stream(alloc: Global, inlet: I, is_strict: bool) -> Self {
        if is_strict {
            FoldedStream::strict_over(alloc, inlet)
        } else {
            FoldedStream::over(alloc, inlet)
        }
    }
}

// The readers of the streams of these paths, in order, or of the input where there is no path. All are opened before anything is read of
// one, and the first that can't be ends it.
pub(crate) fn open_streams<S: Streams, R: StreamReader<S::Inlet> + Drop>(
    alloc: Global,
    streams: &mut S,
    paths: &[String],
    is_strict: bool,
) -> Result<Vec<R>, Failure>
    ensures few { IfOk result (λ readers. length readers.items ≤ 64) }
    ensures count { IfOk result (λ readers.
        length readers.items ≡ stream_count (map string_bytes paths.now)) }
    ensures nothing_told { IfOk result (λ readers. All (λ reader.
        R.told reader ≡ record { names = []; stacks = [] })
        readers.items) }
    ensures possible { IfOk result (λ readers. All (λ reader.
        GivesSome (R.gives reader)) readers.items) }
    ensures opened { IfOk result (λ readers.
        AreOpened is_strict R.gives (S.known_input streams.old)
        (S.known_file streams.old) (map string_bytes paths.now) readers.items) }
    ensures absent { list_any (S.is_absent streams.old) (map string_bytes paths.now) ≡ true
        → IsErr result }
    ensures err { IfErr result (IsOpening (length paths.now)) }
    ensures missing { IfErr result (IsMissing (S.is_absent streams.old) (S.known_file streams.old)
        (map string_bytes paths.now)) }
    ensures within { result ≢ Err Failure.TooManyFiles → length paths.now ≤ 64 }
{
    if paths.len() > SOURCE_COUNT {
        return Err(Failure::TooManyFiles);
    }
    let mut readers = Vec::new(alloc);
    if paths.is_empty() {
        add_reader(&mut readers, input(alloc, streams, is_strict)?)?;
        return Ok(readers);
    }
    for path in paths {
        let reader = named(alloc, streams, readers.len(), path, is_strict)?;
        add_reader(&mut readers, reader)?;
    }
    Ok(readers)
}

fn add_reader<R: Drop>(readers: &mut Vec<R>, reader: R) -> Result<(), AllocError>
    ensures { OnOk result (readers.new.items ≡ readers.old.items ++ reader ∷ []) }
{
    readers.push(reader)?;
    Ok(())
}

// The reader of the input.
fn input<S: Streams, R: StreamReader<S::Inlet>>(
    alloc: Global,
    streams: &mut S,
    is_strict: bool,
) -> Result<R, Failure>
    ensures nothing_told { IfOk result (λ reader.
        R.told reader ≡ record { names = []; stacks = [] }) }
    ensures possible { IfOk result (λ reader.
        GivesSome (R.gives reader)) }
    ensures opened { IfOk result (λ reader. IfSome (S.known_input streams.old)
        (ReadsText is_strict (R.gives reader))) }
    ensures err { IfErr result (IsOfLoad 0) }
{
    match streams.open_input(alloc) {
        Ok(inlet) => Ok(R::over_stream(alloc, inlet, is_strict)),
        Err(fault) => Err(Failure::of_load(0, fault)),
    }
}

// The reader of the file of a path. Where that can't be opened, the source at this place is blamed.
fn named<S: Streams, R: StreamReader<S::Inlet>>(
    alloc: Global,
    streams: &mut S,
    at: usize,
    path: &str,
    is_strict: bool,
) -> Result<R, Failure>
    ensures nothing_told { IfOk result (λ reader.
        R.told reader ≡ record { names = []; stacks = [] }) }
    ensures possible { IfOk result (λ reader.
        GivesSome (R.gives reader)) }
    ensures opened { IfOk result (λ reader. IfSome (S.known_file streams.old path.now)
        (ReadsText is_strict (R.gives reader))) }
    ensures absent { S.is_absent streams.old path.now ≡ true → IsErr result }
    ensures files { S.known_file streams.new ≡ S.known_file streams.old }
    ensures absences { S.is_absent streams.new ≡ S.is_absent streams.old }
    ensures err { IfErr result (IsOfLoad at) }
    ensures unknown { IsErrOf result (Failure.Unreadable at)
        → IsNone (S.known_file streams.old path.now) }
{
    match streams.open_named(alloc, path) {
        Ok(inlet) => Ok(R::over_stream(alloc, inlet, is_strict)),
        Err(fault) => Err(Failure::of_load(at, fault)),
    }
}
