//! Runs by rows, of readers that wait for bytes.

ghost use Rattle.std.specs.Prelude.{◌≡◌, ◌≤◌, [], length, All, IfOk};
ghost use Rattle.stack_core.specs.RowReading.{GivesSome};

use super::fakes::{Counts, HeldBack};
use super::lists::is_list;
use super::shared;
use super::sinks::Taker;
use crate::tests::holds;
use byte_io::BytesInlet;
use folded_lines::FoldedStream;
use ring_collect::{CollectFault, Collected, RingSize, collect_rows};
use stack_core::{NoSink, OpenGate, RowReader, SourceEnd};
use std::alloc::{AllocError, Global};
use std::sync::atomic::Ordering;
use std::sync::{Arc, Wait};
use std::test::Fail;
use std::thread::Threads;

/// Pieces of a text, of which each has the last byte of one sample.
const PIECES: [&[u8]; 5] = [
    b"a 1\n",
    b"a 2\n\n# ignored\n",
    b"a 3\r\na",
    b" 4\na 5",
    b"\nignored",
];

/// The weights of these samples.
const WEIGHTS: &[u8] = &[1, 2, 3, 4, 5];

/// Gives them one after another, each once the sink took the samples before.
fn held_back(alloc: Global, counts: &Arc<Counts>) -> Result<HeldBack, AllocError> {
    let mut pieces = Vec::new(alloc);
    for piece in PIECES.iter() {
        pieces.push(BytesInlet::new(piece.to_vec(alloc)?))?;
    }
    Ok(HeldBack {
        pieces,
        at: 0,
        counts: Arc::try_clone(counts)?,
    })
}

/// A reader of what comes by an inlet.
fn reader_over(alloc: Global, inlet: HeldBack) -> FoldedStream<HeldBack>
    ensures told { ⟦<FoldedStream<HeldBack> as RowReader>⟧.told result ≡ record { names = []; stacks = [] } }
    ensures possible { GivesSome (⟦<FoldedStream<HeldBack> as RowReader>⟧.gives result) }
{
    FoldedStream::over(alloc, inlet)
}

/// A reader of that text alone.
fn reader_of_pieces(
    alloc: Global,
    counts: &Arc<Counts>,
) -> Result<Vec<FoldedStream<HeldBack>>, AllocError>
    ensures few { IfOk result (λ readers. length readers.items ≤ 64) }
    ensures nothing_told { IfOk result (λ readers. All (λ reader.
        ⟦<FoldedStream<HeldBack> as RowReader>⟧.told reader ≡ record { names = []; stacks = [] })
        readers.items) }
    ensures possible { IfOk result (λ readers. All (λ reader.
        GivesSome (⟦<FoldedStream<HeldBack> as RowReader>⟧.gives reader)) readers.items) }
{
    let mut readers = Vec::new(alloc);
    readers.push(reader_over(alloc, held_back(alloc, counts)?))?;
    Ok(readers)
}

/// What a run over that text collects.
fn collected<T: Threads + Wait + Copy + Send + 'static>(
    rt: &T,
    alloc: Global,
    counts: &Arc<Counts>,
) -> Result<Collected, CollectFault> {
    let gate = shared(alloc, OpenGate)?;
    let readers = reader_of_pieces(alloc, counts)?;
    let mut sink = Taker {
        taken: NoSink::new(),
        counts: Arc::try_clone(counts)?,
    };
    collect_rows(
        rt,
        alloc,
        readers,
        RingSize::of(64).unwrap(),
        gate,
        &mut sink,
    )
}

/// Each sample reached the sink before the bytes behind it were there.
fn each_came<T: Threads + Wait + Copy + Send + 'static>(
    rt: &T,
    alloc: Global,
) -> Result<bool, CollectFault> {
    let counts = Counts::new(alloc)?;
    let run = collected(rt, alloc, &counts)?;
    let ending = SourceEnd::Clean { ignored: 3 };
    Ok(
        run.lists.len() == 1
            && is_list(0, &run.lists[0], (WEIGHTS, ending))
            && counts.given.load(Ordering::SeqCst) == 5,
    )
}

/// Batches of 64 records, none of which is full before a reader waits.
#[test]
fn sent_before_a_wait(rt: HostRuntime) -> Result<(), Fail> {
    holds(&rt, each_came(&rt, rt.alloc()))
}
