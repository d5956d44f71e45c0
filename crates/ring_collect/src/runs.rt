//! A whole run: a reader thread and a bounded ring for each source, and the collecting thread that feeds the sink.

ghost use Rattle.std.specs.Prelude.{None, Some, false, ◌≡◌, ◌≤◌, ◌++◌, ◌⊎◌, ℕ, [], IfOk, IsErrOf, IfErr, IsOk, length, map, true, vec_capacity};
ghost use Rattle.std.specs.Arc.{arc_value};
ghost use Rattle.ring_collect.specs.Collection.{Answers, AnswersFeed, AnswersRun, GainsAllowed, GainsFirst, GiveSuch, HearsFirst, HearsSome, TellsEnds};
ghost use Rattle.ring_collect.specs.checked.Ends.{HearsCloses, unheard};
ghost use Rattle.ring_collect.specs.checked.WholeRuns.{CanRun, HandsOut, IsUnfinished, RunsWhole};
ghost use Rattle.ring_collect.specs.checked.Settlement.{AreListsOf};
ghost use Rattle.stack_core.specs.Ledgers.{IsRead};

use crate::batches::Handover;
use crate::faults::CollectFault;
use crate::feeds::Feed;
use crate::reader_threads::start_all;
use crate::room::Room;
use crate::rounds::Collector;
use crate::settlement::settle_all;
use stack_core::{Close, Gate, Ledger, RowReader, SourceEnd, SourceList};
use std::alloc::{AllocError, Global};
use std::sync::{Arc, Wait};
use std::thread::Threads;

/// What a run collected.
#[derive(Drop)]
pub struct Collected {
    /// One list for each reader, in their order.
    pub lists: Vec<SourceList>,
    /// The source of each sample, in the order in which the samples came out of the rings.
    pub order: Vec<u32>,
}

/// The list that a ledger hands out. An error where it was closed for want of memory.
fn list_of_ledger(ledger: Ledger) -> Result<SourceList, AllocError>
    ensures list { IfOk result (λ list. (list.samples ≡ ledger.samples)
        × (ledger.close ≡ Some (Close.Read list.ending))) }
    ensures names { IfOk result (λ list. list.told ≡ ledger.told) }
    ensures read { IsRead ledger.close → IsOk result }
{
    match ledger.closed() {
        Some(Close::Read(_)) => Ok(ledger.into_list()),
        _ => Err(AllocError),
    }
}

/// The lists that ledgers hand out. An error where a reader met want of memory, or there is want of memory.
fn lists_of(alloc: Global, ledgers: Vec<Ledger>) -> Result<Vec<SourceList>, AllocError>
    ensures { IfOk result (λ lists. AreListsOf ledgers.items lists.items) }
{
    let mut lists = Vec::with_capacity(alloc, ledgers.len())?;
    for ledger in ledgers {
        lists.push(list_of_ledger(ledger)?)?;
    }
    Ok(lists)
}

/// How each list ended.
fn endings_of(alloc: Global, lists: Vec<SourceList>) -> Result<Vec<SourceEnd>, AllocError>
    ensures { IfOk result (λ endings. endings.items ≡ map (λ list. list.ending) lists.items) }
{
    let mut endings = Vec::with_capacity(alloc, lists.len())?;
    for list in lists {
        endings.push(*list.ending())?;
    }
    Ok(endings)
}

/// What a run left whose sources are all settled.
#[derive(Drop)]
struct Settled {
    ledgers: Vec<Ledger>,
    order: Vec<u32>,
    /// What was refused in starting or collecting, if something was.
    fault: Option<CollectFault>,
}

/// What was refused in starting or collecting, want of memory before a thread.
fn refusal(started: Result<(), CollectFault>, refused: bool) -> Option<CollectFault>
    requires { (source : ℕ) → IsErrOf started (CollectFault.Unfinished source) → ⊥ }
    ensures none { result ≡ None → (refused ≡ false) × IsOk started }
    ensures finished { (source : ℕ) → result ≡ Some (CollectFault.Unfinished source) → ⊥ }
{
    if refused {
        return Some(CollectFault::OutOfMemory);
    }
    started.err()
}

impl<R: RowReader + Send + Drop + 'static, G: Gate + Send + Sync + Drop + 'static> Room<R, G> {
    /// Starts the sources, drains their rings and joins their threads.
    fn run_sources<T: Threads + Wait + Copy + Send + 'static, S, F: Feed<S>>(
        self,
        rt: &T,
        alloc: Global,
        readers: Vec<R>,
        gate: &Arc<G>,
        feed: &mut F,
        sink: &mut S,
    ) -> Result<Settled, CollectFault>
        requires readers { CanRun R.told R.gives readers.items }
        requires rings { length self.rings.items ≡ length readers.items }
        requires sources { (self.sources.items ≡ [])
            × (length readers.items ≤ vec_capacity self.sources) }
        requires ledgers { (self.ledgers.items ≡ [])
            × (length readers.items ≤ vec_capacity self.ledgers) }
        ensures gains { IfOk result (λ run. GiveSuch (λ reader. R.gives reader) readers.items (λ rests.
            GainsFirst rests (F.taken sink.old) (F.taken sink.new)
            × (run.fault ≡ None
            → RunsWhole self.keeps (G.may_stop (arc_value gate.now)) (G.may_go (arc_value gate.now)) rests
            run.ledgers.items run.order.items (F.taken sink.old) (F.taken sink.new))
            × (length readers.items ≤ (F.setting sink.old).known
            → HearsFirst (G.may_stop (arc_value gate.now)) (G.may_go (arc_value gate.now)) rests
            (F.taken sink.old) (F.taken sink.new) (F.setting sink.old).heard (F.setting sink.new).heard))) }
        ensures popped { IfOk result (λ _.
            GainsAllowed (G.may_go (arc_value gate.now)) (F.taken sink.old) (F.taken sink.new)) }
        ensures refused { IfOk result (λ run. (source : ℕ)
            → run.fault ≡ Some (CollectFault.Unfinished source) → ⊥) }
        ensures unfinished { IfErr result (λ fault.
            IsUnfinished (length readers.items) (F.taken sink.old) (F.taken sink.new) fault) }
        ensures heard { length readers.items ≤ (F.setting sink.old).known → IfOk result (λ run.
            run.fault ≡ None → HearsCloses (F.setting sink.old).heard (map (λ ledger. ledger.close) run.ledgers.items)
            (F.taken sink.new) (F.setting sink.new).heard) }
        ensures heard_some { length readers.items ≤ (F.setting sink.old).known
            → HearsSome (length readers.items) (F.setting sink.old).heard (F.setting sink.new).heard }
        ensures setting { unheard (F.setting sink.new) ≡ unheard (F.setting sink.old) }
    {
        let Room {
            rings,
            mut sources,
            mut ledgers,
            keeps,
            pause,
        } = self;
        let started = start_all(*rt, alloc, readers, rings, gate, &mut sources, keeps);
        let refused = matches!(started, Err(CollectFault::OutOfMemory));
        let order = Vec::new(alloc);
        let mut collector = Collector {
            sources,
            order,
            refused,
            taken: 0,
        };
        collector.drain(rt, pause, feed, sink);
        let Collector {
            sources,
            order,
            refused,
            taken: _,
        } = collector;
        if let Some(source) = settle_all(rt, sources, &mut ledgers) {
            return Err(CollectFault::Unfinished { source });
        }
        Ok(Settled {
            ledgers,
            order,
            fault: refusal(started, refused),
        })
    }
}

/// Readers, how their records are handed over, and the gate that they ask.
#[derive(Drop)]
pub struct RingedReaders<R: RowReader, G: Gate> {
    pub readers: Vec<R>,
    pub handover: Handover,
    pub gate: Arc<G>,
}

impl<R: RowReader + Send + Drop + 'static, G: Gate + Send + Sync + Drop + 'static> RingedReaders<
    R,
    G,
> {
    /// Feeds a sink with the rows of the readers, and collects them where samples are kept.
    fn run_by<T: Threads + Wait + Copy + Send + 'static, S, F: Feed<S>>(
        self,
        rt: &T,
        alloc: Global,
        keeps: bool,
        feed: &mut F,
        sink: &mut S,
    ) -> Result<Collected, CollectFault>
        requires { CanRun R.told R.gives self.readers.items }
        ensures answer { GiveSuch (λ reader. R.gives reader) self.readers.items (λ rests.
            Answers (λ run. HandsOut keeps (G.may_stop (arc_value self.gate)) (G.may_go (arc_value self.gate))
            rests (F.taken sink.old) (F.taken sink.new) run.lists.items run.order.items)
            (G.may_go (arc_value self.gate)) rests (F.taken sink.old) (F.taken sink.new) result) }
        ensures ends { length self.readers.items ≤ (F.setting sink.old).known
            → TellsEnds (λ reader. R.gives reader) (G.may_stop (arc_value self.gate)) (G.may_go (arc_value self.gate))
            self.readers.items (F.taken sink.old) (F.taken sink.new)
            (F.setting sink.old).heard (F.setting sink.new).heard (λ run. map (λ list. list.ending) run.lists.items) result }
        ensures setting { unheard (F.setting sink.new) ≡ unheard (F.setting sink.old) }
    {
        let RingedReaders {
            readers,
            handover,
            gate,
        } = self;
        let room = Room::new(alloc, readers.len(), handover, keeps)?;
        let run = room.run_sources(rt, alloc, readers, &gate, feed, sink)?;
        let lists = lists_of(alloc, run.ledgers)?;
        match run.fault {
            Some(fault) => Err(fault),
            None => Ok(Collected {
                lists,
                order: run.order,
            }),
        }
    }

    /// Collects the rows of the readers, and feeds a sink with them.
    pub fn collect_by<T: Threads + Wait + Copy + Send + 'static, S, F: Feed<S>>(
        self,
        rt: &T,
        alloc: Global,
        feed: &mut F,
        sink: &mut S,
    ) -> Result<Collected, CollectFault>
        requires { CanRun R.told R.gives self.readers.items }
        ensures answer { GiveSuch (λ reader. R.gives reader) self.readers.items (λ rests.
            AnswersRun (G.may_stop (arc_value self.gate)) (G.may_go (arc_value self.gate)) rests
            (F.taken sink.old) (F.taken sink.new) result) }
        ensures setting { unheard (F.setting sink.new) ≡ unheard (F.setting sink.old) }
    {
        self.run_by(rt, alloc, true, feed, sink)
    }

    /// Feeds a sink with the rows of the readers, and answers how they ended.
    pub fn feed_by<T: Threads + Wait + Copy + Send + 'static, S, F: Feed<S>>(
        self,
        rt: &T,
        alloc: Global,
        feed: &mut F,
        sink: &mut S,
    ) -> Result<Vec<SourceEnd>, CollectFault>
        requires { CanRun R.told R.gives self.readers.items }
        ensures answer { GiveSuch (λ reader. R.gives reader) self.readers.items (λ rests.
            AnswersFeed (G.may_stop (arc_value self.gate)) (G.may_go (arc_value self.gate)) rests
            (F.taken sink.old) (F.taken sink.new) result) }
        ensures ends { length self.readers.items ≤ (F.setting sink.old).known
            → TellsEnds (λ reader. R.gives reader) (G.may_stop (arc_value self.gate)) (G.may_go (arc_value self.gate))
            self.readers.items (F.taken sink.old) (F.taken sink.new)
            (F.setting sink.old).heard (F.setting sink.new).heard (λ endings. endings.items) result }
        ensures setting { unheard (F.setting sink.new) ≡ unheard (F.setting sink.old) }
    {
        let run = self.run_by(rt, alloc, false, feed, sink)?;
        Ok(endings_of(alloc, run.lists)?)
    }
}
