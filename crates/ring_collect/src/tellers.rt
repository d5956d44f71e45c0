//! The reader thread of a source: it tells the samples in order, each new name once, and then the close.

ghost use Rattle.std.specs.Prelude.{◌≡◌, ◌++◌, ◌∷◌, [], IfNone, IfSome, OnErr, OnOk, map};
ghost use Rattle.rtrb.specs.Ring.{SameProducer};
ghost use Rattle.ring_collect.specs.checked.Batches.{told_to};
ghost use Rattle.ring_collect.specs.checked.Tellers.{SentAll, TellsNames, ending_of, records_of};
ghost use Rattle.stack_core.specs.RowReading.{GivesSuch, IsLimitedStep};
ghost use Rattle.std.specs.Arc.{arc_value};

use crate::outlets::Outlet;
use crate::rings::LeftOfRing;
use stack_core::{Close, Gate, Listed, RingRecord, RowReader, RowStep, SourceEnd, Text, Turn};
use std::alloc::{AllocError, Global};
use std::sync::{Arc, Wait};

/// Tells names, in their order. After an error some of them are told.
fn tell_names<W: Wait>(
    rt: &W,
    alloc: Global,
    outlet: &mut Outlet,
    names: Listed<Text>,
) -> Result<(), AllocError>
    ensures ring { SameProducer outlet.old.producer outlet.new.producer }
    ensures told { OnOk result (told_to outlet.new ≡ told_to outlet.old ++ map RingRecord.Name names) }
    ensures short { OnErr result (TellsNames (told_to outlet.old) (told_to outlet.new)) }
{
    for name in names.into_plain() {
        outlet.tell(rt, alloc, RingRecord::Name(name))?;
    }
    Ok(())
}

/// Tells what a reader gave: the names that are new and then the row, or the row again. An ending tells nothing. After an error no
/// row is told.
fn tell_step<W: Wait>(
    rt: &W,
    alloc: Global,
    outlet: &mut Outlet,
    step: RowStep,
) -> Result<(), AllocError>
    requires { IsLimitedStep step }
    ensures ring { SameProducer outlet.old.producer outlet.new.producer }
    ensures told { OnOk result (told_to outlet.new ≡ told_to outlet.old ++ records_of step) }
    ensures short { OnErr result (TellsNames (told_to outlet.old) (told_to outlet.new)) }
{
    match step {
        RowStep::New {
            names,
            frames,
            weight,
        } => {
            tell_names(rt, alloc, outlet, names)?;
            outlet.tell(rt, alloc, RingRecord::Row { frames, weight })
        }
        RowStep::Again { row, weight } => outlet.tell(rt, alloc, RingRecord::Again { row, weight }),
        RowStep::End(_) => Ok(()),
    }
}

/// The ending, if that is what a reader gave.
fn ending_in(step: &RowStep) -> Option<SourceEnd>
    ensures { result ≡ ending_of step.now }
{
    match step {
        RowStep::New { .. } | RowStep::Again { .. } => None,
        RowStep::End(ending) => Some(*ending),
    }
}

/// What tells the samples of a source: its reader, and the end of the ring where they go.
struct Teller<R: RowReader> {
    reader: R,
    outlet: Outlet,
}

/// A sample by the number of its source, and its number there.
#[derive(Clone, Copy)]
struct SampleNumber {
    source: u32,
    index: u64,
}

impl<R: RowReader> Teller<R> {
    ghost use Rattle.std.specs.Prelude.{◌≡◌, ◌<◌, ◌++◌, ◌∷◌, ◌^◌, ◌↔◌, [], IfNone, IfSome, length};
    ghost use Rattle.rtrb.specs.Ring.{sent, SameProducer};
    ghost use Rattle.ring_collect.specs.checked.Batches.{records_of_all, told_to};
    ghost use Rattle.ring_collect.specs.checked.Tellers.{AreNamesOf, TellsOne, TellsAll, Closes, told_by};
    ghost use Rattle.stack_core.specs.Reading.{Rest};
    ghost use Rattle.stack_core.specs.Records.{names_told, stands_for, IsWellTold};
    ghost use Rattle.stack_core.specs.RowReading.{GivesSome, GivesSuch};
    ghost use Rattle.stack_core.specs.Told.{IsToldUnder};
    ghost use Rattle.stack_core.specs.declared.endings.Item.TheVariants as item;

    /// Sends what is pending, where the reader may wait for bytes that are still to come: then no sample waits for them.
    fn send_before_wait<W: Wait>(&mut self, rt: &W, alloc: Global)
        ensures ring { SameProducer self.old.outlet.producer self.new.outlet.producer }
        ensures gives { (rest : Rest) → R.gives self.new.reader rest ↔ R.gives self.old.reader rest }
        ensures rows { R.told self.new.reader ≡ R.told self.old.reader }
        ensures told { told_to self.new.outlet ≡ told_to self.old.outlet }
    {
        if self.reader.may_wait() {
            self.outlet.flush(rt, alloc);
        }
    }

    /// Tells the next sample of the reader, where the gate lets it go. `None` where that was done, and else the close that comes
    /// next.
    fn tell_next<W: Wait, G: Gate>(
        &mut self,
        rt: &W,
        alloc: Global,
        gate: &G,
        number: SampleNumber,
    ) -> Option<Close>
        requires told { R.told self.old.reader ≡ told_by (told_to self.old.outlet) }
        requires well_told { IsWellTold (told_to self.old.outlet) }
        ensures ring { SameProducer self.old.outlet.producer self.new.outlet.producer }
        ensures few { (rest : Rest) → R.gives self.old.reader rest
            → length rest.samples < 2 ^ 64 }
        ensures possible { GivesSome (R.gives self.new.reader) }
        ensures told { IfNone result ((after : Rest) → R.gives self.new.reader after
            → GivesSuch (R.gives self.old.reader) (λ before. TellsOne (G.may_go gate.now)
            number.source number.index before after (R.told self.new.reader)
            (told_to self.old.outlet) (told_to self.new.outlet))) }
        ensures closes { IfSome result (λ close. GivesSuch (R.gives self.old.reader) (λ rest.
            Closes (G.may_stop gate.now) number.source number.index rest
            (told_to self.old.outlet) (told_to self.new.outlet) close)) }
    {
        let SampleNumber { source, index } = number;
        self.send_before_wait(rt, alloc);
        let Ok(step) = self.reader.next_row(alloc) else {
            return Some(Close::NoMemory);
        };
        if let Some(ending) = ending_in(&step) {
            return Some(Close::Read(ending));
        }
        match gate.before(source, index) {
            Turn::Stop => return Some(Close::Read(SourceEnd::Stopped { after: index })),
            Turn::Go => (),
        }
        match tell_step(rt, alloc, &mut self.outlet, step) {
            Ok(()) => None,
            Err(_) => Some(Close::NoMemory),
        }
    }

    /// Tells the samples of the reader, asking the gate before each, and answers the close that comes next.
    fn tell_samples<W: Wait, G: Gate>(
        &mut self,
        rt: &W,
        alloc: Global,
        gate: &G,
        source: u32,
    ) -> Close
        requires nothing_sent { told_to self.old.outlet ≡ [] }
        requires nothing_told { R.told self.old.reader ≡ record { names = []; stacks = [] } }
        ensures ring { SameProducer self.old.outlet.producer self.new.outlet.producer }
        ensures told { GivesSuch (R.gives self.old.reader) (λ rest.
            IsToldUnder (G.may_stop gate.now) (G.may_go gate.now) source rest
            (stands_for (told_to self.new.outlet) ++ item.Close result ∷ [])) }
        ensures well_told { IsWellTold (told_to self.new.outlet) }
        ensures in_order { AreNamesOf (stands_for (told_to self.new.outlet) ++ item.Close result ∷ [])
            (names_told (told_to self.new.outlet)) }
    {
        let mut index = 0u64;
        for _ in rt.forever() {
            let number = SampleNumber { source, index };
            if let Some(close) = self.tell_next(rt, alloc, gate, number) {
                return close;
            }
            index += 1;
        }
        unreachable!()
    }

    /// Tells all that the reader gives, and then the close.
    fn tell_source<W: Wait, G: Gate>(&mut self, rt: &W, alloc: Global, gate: &G, source: u32)
        requires nothing_sent { told_to self.old.outlet ≡ [] }
        requires nothing_told { R.told self.old.reader ≡ record { names = []; stacks = [] } }
        ensures ring { SameProducer self.old.outlet.producer self.new.outlet.producer }
        ensures told { GivesSuch (R.gives self.old.reader) (λ rest.
            TellsAll (G.may_stop gate.now) (G.may_go gate.now) source rest
            (records_of_all (sent self.new.outlet.producer))) }
    {
        let close = self.tell_samples(rt, alloc, gate, source);
        self.outlet.close(rt, alloc, close);
    }
}

/// What runs in the thread of a source: it tells all that its reader gives, then the close, and hands back what
/// shows that it sent no more. `None` where the ring's end left nothing, which no clause of the ring rules out.
pub fn tell_all<W: Wait, R: RowReader + Drop, G: Gate + Drop>(
    rt: &W,
    alloc: Global,
    reader: R,
    gate: Arc<G>,
    source: u32,
    outlet: Outlet,
) -> Option<LeftOfRing>
    requires nothing_sent { told_to outlet ≡ [] }
    requires nothing_told { R.told reader ≡ record { names = []; stacks = [] } }
    ensures { IfSome result (λ left. GivesSuch (R.gives reader) (λ rest.
        SentAll (G.may_stop (arc_value gate)) (G.may_go (arc_value gate)) source rest
        outlet.producer left)) }
{
    let mut teller = Teller { reader, outlet };
    teller.tell_source(rt, alloc, &*gate, source);
    let Teller { reader: _, outlet } = teller;
    let Outlet {
        producer,
        pause: _,
        batches: _,
        pending: _,
        limit: _,
    } = outlet;
    producer.finish()
}
