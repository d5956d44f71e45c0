//! How the collecting thread takes the records of a batch, which are kept flat.

use crate::feeds::Feed;
use crate::flat_records::{FlatRecords, Step, Unread};
use crate::intakes::Intake;
use stack_core::RingRecord;

impl Intake {
    ghost use Rattle.std.specs.Prelude.{◌≡◌, ◌∷◌, [], All, None};
    ghost use Rattle.std.specs.Vec.Iter.{into_iter_items};
    ghost use Rattle.ring_collect.specs.checked.FlatRecords.{HasItsParts, frames_behind, names_behind, record_by};
    ghost use Rattle.ring_collect.specs.checked.Intakes.{Brings};
    ghost use Rattle.ring_collect.specs.checked.Rings.{IsGathered};
    ghost use Rattle.ring_collect.specs.declared.intakes.Stage.TheVariants as Stage;

    /// Takes or drops the record that a step tells.
    fn take_step<S, F: Feed<S>>(
        &mut self,
        step: Step,
        unread: &mut Unread<'_>,
        feed: &mut F,
        sink: &mut S,
        order: &mut Vec<u32>,
    )
        requires unclosed { self.old.close ≡ None }
        requires parts { HasItsParts step (into_iter_items unread.old.names) unread.old.frames.now }
        requires limits { IsGathered
            (record_by step (into_iter_items unread.old.names) unread.old.frames.now) }
        ensures names { into_iter_items unread.new.names
            ≡ names_behind step (into_iter_items unread.old.names) }
        ensures frames { unread.new.frames.now ≡ frames_behind step unread.old.frames.now }
        ensures origin { self.new.origin ≡ self.old.origin }
        ensures consumer { self.new.consumer ≡ self.old.consumer }
        ensures unclosed { self.new.close ≡ None }
        ensures dropping { self.old.stage ≡ Stage.Dropping → self.new.stage ≡ Stage.Dropping }
        ensures brings { Brings
            (record_by step (into_iter_items unread.old.names) unread.old.frames.now ∷ [])
            self.old self.new (F.taken sink.old) (F.taken sink.new) order.old.items
            order.new.items }
        ensures setting { F.setting sink.new ≡ F.setting sink.old }
    {
        match step {
            Step::Name => {
                let named = RingRecord::Name(unread.next_name());
                self.take_or_drop(named, feed, sink, order);
            }
            Step::Row { depth, weight } => {
                let frames = unread.next_frames(depth);
                if self.stage.is_taking() {
                    self.stage = self.take_row(frames, weight, feed, sink, order);
                }
            }
            Step::Again { row, weight } => {
                let row = row as usize;
                let again = RingRecord::Again { row, weight };
                self.take_or_drop(again, feed, sink, order);
            }
        }
    }

    /// Takes or drops records that came out of the ring together, in their order.
    pub fn take_all<S, F: Feed<S>>(
        &mut self,
        popped: FlatRecords,
        feed: &mut F,
        sink: &mut S,
        order: &mut Vec<u32>,
    )
        requires unclosed { self.old.close ≡ None }
        requires limits { All IsGathered popped }
        ensures origin { self.new.origin ≡ self.old.origin }
        ensures consumer { self.new.consumer ≡ self.old.consumer }
        ensures unclosed { self.new.close ≡ None }
        ensures brings { Brings popped self.old self.new (F.taken sink.old) (F.taken sink.new)
            order.old.items order.new.items }
        ensures setting { F.setting sink.new ≡ F.setting sink.old }
    {
        let FlatRecords {
            steps,
            names,
            frames,
        } = popped;
        let mut unread = Unread {
            names: names.into_iter(),
            frames: frames.as_slice(),
        };
        for step in steps {
            self.take_step(step, &mut unread, feed, sink, order);
        }
    }
}
