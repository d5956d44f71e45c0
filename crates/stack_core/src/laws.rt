//! Laws of the definitions, for all lists, and of the limits. Each function carries one, and does nothing.

ghost use Rattle.std.specs.Prelude.{◌≡◌, ◌<◌, ◌≤◌, ℕ, List, [], ◌++◌, length, take};
ghost use Rattle.std.specs.Prelude.{Option, Some, All, Contains, slice_get};
ghost use Rattle.std.specs.Option.{option_map};
ghost use Rattle.stack_core.specs.Interleaving.{IsInterleaving, AreOf, AreInterleaved};
ghost use Rattle.stack_core.specs.Interleaving.{interleaved, sources_of, of_source, list_of, counts_at};
ghost use Rattle.stack_core.specs.Prefixes.{IsPrefixOf};
ghost use Rattle.stack_core.specs.Reading.{Rest};
ghost use Rattle.stack_core.specs.Records.{IsWellTold, names_told, stacks_told, stands_for, written};
ghost use Rattle.stack_core.specs.Schedule.{start, after_schedule, lane_after};
ghost use Rattle.stack_core.specs.Schedule.{all_handed_out, only, received_lists};
ghost use Rattle.stack_core.specs.Told.{IsToldList, IsToldUnder, IsCollected, told, told_whole, sample_of};
ghost use Rattle.stack_core.specs.declared.endings.Close.{Close};
ghost use Rattle.stack_core.specs.declared.endings.Item.{Item};
ghost use Rattle.stack_core.specs.declared.endings.Item.TheVariants as item;
ghost use Rattle.stack_core.specs.declared.records.RingRecord.{RingRecord};
ghost use Rattle.sample_tables.specs.declared.samples.Sample.{Sample};
ghost use Rattle.stack_core.specs.declared.worlds.Event.{Event};

use crate::gates::Gate;
pub use sample_tables::laws::limits;

/// Whatever happens, no item is lost, comes twice or overtakes another: what was received is the beginning of
/// what was told, and the queue and what is still to push are the rest of it. What was received at one moment is
/// the beginning of what was received at a later one.
pub fn received_comes_first<T>()
    ensures prefix { (size : ℕ) (lists : List (List T)) (events : List Event) (source : ℕ)
        → IsPrefixOf (lane_after size lists events source).received (list_of lists source) }
    ensures none_lost { (size : ℕ) (lists : List (List T)) (events : List Event) (source : ℕ)
        → let lane = lane_after size lists events source in
        lane.received ++ lane.queue ++ lane.left ≡ list_of lists source }
    ensures grows { (size : ℕ) (lists : List (List T)) (events more : List Event) (source : ℕ)
        → let later = lane_after size lists (events ++ more) source in
        IsPrefixOf (lane_after size lists events source).received later.received }
{}

/// Whatever happens, no queue holds more than its size.
pub fn queues_stay_bounded<T>()
    ensures { (size : ℕ) (lists : List (List T)) (events : List Event) (source : ℕ)
        → length (lane_after size lists events source).queue ≤ size }
{}

/// Where a told list's close was received, the whole list was, and nothing of it is queued.
pub fn a_received_close_is_the_last()
    ensures { (size : ℕ) (lists : List (List Item)) (events : List Event) (source : ℕ) (rest : Rest)
        (close : Close)
        → IsToldList rest (list_of lists source)
        → let lane = lane_after size lists events source in
        Contains lane.received (item.Close close)
        → (lane.received ≡ list_of lists source) × (lane.queue ≡ []) }
{}

/// The Pops that handed out an item of a kind are, in order, an interleaving of what was received of that kind,
/// and their order stands for just the items that they handed out. `given` makes something of the items of the kind.
pub fn pops_are_an_interleaving<T, U>()
    ensures { (given : T → Option U) (size : ℕ) (lists : List (List T)) (events : List Event)
        → let pops = only given (all_handed_out (start size lists) events) in
        AreInterleaved pops (received_lists given (after_schedule size lists events)) }
{}

/// The same for the samples of told lists.
pub fn pops_of_samples_are_an_interleaving()
    ensures { (size : ℕ) (lists : List (List Item)) (events : List Event)
        → let pops = only sample_of (all_handed_out (start size lists) events) in
        AreInterleaved pops (received_lists sample_of (after_schedule size lists events)) }
{}

/// An order of lists has their sources alone. What it stands for has the order's sources and the lists' items,
/// entry by entry, and its first entries have the beginning of each list.
pub fn an_order_stands_for_its_lists<T>()
    ensures within { (order : List ℕ) (lists : List (List T)) → IsInterleaving order lists
        → All (λ source. source < length lists) order }
    ensures sources { (order : List ℕ) (lists : List (List T)) → IsInterleaving order lists
        → sources_of (interleaved order lists) ≡ order }
    ensures lists { (order : List ℕ) (lists : List (List T)) → IsInterleaving order lists
        → AreOf (interleaved order lists) lists }
    ensures entry { (order : List ℕ) (lists : List (List T)) (k source : ℕ)
        → IsInterleaving order lists
        → slice_get order k ≡ Some source
        → slice_get (interleaved order lists) k
        ≡ option_map (λ item.
        (source, item)) (slice_get (list_of lists source) (counts_at k order source)) }
    ensures first { (order : List ℕ) (lists : List (List T)) (m source : ℕ)
        → IsInterleaving order lists
        → of_source source (take m (interleaved order lists))
        ≡ take (counts_at m order source) (list_of lists source) }
{}

/// Pairs have of each source its list exactly where they are in an order of the lists and are what it stands for.
pub fn two_forms_of_an_interleaving<T>()
    ensures by_order { (pairs : List (ℕ × T)) (lists : List (List T))
        → AreOf pairs lists → AreInterleaved pairs lists }
    ensures by_source { (pairs : List (ℕ × T)) (lists : List (List T))
        → AreInterleaved pairs lists → AreOf pairs lists }
{}

/// The beginning of well told records is well told, and stands for the beginning of the items; and in well told
/// records each number is its name, and each row told again its row, among all that the ring tells.
pub fn well_told_records()
    ensures prefix { (records more : List RingRecord) → IsWellTold (records ++ more)
        → IsWellTold records }
    ensures items { (records more : List RingRecord)
        → IsPrefixOf (stands_for records) (stands_for (records ++ more)) }
    ensures names { (records : List RingRecord) → IsWellTold records
        → stands_for records ≡ written (names_told records) (stacks_told records) records }
{}

/// A told list has one list of samples and one close.
pub fn a_told_list_has_one_close()
    ensures { (samples others : List Sample) (close other : Close)
        → told samples close ≡ told others other
        → (samples ≡ others) × (close ≡ other) }
{}

/// What is told under a gate is a told list. Where it was read to its end it is collected, and under a gate that
/// never stops the source it is the whole rest.
pub fn lists_told_under_a_gate<G: Gate>()
    ensures told { (gate : G) (source : ℕ) (rest : Rest) (items : List Item)
        → IsToldUnder (G.may_stop gate) (G.may_go gate) source rest items
        → IsToldList rest items }
    ensures collected { (gate : G) (source : ℕ) (rest list : Rest)
        → IsToldUnder (G.may_stop gate) (G.may_go gate) source rest (told_whole list)
        → IsCollected (G.may_stop gate) (G.may_go gate) source rest list }
    ensures whole { (gate : G) (source : ℕ) (rest list : Rest)
        → ((i : ℕ) → ¬ G.may_stop gate source i)
        → IsCollected (G.may_stop gate) (G.may_go gate) source rest list
        → list ≡ rest }
{}
