//! Schedules whose answers are worked out by hand.

ghost use Rattle.std.specs.Prelude.{◌≡◌, ◌<◌, length, IfOk};

use crate::tests::holds;
use crate::tests::samples::sample;
use stack_core::{Close, Event, Item, OpenGate, Sample, SourceEnd, World, laws};
use std::alloc::{AllocError, Global};
use std::test::Fail;

const CLEAN: Close = Close::Read(SourceEnd::Clean { ignored: 0 });

// A told list of samples of these names, which was read to its end.
fn told(alloc: Global, names: &[&str]) -> Result<Vec<Item>, AllocError> {
    let mut items = Vec::new(alloc);
    for name in names {
        items.push(Item::Sample(sample(alloc, &[*name], 1)?))?;
    }
    items.push(Item::Close(CLEAN))?;
    Ok(items)
}

// Makes events happen, and says whether each answer is the one beside it.
fn plays(world: &mut World, events: &[(Event, bool)]) -> bool
    ensures { length world.new.lanes ≡ length world.old.lanes }
{
    for (event, possible) in events {
        if world.step(*event) != *possible {
            return false;
        }
    }
    true
}

fn is_alone(names: &[String], name: &str) -> bool {
    names.len() == 1 && names[0].as_str() == name
}

// Whether an item is a sample of this name alone, or a close, for which a full stop stands.
fn is_item(item: &Item, name: &str) -> bool {
    match item {
        Item::Sample(sample) => is_alone(sample.stack.get(), name),
        Item::Close(_) => name == ".",
    }
}

fn are_items(items: &[Item], names: &[&str]) -> bool {
    if items.len() != names.len() {
        return false;
    }
    for at in 0..names.len() {
        if !is_item(&items[at], names[at]) {
            return false;
        }
    }
    true
}

/// One list of one sample, through a queue of one.
const ONE_SOURCE: &[(Event, bool)] = &[
    (Event::Push(0), true),
    (Event::Push(0), false),
    (Event::Pop(0), true),
    (Event::Push(0), true),
    (Event::Pop(0), true),
    (Event::Pop(0), false),
    (Event::Push(1), false),
];

fn one_list(alloc: Global) -> Result<World, AllocError>
    ensures { IfOk result (λ world. length world.lanes ≡ 1) }
{
    World::new(alloc, vec![in alloc; told(alloc, &["x"])?]?, 1)
}

fn plays_one_source(world: &mut World, whole: &[Item]) -> bool
    requires { length world.old.lanes ≡ 1 }
{
    plays(world, ONE_SOURCE) && world.received(0) == whole
}

fn one_source_is_played(alloc: Global) -> Result<bool, AllocError> {
    let whole = told(alloc, &["x"])?;
    Ok(plays_one_source(&mut one_list(alloc)?, whole.as_slice()))
}

#[test]
fn world_and_ledger(rt: HostRuntime) -> Result<(), Fail> {
    holds(&rt, one_source_is_played(rt.alloc()))
}

/// Two lists, of two samples and of one, through queues of two.
const TWO_SOURCES: &[(Event, bool)] = &[
    (Event::Push(0), true),
    (Event::Push(1), true),
    (Event::Push(0), true),
    (Event::Push(0), false),
    (Event::Pop(1), true),
    (Event::Pop(1), false),
    (Event::Push(1), true),
    (Event::Pop(0), true),
    (Event::Push(0), true),
    (Event::Push(0), false),
    (Event::Pop(1), true),
];

/// What comes after.
const THE_REST: &[(Event, bool)] = &[
    (Event::Pop(0), true),
    (Event::Pop(0), true),
    (Event::Pop(0), false),
    (Event::Pop(2), false),
];

fn two_lists(alloc: Global) -> Result<World, AllocError>
    ensures { IfOk result (λ world. length world.lanes ≡ 2) }
{
    let lists = vec![in alloc; told(alloc, &["a", "b"])?, told(alloc, &["c"])?]?;
    World::new(alloc, lists, 2)
}

fn plays_two_sources(world: &mut World) -> bool
    requires { length world.old.lanes ≡ 2 }
{
    plays(world, TWO_SOURCES)
        && are_items(world.received(0), &["a"])
        && are_items(world.received(1), &["c", "."])
        && plays(world, THE_REST)
        && are_items(world.received(0), &["a", "b", "."])
}

fn two_sources_are_played(alloc: Global) -> Result<bool, AllocError> {
    Ok(plays_two_sources(&mut two_lists(alloc)?))
}

#[test]
fn two_sources(rt: HostRuntime) -> Result<(), Fail> {
    holds(&rt, two_sources_are_played(rt.alloc()))
}

const NO_SOURCE: &[(Event, bool)] = &[(Event::Push(0), false), (Event::Pop(0), false)];

fn no_source_is_played(alloc: Global) -> Result<bool, AllocError> {
    let mut world = World::new(alloc, Vec::new(alloc), 1)?;
    Ok(plays(&mut world, NO_SOURCE))
}

#[test]
fn no_sources(rt: HostRuntime) -> Result<(), Fail> {
    holds(&rt, no_source_is_played(rt.alloc()))
}

#[test]
fn laws_return() {
    laws::limits();
    laws::received_comes_first::<Item>();
    laws::queues_stay_bounded::<Item>();
    laws::a_received_close_is_the_last();
    laws::pops_are_an_interleaving::<Item, Sample>();
    laws::pops_of_samples_are_an_interleaving();
    laws::an_order_stands_for_its_lists::<Sample>();
    laws::two_forms_of_an_interleaving::<Sample>();
    laws::well_told_records();
    laws::a_told_list_has_one_close();
    laws::lists_told_under_a_gate::<OpenGate>();
}
