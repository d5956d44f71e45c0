ghost use Rattle.std.specs.Prelude.{◌≡◌, None};

use crate::tests::answers::{all, holds};
use stack_core::{Close, Ledger, SourceEnd, SourceList};
use std::alloc::{AllocError, Global};
use std::test::Fail;

mod asked_again;
mod calls;
mod lists;

use asked_again::takes_all;
use calls::{Call, are_made, numbers};
use lists::{has_name, has_number, has_sample, has_stack, has_told, sums_to};

const CLEAN: SourceEnd = SourceEnd::Clean { ignored: 0 };

/// The list of a ledger that is read to its end.
fn list_of(ledger: Ledger) -> SourceList
    requires { ledger.close ≡ None }
{
    let mut ledger = ledger;
    ledger.close(Close::Read(CLEAN));
    ledger.into_list()
}

/// Whether a ledger is open, and its list is as it should be.
fn list_is(ledger: Ledger, is_right: fn(&SourceList) -> bool) -> bool
    requires { IsAlwaysCallable is_right }
{
    !ledger.is_closed() && is_right(&list_of(ledger))
}

/// Whether all of these calls are made, and their list is as it should be.
fn list_after(
    alloc: Global,
    calls: &[Call<'_>],
    is_right: fn(&SourceList) -> bool,
) -> Result<bool, AllocError>
    requires { IsAlwaysCallable is_right }
{
    let mut ledger = Ledger::new(alloc);
    let are_made = are_made(alloc, &mut ledger, calls);
    all(&[are_made, Ok(list_is(ledger, is_right))])
}

/// Whether all of these calls are made, and the ledger is then as it should be.
fn ledger_after(
    alloc: Global,
    calls: &[Call<'_>],
    is_right: fn(&mut Ledger) -> bool,
) -> Result<bool, AllocError>
    requires { IsAlwaysCallable is_right }
{
    let mut ledger = Ledger::new(alloc);
    let are_made = are_made(alloc, &mut ledger, calls);
    all(&[are_made, Ok(is_right(&mut ledger))])
}

/// Whether the stack of this number has these names' numbers.
fn keeps(ledger: &Ledger, stack: usize, frames: &[u32]) -> bool {
    stack < ledger.stack_count() && ledger.stack(stack) == frames
}

/// Whether name `k` was told, and is this.
fn has_told_name(ledger: &Ledger, k: usize, name: &str) -> bool {
    k < ledger.told() && ledger.told_name(k) == name
}

/// Two names are told, a row of both is taken twice, and between that a stack of the second.
const TWO_STACKS: &[Call<'static>] = &[
    Call::Tell("a"),
    Call::Tell("b"),
    Call::Row(&[0, 1], 2),
    Call::Keep(&[1]),
    Call::Again(1, 5),
    Call::Again(0, 7),
];

fn keeps_two_stacks(ledger: &mut Ledger) -> bool {
    ledger.stack_count() == 2 && keeps(ledger, 1, &[1]) && numbers(ledger) == (3, 14, 2)
}

// A stack is kept once, and samples are taken of it again, with weights of their own.
#[test]
fn stack_taken_again(rt: HostRuntime) -> Result<(), Fail> {
    holds(&rt, ledger_after(rt.alloc(), TWO_STACKS, keeps_two_stacks))
}

fn has_two_stacks(list: &SourceList) -> bool {
    sums_to(list, 3, 14)
        && list.stack_count() == 2
        && has_stack(list, 0, 0, &[0, 1])
        && has_stack(list, 1, 1, &[1])
        && has_stack(list, 2, 0, &[0, 1])
}

#[test]
fn list_of_a_stack_taken_again(rt: HostRuntime) -> Result<(), Fail> {
    holds(&rt, list_after(rt.alloc(), TWO_STACKS, has_two_stacks))
}

fn has_samples_of_two_stacks(list: &SourceList) -> bool {
    has_sample(list, 2, &[0, 1], 7) && has_name(list, 1, 0, "b") && sums_to(list, 3, 14)
}

#[test]
fn samples_of_a_stack_taken_again(rt: HostRuntime) -> Result<(), Fail> {
    holds(
        &rt,
        list_after(rt.alloc(), TWO_STACKS, has_samples_of_two_stacks),
    )
}

const ROWS_OF_THE_PAGE: &[Call<'static>] = &[
    Call::Tell("main"),
    Call::Tell("parse"),
    Call::Row(&[0, 1], 2),
    Call::Row(&[0], 1),
];

fn has_rows_of_the_page(list: &SourceList) -> bool {
    sums_to(list, 2, 3) && has_name(list, 0, 1, "parse")
}

// The example of README.md.
#[test]
fn example_of_the_page(rt: HostRuntime) -> Result<(), Fail> {
    holds(
        &rt,
        list_after(rt.alloc(), ROWS_OF_THE_PAGE, has_rows_of_the_page),
    )
}

/// Two names are told, and a row of both is taken and one of the first.
const TWO_ROWS: &[Call<'static>] = &[
    Call::Tell("a"),
    Call::Tell("b"),
    Call::Row(&[0, 1], 2),
    Call::Row(&[0], 1),
];

fn has_told_two(ledger: &mut Ledger) -> bool {
    numbers(ledger) == (2, 3, 2) && has_told_name(ledger, 1, "b")
}

#[test]
fn names_told_once(rt: HostRuntime) -> Result<(), Fail> {
    holds(&rt, ledger_after(rt.alloc(), TWO_ROWS, has_told_two))
}

fn has_two_rows(list: &SourceList) -> bool {
    has_sample(list, 0, &[0, 1], 2)
        && has_sample(list, 1, &[0], 1)
        && sums_to(list, 2, 3)
        && *list.ending() == CLEAN
}

#[test]
fn list_of_names_told_once(rt: HostRuntime) -> Result<(), Fail> {
    holds(&rt, list_after(rt.alloc(), TWO_ROWS, has_two_rows))
}

fn names_two_rows(list: &SourceList) -> bool {
    has_name(list, 0, 1, "b")
        && has_number(list, 1, 0, 0)
        && list.told() == 2
        && has_told(list, 0, "a")
}

#[test]
fn names_of_a_list(rt: HostRuntime) -> Result<(), Fail> {
    holds(&rt, list_after(rt.alloc(), TWO_ROWS, names_two_rows))
}

const EQUAL_SAMPLES: &[Call<'static>] = &[
    Call::Sample(&["x", "y"], 2),
    Call::Sample(&["x", "y"], 2),
];

fn closes_after_two(ledger: &mut Ledger) -> bool {
    if ledger.is_closed() {
        return false;
    }
    let close = Close::Read(CLEAN);
    ledger.close(close);
    ledger.is_closed() && ledger.closed() == Some(&close) && numbers(ledger) == (2, 4, 4)
}

#[test]
fn world_and_ledger(rt: HostRuntime) -> Result<(), Fail> {
    holds(
        &rt,
        ledger_after(rt.alloc(), EQUAL_SAMPLES, closes_after_two),
    )
}

fn has_equal_samples(list: &SourceList) -> bool {
    has_name(list, 1, 0, "x")
        && has_name(list, 1, 1, "y")
        && sums_to(list, 2, 4)
        && has_number(list, 1, 1, 3)
}

#[test]
fn names_told_anew(rt: HostRuntime) -> Result<(), Fail> {
    holds(
        &rt,
        list_after(rt.alloc(), EQUAL_SAMPLES, has_equal_samples),
    )
}

fn new_ledger_takes_all(alloc: Global) -> Result<bool, AllocError> {
    takes_all(alloc, &mut Ledger::new(alloc))
}

/// Runs through with ample memory, and where an allocation fails once: a refused call leaves what stood
/// before, and is asked again. Where it is refused again, no more is asked.
#[test]
fn refusals_change_nothing(rt: HostRuntime) -> Result<(), Fail> {
    holds(&rt, new_ledger_takes_all(rt.alloc()))
}
