//! Worked examples of changes.

use super::told::is_text;
use function_sums::{
    Change, ChangeOrder, FunctionChange, FunctionSum, Order, function_changes, grown,
};
use stack_core::Text;
use std::alloc::{AllocError, Global};
use std::test::Fail;

/// Names, own weights and totals of the functions of a side.
type Side<'a> = &'a [(&'a str, u64, u64)];

fn sum_of(alloc: Global, row: &(&str, u64, u64)) -> Result<FunctionSum, AllocError> {
    let (name, own, total) = row;
    Ok(FunctionSum {
        name: Text::from_str(alloc, name)?,
        own: *own,
        total: *total,
    })
}

fn sums_of(alloc: Global, side: Side<'_>) -> Result<Vec<FunctionSum>, AllocError> {
    let mut sums = Vec::new(alloc);
    for row in side {
        sums.push(sum_of(alloc, row)?)?;
    }
    Ok(sums)
}

/// Appends name, own weight before and after, and total before and after.
fn append_change(text: &mut String, change: &FunctionChange) -> Result<(), AllocError> {
    let FunctionChange { own, total, .. } = change;
    write!(text, "({} {} {} ", change.name.get(), own.before, own.after)?;
    write!(text, "{} {})", total.before, total.after)
}

fn append_changes(
    alloc: Global,
    text: &mut String,
    sides: (Side<'_>, Side<'_>),
    by: ChangeOrder,
) -> Result<(), AllocError> {
    let before = sums_of(alloc, sides.0)?;
    let after = sums_of(alloc, sides.1)?;
    for change in &function_changes(alloc, &before, &after, by)? {
        append_change(text, change)?;
    }
    Ok(())
}

fn by(by: Order) -> ChangeOrder {
    ChangeOrder { by, whole: None }
}

const OLD: Side<'static> = &[("m", 5, 8), ("g", 4, 4), ("f", 3, 3)];

const NEW: Side<'static> = &[("f", 5, 5), ("g", 4, 4), ("h", 2, 2), ("m", 1, 6)];

#[test]
fn greatest_change_of_own_first(rt: HostRuntime) -> Result<(), Fail> {
    let mut text = String::new(rt.alloc());
    append_changes(rt.alloc(), &mut text, (OLD, NEW), by(Order::Own))?;
    is_text(&rt, &text, "(m 5 1 8 6)(f 3 5 3 5)(h 0 2 0 2)(g 4 4 4 4)");
    Ok(())
}

// Three totals change by 2, up and down: their names decide.
#[test]
fn greatest_change_of_total_first(rt: HostRuntime) -> Result<(), Fail> {
    let mut text = String::new(rt.alloc());
    append_changes(rt.alloc(), &mut text, (OLD, NEW), by(Order::Total))?;
    is_text(&rt, &text, "(f 3 5 3 5)(h 0 2 0 2)(m 5 1 8 6)(g 4 4 4 4)");
    Ok(())
}

#[test]
fn functions_of_one_side(rt: HostRuntime) -> Result<(), Fail> {
    let mut text = String::new(rt.alloc());
    append_changes(rt.alloc(), &mut text, (&[], NEW), by(Order::Own))?;
    append_changes(rt.alloc(), &mut text, (OLD, &[]), by(Order::Total))?;
    append_changes(rt.alloc(), &mut text, (&[], &[]), by(Order::Own))?;
    is_text(
        &rt,
        &text,
        "(f 0 5 0 5)(g 0 4 0 4)(h 0 2 0 2)(m 0 1 0 6)(m 5 0 8 0)(g 4 0 4 0)(f 3 0 3 0)",
    );
    Ok(())
}

const MOST: u64 = u64::MAX;

#[test]
fn greatest_changes(rt: HostRuntime) -> Result<(), Fail> {
    let mut text = String::new(rt.alloc());
    let sides: (Side<'_>, Side<'_>) = (&[("a", 1, MOST)], &[("b", MOST, MOST)]);
    append_changes(rt.alloc(), &mut text, sides, by(Order::Own))?;
    is_text(
        &rt,
        &text,
        "(b 0 18446744073709551615 0 18446744073709551615)(a 1 0 18446744073709551615 0)",
    );
    Ok(())
}

const SHORT: Side<'static> = &[("f", 6, 6), ("g", 4, 4)];

const LONG: Side<'static> = &[("h", 50, 50), ("g", 40, 40), ("f", 10, 10)];

const WHOLES: Change = Change {
    before: 10,
    after: 100,
};

const BY_SHARE: ChangeOrder = ChangeOrder {
    by: Order::Own,
    whole: Some(WHOLES),
};

// f has 60 hundredths and then 10, h none and then 50, and g 40 of both.
#[test]
fn greatest_change_of_share_first(rt: HostRuntime) -> Result<(), Fail> {
    let mut text = String::new(rt.alloc());
    append_changes(rt.alloc(), &mut text, (SHORT, LONG), BY_SHARE)?;
    is_text(&rt, &text, "(f 6 10 6 10)(h 0 50 0 50)(g 4 40 4 40)");
    Ok(())
}

/// The names of those that grew, one behind the other.
fn append_grown(
    alloc: Global,
    text: &mut String,
    sides: (Side<'_>, Side<'_>),
    whole: Change,
    points: u64,
) -> Result<(), AllocError> {
    let before = sums_of(alloc, sides.0)?;
    let after = sums_of(alloc, sides.1)?;
    let changes = function_changes(alloc, &before, &after, BY_SHARE)?;
    for name in &grown(alloc, &changes, whole, points)? {
        write!(text, "({name})")?;
    }
    Ok(())
}

#[test]
fn shares_that_grew(rt: HostRuntime) -> Result<(), Fail> {
    let cases = [(0, "(h)"), (49, "(h)"), (50, ""), (u64::MAX, "")];
    for (points, wanted) in cases {
        let mut text = String::new(rt.alloc());
        append_grown(rt.alloc(), &mut text, (SHORT, LONG), WHOLES, points)?;
        is_text(&rt, &text, wanted);
    }
    Ok(())
}

const HEAVIEST: Side<'static> = &[("f", u64::MAX, u64::MAX)];

// The greatest weights there are, and a side without any.
#[test]
fn shares_of_the_greatest_weights(rt: HostRuntime) -> Result<(), Fail> {
    let most = Change {
        before: 0,
        after: u64::MAX,
    };
    for (points, wanted) in [(99, "(f)"), (100, "")] {
        let mut text = String::new(rt.alloc());
        append_grown(rt.alloc(), &mut text, (&[], HEAVIEST), most, points)?;
        is_text(&rt, &text, wanted);
    }
    Ok(())
}
