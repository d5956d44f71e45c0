//! The comparison of two profiles.

ghost use Rattle.std.specs.Prelude.{◌≡◌, ◌<◌, ◌≤◌, ◌+◌, ◌^◌, [], All, IfOk, OnOk, length, map};
ghost use Rattle.merged_stacks.specs.Timeline.{total_weight};
ghost use Rattle.merged_stacks.specs.Paired.{paired_stacks};
ghost use Rattle.flame_layout.specs.Boxes.{compared_of, span_of};
ghost use Rattle.flame_layout.specs.Comparison.{comparison_of, compared_boxes_of};
ghost use Rattle.flame_layout.specs.checked.Paired.{names_now, next_path, paired_boxes, paired_row, paired_rows};

use crate::boxes::{DrawnBox, DrawnPair, PairRow};
use crate::chart::Chart;
use crate::charts::draw_all;
use merged_stacks::{Alone, PairedSide, PairedStacks, Side, StackRows};
use stack_core::{Names, SourceList};
use std::alloc::{AllocError, Global};

/// The comparison of two profiles: a row for each path with weight on either side, the root's
/// included, sorted by path.
pub fn compare(
    alloc: Global,
    before: &SourceList,
    after: &SourceList,
) -> Result<Vec<PairRow>, AllocError>
    requires before { total_weight before.now.samples < 2 ^ 64 }
    requires after { total_weight after.now.samples < 2 ^ 64 }
    ensures rows { IfOk result (λ rows.
        rows.items ≡ comparison_of before.now.samples after.now.samples) }
    ensures depth { IfOk result (λ rows. All (λ row. length row.path ≤ 4096) rows.items) }
{
    // The samples are within the limits: the counts tell it.
    let _counts = (before.len(), after.len());
    let stacks = PairedStacks::of(alloc, before, after, &Alone)?;
    compare_stacks(alloc, &stacks, before, after)
}

/// The rows of `compare`, from the stacks of both profiles.
fn compare_stacks(
    alloc: Global,
    stacks: &PairedStacks,
    before: &SourceList,
    after: &SourceList,
) -> Result<Vec<PairRow>, AllocError>
    requires stacks { stacks.now ≡ paired_stacks before.now.samples after.now.samples }
    requires before { total_weight before.now.samples < 2 ^ 64 }
    requires after { total_weight after.now.samples < 2 ^ 64 }
    ensures { IfOk result (λ rows.
        rows.items ≡ comparison_of before.now.samples after.now.samples) }
{
    let lefts = PairedSide {
        stacks,
        side: Side::Before,
    };
    let rights = PairedSide {
        stacks,
        side: Side::After,
    };
    let left = draw_all(alloc, &lefts, before.total() as u64)?;
    let right = draw_all(alloc, &rights, after.total() as u64)?;
    pair_rows(alloc, &left, &right)
}

/// The boxes of the flame graph of the second profile, each with the first profile's total of its path, listed by start, then depth. They
/// are drawn of the stacks of both profiles, which lend the names.
pub fn draw_paired<'a>(
    alloc: Global,
    stacks: &'a PairedStacks,
    before: &SourceList,
    after: &SourceList,
) -> Result<Vec<DrawnPair<'a>>, AllocError>
    requires stacks { stacks.now ≡ paired_stacks before.now.samples after.now.samples }
    requires before { total_weight before.now.samples < 2 ^ 64 }
    requires after { total_weight after.now.samples < 2 ^ 64 }
    ensures boxes { IfOk result (λ boxes.
        map compared_of boxes.items ≡ compared_boxes_of before.now.samples after.now.samples) }
    ensures within { IfOk result (λ boxes.
        All (λ pair. pair.drawn.start + pair.drawn.weight ≤ total_weight after.now.samples)
        boxes.items) }
    ensures positive { IfOk result (λ boxes. 0 < length boxes.items
        → 0 < total_weight after.now.samples) }
{
    let lefts = PairedSide {
        stacks,
        side: Side::Before,
    };
    let left = draw_all(alloc, &lefts, before.total() as u64)?;
    let right = draw_all(alloc, stacks, after.total() as u64)?;
    pair_boxes(alloc, &left, &right)
}

/// The boxes of the second side that weigh, each with the weight of that of the first side.
fn pair_boxes<'a, L: StackRows, R: StackRows>(
    alloc: Global,
    before: &Chart<'_, L>,
    after: &Chart<'a, R>,
) -> Result<Vec<DrawnPair<'a>>, AllocError>
    ensures { IfOk result (λ boxes. map compared_of boxes.items ≡ paired_boxes before.now after.now) }
{
    let mut boxes = Vec::new(alloc);
    for at in 0..before.len().min(after.len()) {
        let left = before.get(at);
        let right = after.get(at);
        if right.weight > 0 {
            boxes.push(DrawnPair {
                drawn: right,
                total_before: left.weight,
            })?;
        }
    }
    Ok(boxes)
}

/// The rows of the boxes of both sides. The boxes stand in step, since both sides have the same stacks.
fn pair_rows<L: StackRows, R: StackRows>(
    alloc: Global,
    before: &Chart<'_, L>,
    after: &Chart<'_, R>,
) -> Result<Vec<PairRow>, AllocError>
    ensures { IfOk result (λ rows. rows.items ≡ paired_rows [] before.now after.now) }
{
    let mut rows = Vec::new(alloc);
    let mut path = Vec::new(alloc);
    for at in 0..before.len().min(after.len()) {
        let left = before.get(at);
        step_path(&mut path, &left)?;
        rows.push(row(alloc, &path, &left, &after.get(at))?)?;
    }
    Ok(rows)
}

/// Steps to the path of the next box.
fn step_path<'a>(path: &mut Vec<&'a str>, next: &DrawnBox<'a>) -> Result<(), AllocError>
    ensures { OnOk result (names_now path.new.items ≡ next_path (names_now path.old.items) (span_of next.now)) }
{
    if next.depth == 0 {
        path.clear();
        return Ok(());
    }
    path.truncate(next.depth as usize - 1);
    path.push(next.name)?;
    Ok(())
}

/// The row of a path, by its boxes in both profiles.
fn row(
    alloc: Global,
    path: &[&str],
    before: &DrawnBox<'_>,
    after: &DrawnBox<'_>,
) -> Result<PairRow, AllocError>
    ensures { IfOk result (λ row.
        row ≡ paired_row (names_now path.now) (span_of before.now) (span_of after.now)) }
{
    Ok(PairRow {
        path: names(alloc, path)?,
        total_before: before.weight,
        total_after: after.weight,
        own_before: before.own,
        own_after: after.own,
    })
}

/// The names of a path.
fn names(alloc: Global, path: &[&str]) -> Result<Names, AllocError>
    ensures { IfOk result (λ names. names ≡ names_now path.now) }
{
    let mut names = Vec::new(alloc);
    for name in path {
        names.push(String::from_str(alloc, name)?)?;
    }
    Ok(Names::of(names))
}
