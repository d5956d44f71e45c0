//! The samples of the sources of a plan, collected and shown.
ghost use Rattle.std.specs.Prelude.{◌≡◌, ◌≤◌, ◌<◌, ℕ, false, IfOk, IfSome, Some, IfErr, IsErrOf, OnOk, is_some, length, map, not, true, IsSome};
ghost use Rattle.std.specs.List.{AllZip, list_any};
ghost use Rattle.command_line.specs.Plans.{IsComparison};
ghost use Rattle.ring_collect.specs.Collection.{AreWhole, seen_as_rest};
ghost use Rattle.source_lists.specs.Sources.{asked_rests, known_inputs, whole_weight};
ghost use Rattle.source_lists.specs.Strictness.{source_fault};
ghost use Rattle.flame_tool.specs.checked.Saying.{TellsEndings};
ghost use Rattle.source_lists.specs.Types.{types_of};
ghost use Rattle.flame_tool.specs.StrictRuns.{has_strict_fault};
ghost use Rattle.flame_tool.specs.checked.SummedPlans.{is_summed, is_summed_view};
ghost use Rattle.source_lists.specs.Summing.{IsFound};
ghost use Rattle.flame_tool.specs.checked.Showed.{Showed};
ghost use Rattle.flame_tool.specs.KnownRuns.{change};
ghost use Rattle.source_views.specs.Messages.{Tells, message_of_strict_fault, said_of_each};
ghost use Rattle.flame_tool.specs.checked.Telling.{form_tells, view_tells};

use crate::advice::Advice;
use crate::hosts::Host;
use crate::progress::Progress;
use crate::reports::{report_endings, report_strict_faults};
use crate::run_facts::RunFacts;
use crate::sent_lists::send_lists;
use byte_io::Outlet;
use command_line::{Form, Plan, View};
use profile_messages::SampleType;
use ring_collect::CollectFault;
use source_lists::{Input, Run, RunFault, StrictFault, chosen_types, read_open, strict_faults};
use source_views::Failure;
use stack_core::{Listed, NoSink, SourceList};
use std::alloc::{AllocError, Global};
use std::sync::Wait;
use std::thread::Threads;

// Collects the samples of sources, sends the view of them, and says which functions grew over the plan's limit, and whether some did.
pub(crate) fn show_sources<T: Threads + Wait + Copy + Send + 'static, W: Outlet, E: Outlet>(
    host: &Host<'_, T>,
    plan: &Plan,
    inputs: Vec<Input>,
    out: &mut W,
    err: &mut E,
    advice: Advice<'_>,
) -> Result<bool, Failure>
    requires few { length inputs.items ≤ 64 }
    requires pairs { IsComparison plan.now.view → length inputs.items ≡ 2 }
    requires every { IfSome plan.now.options.every (λ every. 1 ≤ every) }
    ensures showed { Showed plan.now (known_inputs inputs.items) (advice.entry.is_wanted ≡ false)
        (change (W.contents out.old) (W.contents out.new) (W.failures out.old) (W.failures out.new))
        (change (E.contents err.old) (E.contents err.new) (E.failures err.old) (E.failures err.new))
        (W.is_flushed out.new) result }
    ensures few_files { IsErrOf result Failure.TooManyFiles → ⊥ }
{
    let alloc = host.alloc;
    // Where several sources can't be read, reading them tells the first.
    let told = told_types(alloc, plan, &inputs);
    let kept = kept_inputs(alloc, plan, &inputs, advice)?;
    let run = read_sources(host, plan, inputs, err, advice)?;
    let types = told?;
    if !report_sources(alloc, plan, kept, run.kept.lists(), err, advice)? {
        return Err(Failure::Faults);
    }
    let Some(whole) = run.whole_weight else {
        unreachable!()
    };
    let facts = RunFacts {
        whole,
        types: Listed::of(types),
    };
    let shown = run.kept.shown(alloc, &plan.from, &plan.omit)?;
    send_lists(host, shown, plan, &facts, out, err)
}

// Reads the sources, and tells how far that is on a terminal, unless it is to be quiet: then it sums the weights of equal stacks where the
// plan asks for no more.
fn read_sources<T: Threads + Wait + Copy + Send + 'static, E: Outlet>(
    host: &Host<'_, T>,
    plan: &Plan,
    inputs: Vec<Input>,
    err: &mut E,
    advice: Advice<'_>,
) -> Result<Run, RunFault>
    requires { length inputs.items ≤ 64 }
    ensures found { IfOk result (λ run. IfSome (known_inputs inputs.items) (λ sources.
        AllZip (IsFound (is_summed plan.now)) (asked_rests plan.now.options sources)
        (map seen_as_rest run.kept.lists))) }
    ensures weight { IfOk result (λ run. IfSome (known_inputs inputs.items) (λ sources.
        run.whole_weight ≡ Some (whole_weight plan.now.options sources))) }
    ensures weighed { IfOk result (λ run. IsSome run.whole_weight) }
    ensures count { IfOk result (λ run. length run.kept.lists ≡ length inputs.items) }
    ensures refused { (source : ℕ) → IsErrOf result (RunFault.Collect (CollectFault.Unfinished source))
        → source < length inputs.items }
    ensures unreadable { (source : ℕ) → IsErrOf result (RunFault.Unreadable source)
        → source < length inputs.items }
    ensures untold { advice.entry.is_wanted ≡ false → err.new ≡ err.old }
{
    let (rt, alloc) = (host.rt, host.alloc);
    let options = &plan.options;
    if plan.is_quiet || !advice.is_wanted() {
        let sink = &mut NoSink::new();
        return read_open(rt, alloc, inputs, options, is_summed(plan), sink);
    }
    let mut progress = Progress::new(err, plan.files.get());
    let run = read_open(rt, alloc, inputs, options, false, &mut progress);
    progress.clear();
    run
}

// Whether the plan asks for the weights of stacks alone, and not for samples in their order.
fn is_summed(plan: &Plan) -> bool
    ensures { result ≡ is_summed plan.now }
{
    !plan.is_strict && is_summed_view(plan.view, plan.options.every)
}

fn is_summed_view(view: View, every: Option<u64>) -> bool
    ensures { result ≡ is_summed_view view every }
{
    match view {
        View::Fold | View::Pairs | View::PairBoxes(_) | View::Top(_) | View::Diff(_) => true,
        View::Graph(_) => every.is_none(),
        View::Chart(_) => false,
    }
}

// The sources, to be looked at again where they are read strictly or advice is wanted.
fn kept_inputs(
    alloc: Global,
    plan: &Plan,
    inputs: &[Input],
    advice: Advice<'_>,
) -> Result<Vec<Input>, AllocError>
    ensures { IfOk result (λ kept. plan.now.is_strict ≡ true → kept.items ≡ inputs.now) }
{
    if plan.is_strict || advice.is_wanted() {
        Input::share_all(alloc, inputs)
    } else {
        Ok(Vec::new(alloc))
    }
}

// Says how the sources ended, or what is wrong with them where they are read strictly. It answers whether they may be shown as far as that
// goes.
fn report_sources<E: Outlet>(
    alloc: Global,
    plan: &Plan,
    kept: Vec<Input>,
    lists: &[SourceList],
    err: &mut E,
    advice: Advice<'_>,
) -> Result<bool, RunFault>
    ensures told { plan.now.is_strict ≡ false → advice.entry.is_wanted ≡ false → TellsEndings plan.now.files
        (E.contents err.old) (E.contents err.new) (E.failures err.old) (E.failures err.new)
        (map (λ list. list.ending) lists.now) }
    ensures told_strict { plan.now.is_strict ≡ true → advice.entry.is_wanted ≡ false
        → IfSome (known_inputs kept.items) (λ sources.
        AreWhole (asked_rests plan.now.options sources) lists.now
        → OnOk result (Tells (said_of_each (message_of_strict_fault plan.now.files) 0
        (map (source_fault plan.now.options) sources))
        (E.contents err.old) (E.contents err.new) (E.failures err.old) (E.failures err.new))) }
    ensures untold_err { IfErr result (λ _. err.new ≡ err.old) }
    ensures loose { plan.now.is_strict ≡ false → IfOk result (λ sound. sound ≡ true) }
    ensures strict { plan.now.is_strict ≡ true → IfSome (known_inputs kept.items) (λ sources.
        AreWhole (asked_rests plan.now.options sources) lists.now
        → IfOk result (λ sound. sound ≡ not (has_strict_fault plan.now.options sources))) }
{
    let advice = advice.over(&kept);
    if plan.is_strict {
        let faults = strict_faults(alloc, &kept, lists)?;
        report_strict_faults(alloc, err, plan.files.get(), &faults, advice);
        Ok(!any_is_told(&faults))
    } else {
        report_endings(
            alloc,
            err,
            plan.files.get(),
            lists,
            &plan.options.filter,
            advice,
        );
        Ok(true)
    }
}

fn any_is_told(faults: &[Option<StrictFault>]) -> bool
    ensures { result ≡ list_any is_some faults.now }
{
    faults.iter().any(|fault| is_told(fault))
}

fn is_told(fault: &Option<StrictFault>) -> bool
    ensures { result ≡ is_some fault.now }
{
    fault.is_some()
}

// The sample types of the weights of sources, where what is written tells them.
fn told_types(alloc: Global, plan: &Plan, inputs: &[Input]) -> Result<Vec<SampleType>, RunFault>
    ensures { IfOk result (λ types. form_tells plan.now.form plan.now.view ≡ true
        → IfSome (known_inputs inputs.now) (λ sources.
        types.items ≡ types_of plan.now.options sources)) }
{
    if form_tells(&plan.form, plan.view) {
        chosen_types(alloc, inputs, &plan.options)
    } else {
        Ok(Vec::new(alloc))
    }
}

pub(crate) fn form_tells(form: &Form, view: View) -> bool
    ensures { result ≡ form_tells form.now view }
{
    match form {
        Form::Text | Form::Types | Form::Live => view_tells(view),
        Form::Page(_) | Form::Picture(_) => true,
        Form::Callers(_) | Form::Callees(_) | Form::Peek(_) => true,
    }
}

fn view_tells(view: View) -> bool
    ensures { result ≡ view_tells view }
{
    match view {
        View::Top(_) | View::Diff(_) => true,
        View::Fold | View::Graph(_) | View::Chart(_) | View::Pairs | View::PairBoxes(_) => false,
    }
}
