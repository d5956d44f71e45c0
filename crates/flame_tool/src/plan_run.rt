//! A run of a plan.
ghost use Rattle.std.specs.Prelude.{◌≡◌, ◌≢◌, ◌≤◌, ◌<◌, false, IfSome, IsErrOf, length};
ghost use Rattle.command_line.specs.Plans.{IsComparison, IsOfOneProfile};
ghost use Rattle.flame_tool.specs.KnownFacts.{known_sources};
ghost use Rattle.flame_tool.specs.KnownRuns.{PlanShows, as_files, change};
ghost use Rattle.flame_tool.specs.Runs.{Shows};
ghost use Rattle.flame_tool.specs.TypeRuns.{known_profile};
ghost use Rattle.flame_tool.specs.checked.Showed.{Showed, ShowedTypes};

use crate::advice::Advice;
use crate::exits::end_run;
use crate::hosts::Host;
use crate::types_run::show_types;
use crate::views_run::{form_tells, show_sources};
use byte_io::{Files, Outlet};
use command_line::{Form, Plan};
use run_options::Format;
use source_views::{Failure, load_sources, report_awaited_input};
use std::sync::Wait;
use std::thread::Threads;

// Does what the plan says.
pub(crate) fn run_plan<T: Threads + Wait + Copy + Send + 'static, F: Files, W: Outlet, E: Outlet>(
    host: &Host<'_, T>,
    plan: Plan,
    files: &mut F,
    out: &mut W,
    err: &mut E,
    words: &[String],
) -> u8
    requires pairs { IsComparison plan.view → length plan.files ≡ 2 }
    requires every { IfSome plan.options.every (λ every. 1 ≤ every) }
    requires profile { plan.form ≡ Form.Types → IsOfOneProfile plan }
    ensures { PlanShows plan
        (as_files (F.known_input files.old) (F.known_file files.old) F.may_have_terminal) result
        (change (W.contents out.old) (W.contents out.new) (W.failures out.old) (W.failures out.new))
        (change (E.contents err.old) (E.contents err.new) (E.failures err.old) (E.failures err.new))
        (W.is_flushed out.new) }
{
    await_input(&plan, files, err);
    let shown = show_plan(host, &plan, files, out, err, words);
    let advice = Advice::new(words, files.is_error_terminal());
    let refusal = files.refusal();
    end_run(host.alloc, err, advice, plan.files.get(), shown, refusal)
}

// Says what is awaited where the input is read, and is a terminal.
fn await_input<F: Files, E: Outlet>(plan: &Plan, files: &F, err: &mut E)
    ensures untold { F.may_have_terminal ≡ false → err.new ≡ err.old }
{
    if plan.files.get().is_empty() && files.is_input_terminal() {
        report_awaited_input(err, plan.format.unwrap_or(Format::Folded));
    }
}

// Shows the samples of the sources, or the sample types of the one profile, and says whether functions grew over the plan's limit.
fn show_plan<T: Threads + Wait + Copy + Send + 'static, F: Files, W: Outlet, E: Outlet>(
    host: &Host<'_, T>,
    plan: &Plan,
    files: &mut F,
    out: &mut W,
    err: &mut E,
    words: &[String],
) -> Result<bool, Failure>
    requires pairs { IsComparison plan.now.view → length plan.now.files ≡ 2 }
    requires every { IfSome plan.now.options.every (λ every. 1 ≤ every) }
    requires profile { plan.now.form ≡ Form.Types → IsOfOneProfile plan.now }
    ensures showed { Showed plan.now
        (known_sources plan.now (F.known_input files.old) (F.known_file files.old))
        (F.may_have_terminal ≡ false)
        (change (W.contents out.old) (W.contents out.new) (W.failures out.old) (W.failures out.new))
        (change (E.contents err.old) (E.contents err.new) (E.failures err.old) (E.failures err.new))
        (W.is_flushed out.new) result }
    ensures typed { plan.now.form ≡ Form.Types → ShowedTypes
        (known_profile plan.now (F.known_file files.old)) plan.now.files (F.may_have_terminal ≡ false)
        (change (W.contents out.old) (W.contents out.new) (W.failures out.old) (W.failures out.new))
        (change (E.contents err.old) (E.contents err.new) (E.failures err.old) (E.failures err.new))
        (W.is_flushed out.new) result }
    ensures many { IsErrOf result Failure.TooManyFiles → 64 < length plan.now.files }
    ensures few { result ≢ Err Failure.TooManyFiles → length plan.now.files ≤ 64 }
    ensures untold_many { IsErrOf result Failure.TooManyFiles → err.new ≡ err.old }
{
    match plan.form {
        Form::Types => show_types(host.alloc, plan, files, out, err, words),
        Form::Text
        | Form::Page(_)
        | Form::Picture(_)
        | Form::Live
        | Form::Callers(_)
        | Form::Callees(_)
        | Form::Peek(_) => {
            let tells_types = form_tells(&plan.form, plan.view);
            let paths = plan.files.get();
            let inputs = load_sources(host.alloc, files, paths, plan.format, tells_types)?;
            let advice = Advice::new(words, files.is_error_terminal());
            show_sources(host, plan, inputs, out, err, advice)
        }
    }
}
