//! The sample types of a profile, shown in place of its samples.
ghost use Rattle.std.specs.Prelude.{◌≡◌, false, IfOk, Some, length, map, string_bytes};
ghost use Rattle.view_texts.specs.Types.{types_text};
ghost use Rattle.source_views.specs.Failures.{Flushes, Sends};
ghost use Rattle.flame_tool.specs.KnownRuns.{change};
ghost use Rattle.flame_tool.specs.TypeRuns.{known_profile};
ghost use Rattle.flame_tool.specs.checked.Showed.{ShowedTypes};

use crate::advice::Advice;
use crate::next_steps::Trouble;
use byte_io::{Files, Outlet};
use command_line::Plan;
use profile_tables::{SampleTypes, TableFault, sample_types};
use source_views::{Failure, open_named, report_ending, send_text};
use stack_core::SourceEnd;
use std::alloc::Global;
use view_texts::TypesText;

// Shows the sample types of the one profile of a plan. No sample of it is read, so no function grew.
pub(crate) fn show_types<F: Files, W: Outlet, E: Outlet>(
    alloc: Global,
    plan: &Plan,
    files: &mut F,
    out: &mut W,
    err: &mut E,
    words: &[String],
) -> Result<bool, Failure>
    requires one { length plan.now.files ≡ 1 }
    ensures { ShowedTypes (known_profile plan.now (F.known_file files.old)) plan.now.files
        (F.may_have_terminal ≡ false)
        (change (W.contents out.old) (W.contents out.new) (W.failures out.old) (W.failures out.new))
        (change (E.contents err.old) (E.contents err.new) (E.failures err.old) (E.failures err.new))
        (W.is_flushed out.new) result }
{
    let paths = plan.files.get();
    let source = open_named(alloc, files, 0, &paths[0], plan.format)?;
    let advice = Advice::new(words, files.is_error_terminal());
    show_types_of(alloc, &source.bytes, paths, out, err, advice)
}

// The same of a profile's bytes.
fn show_types_of<W: Outlet, E: Outlet>(
    alloc: Global,
    profile: &[u8],
    paths: &[String],
    out: &mut W,
    err: &mut E,
    advice: Advice<'_>,
) -> Result<bool, Failure>
    ensures { ShowedTypes (Some profile.now) (map string_bytes paths.now)
        (advice.entry.is_wanted ≡ false)
        (change (W.contents out.old) (W.contents out.new) (W.failures out.old) (W.failures out.new))
        (change (E.contents err.old) (E.contents err.new) (E.failures err.old) (E.failures err.new))
        (W.is_flushed out.new) result }
{
    match sample_types(alloc, profile) {
        Ok(types) => send_types(alloc, &types, out),
        Err(TableFault::Read(fault)) => {
            report_ending(err, paths, 0, &SourceEnd::Fault(fault));
            advice.tell(alloc, err, paths, 0, Trouble::Fault(fault.kind));
            Err(Failure::Faults)
        }
        Err(TableFault::OutOfMemory) => Err(Failure::OutOfMemory),
    }
}

fn send_types<W: Outlet>(alloc: Global, types: &SampleTypes, out: &mut W) -> Result<bool, Failure>
    ensures none { IfOk result (λ is_over. is_over ≡ false) }
    ensures sent { Sends (types_text types.now) (W.contents out.old) (W.contents out.new) result }
    ensures flushed { Flushes (W.is_flushed out.new) (W.failures out.old) (W.failures out.new)
        result }
{
    send_text(alloc, &TypesText::of(types), out)?;
    Ok(false)
}
