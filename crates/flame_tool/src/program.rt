//! A run of the program.
ghost use Rattle.std.specs.Prelude.{◌≡◌, ◌≢◌, ◌≤◌, [], Some, IfErr, IfOk, IfSome, OnOk, length, map, string_bytes};
ghost use Rattle.command_line.specs.Plans.{IsComparison, IsFaultAmong, IsOfOneProfile};
ghost use Rattle.flame_tool.specs.KnownRuns.{RunShows, as_files, change};
ghost use Rattle.flame_tool.specs.Requests.{asked_faults, asked_plan};

use crate::exits::refuse;
use crate::hosts::Host;
use crate::plan_run::run_plan;
use byte_io::{Files, Outlet};
use command_line::{Form, Plan, PlanFault, plan, plan_without_words};
use std::alloc::Global;
use std::sync::Wait;
use std::thread::Threads;

/// Runs the program with the words after its name, and answers its exit status: 0 where it wrote what was
/// asked for, 1 where a source has a fault, 2 where the words are refused or there are more than 64 files,
/// and 3 where a source can't be read, there is no memory or no thread, or the output fails. It is 4 where
/// it wrote what was asked for, and a function's share grew by more than the words allow. Without words it
/// writes the fold text of the input, which is folded text. Messages go to `err`, a line each, and a
/// failure to write them changes nothing.
pub fn run<T: Threads + Wait + Copy + Send + 'static, F: Files, W: Outlet, E: Outlet>(
    rt: &T,
    alloc: Global,
    words: Vec<String>,
    files: &mut F,
    out: &mut W,
    err: &mut E,
) -> u8
    // All that a status says, and what standard error gained then: `RunShows` of `specs/KnownRuns.antt`.
    ensures { RunShows (map string_bytes words.items)
        (as_files (F.known_input files.old) (F.known_file files.old) F.may_have_terminal) result
        (change (W.contents out.old) (W.contents out.new) (W.failures out.old) (W.failures out.new))
        (change (E.contents err.old) (E.contents err.new) (E.failures err.old) (E.failures err.new))
        (W.is_flushed out.new) }
{
    let host = Host { rt, alloc };
    match asked(alloc, words.as_slice()) {
        Ok(plan) => run_plan(&host, plan, files, out, err, words.as_slice()),
        Err(fault) => refuse(fault, out, err),
    }
}

// The plan of the words of a run: without words that of the input, which is folded.
fn asked(alloc: Global, words: &[String]) -> Result<Plan, PlanFault>
    ensures plan { IfOk result (λ plan. asked_plan (map string_bytes words.now) ≡ Some plan) }
    ensures taken { OnOk result (asked_faults (map string_bytes words.now) ≡ []) }
    ensures refused { IfErr result (IsFaultAmong (asked_faults (map string_bytes words.now))) }
    ensures worded { IfErr result (λ _. length (map string_bytes words.now) ≢ 0) }
    ensures pairs { IfOk result (λ plan. IsComparison plan.view → length plan.files ≡ 2) }
    ensures every { IfOk result (λ plan. IfSome plan.options.every (λ every. 1 ≤ every)) }
    ensures profile { IfOk result (λ plan. plan.form ≡ Form.Types → IsOfOneProfile plan) }
{
    if words.is_empty() {
        return Ok(plan_without_words(alloc));
    }
    plan(alloc, words)
}
