//! From words to a plan.
ghost use Rattle.std.specs.Prelude.{◌≡◌, ◌≤◌, [], None, IfErr, IfOk, IfSome, OnOk, length, map, string_bytes, true};
ghost use Rattle.command_line.specs.CommandLine.{command_line};
ghost use Rattle.command_line.specs.Plans.{IsComparison, IsDrawn, IsFaultAmong, IsOfOneProfile, IsOfStreams, IsPage, IsPicture, default_plan, fault_of, plan_of, takes};
ghost use Rattle.command_line.specs.declared.plans.PlanFault.TheVariants.{OutOfMemory};

use crate::commands::command_line;
use crate::entered::planned;
use crate::entries::default_options;
use crate::plans::{Form, Plan, PlanFault, View};
use crate::refusals::parse_refusal;
use stack_core::Names;
use std::alloc::Global;

/// The plan of the words after the program's name. A refusal has the text that `clap` writes; no
/// words at all are refused too.
pub fn plan(alloc: Global, words: &[String]) -> Result<Plan, PlanFault>
    // The plan is that of the words, and only words without a fault have one.
    ensures plan { IfOk result (λ plan. plan_of (map string_bytes words.now) ≡ Some plan) }
    ensures taken { OnOk result (fault_of command_line (map string_bytes words.now) ≡ []) }

    // A refusal is one of the faults of the words, if it is not for memory.
    ensures refused { IfErr result
        (IsFaultAmong (fault_of command_line (map string_bytes words.now))) }
    ensures passes { takes command_line (map string_bytes words.now) ≡ true
        → IfErr result (λ fault. fault ≡ OutOfMemory) }

    // What a run asks of its plan.
    ensures pair { IfOk result (λ plan. IsComparison plan.view → length plan.files ≡ 2) }
    ensures every { IfOk result (λ plan. IfSome plan.options.every (λ every.
        (1 ≤ every) × (every ≤ 1000000000))) }
    ensures page { IfOk result (λ plan. IsPage plan.form → IsDrawn plan.view) }
    ensures picture { IfOk result (λ plan. IsPicture plan.form → IsDrawn plan.view) }
    ensures alone { IfOk result (λ plan. IsPicture plan.form → plan.options.every ≡ None) }
    ensures types { IfOk result (λ plan. plan.form ≡ Form.Types → IsOfOneProfile plan) }
    ensures live { IfOk result (λ plan. plan.form ≡ Form.Live → IsOfStreams plan) }
    ensures pages { IfOk result (λ plan. IfSome plan.pages (λ _.
        (plan.form ≡ Form.Live) × (plan.output ≡ None))) }
{
    let line = command_line(alloc)?;
    match line.try_get_matches_from(words) {
        Ok(matches) => planned(alloc, &matches),
        Err(error) => Err(parse_refusal(alloc, words, &error)),
    }
}

/// The plan of a run without words: the input is folded.
pub fn plan_without_words(alloc: Global) -> Plan
    ensures plan { result ≡ default_plan }
    ensures view { result.view ≡ View.Fold }
    ensures files { result.files ≡ [] }
    ensures every { result.options.every ≡ None }
    ensures form { result.form ≡ Form.Text }
{
    Plan {
        view: View::Fold,
        options: default_options(alloc),
        from: None,
        omit: Names::of(Vec::new(alloc)),
        output: None,
        pages: None,
        format: None,
        files: Names::of(Vec::new(alloc)),
        form: Form::Text,
        is_strict: false,
        is_quiet: false,
        unit: None,
    }
}
