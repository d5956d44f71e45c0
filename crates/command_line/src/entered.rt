//! The plan of the command that was entered.
ghost use Rattle.std.specs.Prelude.{◌≡◌, [], IfErr, IfOk, IsSome, IsSomeAnd, Some, codes, option_map};
ghost use Rattle.clap.specs.Words.{subcommand_rows_of};
ghost use Rattle.command_line.specs.Plans.{IsFaultAmong, command_plan, entered_plan, entries_fault, live_plan, own_fault, plan_with, svg_plan, types_plan, view_of};
ghost use Rattle.command_line.specs.checked.Entries.{IsFlagAt, IsNumberAt, IsRead, entries_of};
ghost use Rattle.command_line.specs.declared.arguments.TheConstants.{MOST_BETWEEN_SNAPSHOTS};
ghost use Rattle.command_line.specs.declared.plans.PlanFault.TheVariants.{OutOfMemory};
ghost use Rattle.run_options.specs.declared.ring_sizes.TheConstants.{LARGEST_RING};
ghost use Rattle.run_options.specs.declared.widths.TheConstants.{MAX_WIDTH};

use crate::entries::{
    default_options, files, first, format, live_options, options, picture_path, still_options,
    unit, values,
};
use crate::plans::{Form, Plan, PlanFault, View};
use crate::refusals::check_entries;
use crate::views::{form, picture, view, width};
use clap::ArgMatches;
use run_options::Format;
use stack_core::Names;
use std::alloc::{AllocError, Global};

// The plan of the command that was entered.
pub(crate) fn planned(alloc: Global, matches: &ArgMatches<'_>) -> Result<Plan, PlanFault>
    requires { IsSomeAnd (subcommand_rows_of matches.now) (λ entered.
        IsRead entered.0 entered.1) }
    ensures plan { IfOk result (λ plan. entered_plan (subcommand_rows_of matches.now) ≡ Some plan) }
    ensures refused { IfErr result (IsFaultAmong (own_fault (subcommand_rows_of matches.now))) }
    ensures passes { own_fault (subcommand_rows_of matches.now) ≡ []
        → IfErr result (λ fault. fault ≡ OutOfMemory) }
{
    let Some((name, entries)) = matches.subcommand() else {
        unreachable!()
    };
    command_plan(alloc, name, entries)
}

// The plan of the command of that name with its entries.
fn command_plan(alloc: Global, name: &str, entries: &ArgMatches<'_>) -> Result<Plan, PlanFault>
    requires { IsRead name.now (entries_of entries.now) }
    ensures plan { IfOk result (λ plan. command_plan name.now (entries_of entries.now) ≡ Some plan) }
    ensures refused { IfErr result (IsFaultAmong (entries_fault name.now (entries_of entries.now))) }
    ensures passes { entries_fault name.now (entries_of entries.now) ≡ []
        → IfErr result (λ fault. fault ≡ OutOfMemory) }
{
    check_entries(alloc, name, entries)?;
    if name == "types" {
        Ok(types_plan(alloc, entries)?)
    } else if name == "live" {
        Ok(live_plan(alloc, entries)?)
    } else if name == "svg" {
        Ok(svg_plan(alloc, entries)?)
    } else {
        Ok(view_plan(alloc, name, entries)?)
    }
}

// The plan of a command that shows a view.
fn view_plan(alloc: Global, name: &str, entries: &ArgMatches<'_>) -> Result<Plan, AllocError>
    requires read { IsRead name.now (entries_of entries.now) }
    requires view { IsSome (view_of name.now (entries_of entries.now)) }
    ensures { IfOk result (λ plan. option_map (plan_with name.now (entries_of entries.now))
        (view_of name.now (entries_of entries.now)) ≡ Some plan) }
{
    plan_with(alloc, name, entries, view(name, entries))
}

// The plan with the view.
fn plan_with(
    alloc: Global,
    name: &str,
    entries: &ArgMatches<'_>,
    view: View,
) -> Result<Plan, AllocError>
    requires { IsRead name.now (entries_of entries.now) }
    ensures { IfOk result (λ plan. plan ≡ plan_with name.now (entries_of entries.now) view) }
{
    Ok(Plan {
        view,
        format: format(entries),
        is_strict: entries.get_flag("strict"),
        is_quiet: entries.get_flag("quiet"),
        unit: unit(entries),
        form: form(alloc, name, entries)?,
        from: first(alloc, entries, "from")?,
        omit: values(alloc, entries, "omit")?,
        output: first(alloc, entries, "output")?,
        pages: None,
        files: files(alloc, entries)?,
        options: options(alloc, entries)?,
    })
}

// The plan of `types`.
fn types_plan(alloc: Global, entries: &ArgMatches<'_>) -> Result<Plan, AllocError>
    ensures { IfOk result (λ plan. plan ≡ types_plan (entries_of entries.now)) }
{
    Ok(Plan {
        view: View::Fold,
        format: Some(Format::Pprof),
        is_strict: false,
        is_quiet: false,
        from: None,
        omit: Names::of(Vec::new(alloc)),
        output: first(alloc, entries, "output")?,
        pages: None,
        unit: None,
        form: Form::Types,
        files: files(alloc, entries)?,
        options: default_options(alloc),
    })
}

// The plan of `svg`.
fn svg_plan(alloc: Global, entries: &ArgMatches<'_>) -> Result<Plan, AllocError>
    requires { IsRead (codes "svg") (entries_of entries.now) }
    ensures { IfOk result (λ plan. plan ≡ svg_plan (entries_of entries.now)) }
{
    Ok(Plan {
        form: Form::Picture(picture(alloc, entries)?),
        output: picture_path(alloc, entries)?,
        options: still_options(alloc, entries)?,
        ..plan_with(alloc, "svg", entries, View::Graph(width(entries)))?
    })
}

// The plan of `live`.
fn live_plan(alloc: Global, entries: &ArgMatches<'_>) -> Result<Plan, AllocError>
    requires width { IsNumberAt (codes "width") MAX_WIDTH (entries_of entries.now) }
    requires ring { IsNumberAt (codes "ring") LARGEST_RING (entries_of entries.now) }
    requires every { IsNumberAt (codes "every") MOST_BETWEEN_SNAPSHOTS (entries_of entries.now) }
    requires strict { IsFlagAt (codes "strict") (entries_of entries.now) }
    ensures { IfOk result (λ plan. plan ≡ live_plan (entries_of entries.now)) }
{
    let is_strict = entries.get_flag("strict");
    Ok(Plan {
        view: View::Graph(width(entries)),
        format: Some(Format::Folded),
        is_strict,
        is_quiet: true,
        from: None,
        omit: Names::of(Vec::new(alloc)),
        output: first(alloc, entries, "output")?,
        pages: first(alloc, entries, "pages")?,
        unit: None,
        form: Form::Live,
        files: files(alloc, entries)?,
        options: live_options(alloc, entries),
    })
}
