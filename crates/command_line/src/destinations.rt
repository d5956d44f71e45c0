//! Where what the words ask for is written.
ghost use Rattle.std.specs.Prelude.{◌≡◌, IfOk, map, string_bytes};
ghost use Rattle.command_line.specs.Destinations.{destination_of, written_to};

use crate::plans::{Form, Plan, PlanFault};
use crate::words::plan;
use stack_core::Text;
use std::alloc::{AllocError, Global};

/// Where a run writes.
#[derive(Debug, Drop)]
pub enum Destination {
    /// To standard output, what may be a document: a page or a picture, which is not for a terminal.
    Standard { is_document: bool },
    /// To the file of this path.
    File(Text),
    /// To the file of this path, whose place one page after the other takes.
    Pages(Text),
}

impl Destination {
    /// Where the plan is written.
    fn of(plan: Plan) -> Destination
        ensures { result ≡ written_to plan }
    {
        let Plan {
            output,
            pages,
            form,
            ..
        } = plan;
        if let Some(path) = pages {
            return Destination::Pages(path);
        }
        match output {
            Some(path) => Destination::File(path),
            None => Destination::Standard {
                is_document: matches!(form, Form::Page(_) | Form::Picture(_)),
            },
        }
    }
}

/// Where what these words ask for is written. What is said of words that are refused, and the help that words ask for, goes to the
/// standard streams.
pub fn asked_destination(alloc: Global, words: &[String]) -> Result<Destination, AllocError>
    ensures { IfOk result (λ found. found ≡ destination_of (map string_bytes words.now)) }
{
    match plan(alloc, words) {
        Ok(plan) => Ok(Destination::of(plan)),
        Err(PlanFault::OutOfMemory) => Err(AllocError),
        Err(PlanFault::Words(_)) => Ok(Destination::Standard { is_document: false }),
        Err(PlanFault::Help(_)) => Ok(Destination::Standard { is_document: false }),
    }
}
