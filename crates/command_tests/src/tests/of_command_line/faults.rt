//! What is said where a line is no plan.

use super::wanted::Wanted;
use command_line::PlanFault;
use std::alloc::{AllocError, Global};

fn is_refusal(text: &str, begin: &str, part: &str) -> bool {
    text.starts_with(begin) && text.contains(part) && text.ends_with("try '--help'.\n")
}

fn is_version(text: &str) -> bool {
    text.starts_with("flamecollect ") && text.ends_with(")\n") && text.lines().count() == 1
}

fn text_of(fault: &PlanFault) -> &str {
    match fault {
        PlanFault::Words(text) | PlanFault::Help(text) => text.as_str(),
        PlanFault::OutOfMemory => "out of memory",
    }
}

/// Whether a fault is shown as the text that it has.
pub(crate) fn is_shown(alloc: Global, fault: &PlanFault) -> Result<bool, AllocError> {
    Ok(fault.to_string(alloc)?.as_str() == text_of(fault))
}

/// Whether a fault tells this.
pub(crate) fn tells(fault: &PlanFault, wanted: &Wanted<'_>) -> bool {
    match (fault, *wanted) {
        (PlanFault::Words(text), Wanted::Refused(begin, part)) => {
            is_refusal(text.as_str(), begin, part)
        }
        (PlanFault::Help(text), Wanted::Help(part)) => text.as_str().contains(part),
        (PlanFault::Help(text), Wanted::Version) => is_version(text.as_str()),
        _ => false,
    }
}
