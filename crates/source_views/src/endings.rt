//! How the sources of a run ended.
ghost use Rattle.std.specs.Prelude.{◌≡◌};
ghost use Rattle.source_views.specs.Failures.{ends_in_fault, has_fault};

use stack_core::{SourceEnd, SourceList};

/// Whether a source ended in a fault.
pub fn any_fault(lists: &[SourceList]) -> bool
    ensures { result ≡ has_fault lists.now }
{
    lists.iter().any(|list| is_fault(list.ending()))
}

fn is_fault(ending: &SourceEnd) -> bool
    ensures { result ≡ ends_in_fault ending.now }
{
    matches!(ending, SourceEnd::Fault(_))
}
