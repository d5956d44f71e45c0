//! What whoever sees the messages of a run on a terminal is advised to do.

ghost use Rattle.std.specs.Prelude.{◌≡◌, false};

use crate::looks::look;
use crate::next_steps::{Trouble, next_step};
use byte_io::{Outlet, Refusal, send};
use run_options::Filter;
use source_lists::Input;
use source_views::Failure;
use stack_core::{SourceEnd, SourceList};
use std::alloc::Global;

/// The advice of a run with these words, where it is wanted.
#[derive(Clone, Copy)]
pub(crate) struct Advice<'a> {
    words: &'a [String],
    // Where they are there to be looked at.
    inputs: &'a [Input],
    is_wanted: bool,
}

impl<'a> Advice<'a> {
    /// Is wanted where the messages go to a terminal.
    pub(crate) fn new(words: &'a [String], is_wanted: bool) -> Advice<'a>
        ensures { result.is_wanted ≡ is_wanted }
    {
        Advice {
            words,
            inputs: &[],
            is_wanted,
        }
    }

    /// The same of sources that are there to be looked at.
    pub(crate) fn over<'b>(&'b self, inputs: &'b [Input]) -> Advice<'b>
        ensures { result.is_wanted ≡ self.now.is_wanted }
    {
        Advice {
            words: self.words,
            inputs,
            is_wanted: self.is_wanted,
        }
    }

    /// Whether it is wanted.
    pub(crate) fn is_wanted(&self) -> bool
        ensures { result ≡ self.now.is_wanted }
    {
        self.is_wanted
    }

    /// Says what to do behind the message of this trouble with a source.
    pub(crate) fn tell<E: Outlet>(
        &self,
        alloc: Global,
        err: &mut E,
        files: &[String],
        source: usize,
        trouble: Trouble,
    )
        ensures untold { self.now.is_wanted ≡ false → err.new ≡ err.old }
    {
        if !self.is_wanted {
            return;
        }
        let seen = look(alloc, self.inputs.get(source), trouble);
        if let Ok(step) = next_step(alloc, self.words, files, source, trouble, &seen) {
            let _ = send(step.as_bytes(), err);
        }
    }

    /// The same behind the message of how a source ended, where there was trouble.
    pub(crate) fn tell_ending<E: Outlet>(
        &self,
        alloc: Global,
        err: &mut E,
        files: &[String],
        source: usize,
        list: &SourceList,
        filter: &Filter,
    )
        ensures untold { self.now.is_wanted ≡ false → err.new ≡ err.old }
    {
        if let Some(trouble) = trouble_with(list, filter) {
            self.tell(alloc, err, files, source, trouble);
        }
    }

    /// The same behind the message of a failure, which has one. The refusal is that of the last file that was not given.
    pub(crate) fn tell_failure<E: Outlet>(
        &self,
        alloc: Global,
        err: &mut E,
        files: &[String],
        failure: Failure,
        refusal: Refusal,
    )
        ensures untold { self.now.is_wanted ≡ false → err.new ≡ err.old }
    {
        if failure != Failure::Faults {
            self.tell(alloc, err, files, 0, Trouble::Failed(failure, refusal));
        }
    }
}

// What trouble there was with a source, if there was some.
fn trouble_with(list: &SourceList, filter: &Filter) -> Option<Trouble> {
    match list.ending() {
        SourceEnd::Fault(fault) => Some(Trouble::Fault(fault.kind)),
        SourceEnd::Clean { ignored } => {
            if *ignored > 0 && list.len() == 0 && filter.is_everything() {
                Some(Trouble::NoSamples)
            } else {
                None
            }
        }
        SourceEnd::Stopped { after: _ } => None,
    }
}
