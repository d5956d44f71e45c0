//! Which samples are kept, by the names of their frames.

ghost use Rattle.std.specs.Prelude.{◌≡◌, ◌||◌, ◌∷◌, [], IfOk, map, string_bytes};
ghost use Rattle.std.specs.List.{list_any};
ghost use Rattle.run_options.specs.Filters.{everything, has_match, has_text, is_everything, is_none, keeps};

use stack_core::Names;
use std::alloc::{AllocError, Global};

/// Which samples are kept. A text matches a frame whose name has it, at any place and in the same case.
#[derive(Debug, Drop)]
pub struct Filter {
    /// A sample needs a frame that one of these matches. Where there is none, each sample passes.
    pub focus: Names,
    /// A sample with a frame that one of these matches is left out.
    pub hide: Names,
}

impl Filter {
    /// The filter that keeps each sample. It takes no memory.
    pub fn everything(alloc: Global) -> Filter
        ensures { result ≡ everything }
    {
        Filter {
            focus: Names::of(Vec::new(alloc)),
            hide: Names::of(Vec::new(alloc)),
        }
    }

    /// Whether there is neither a focus nor anything to hide, so that each sample is kept.
    pub fn is_everything(&self) -> bool
        ensures { result ≡ is_everything self.now }
    {
        self.focus.get().is_empty() && self.hide.get().is_empty()
    }

    /// Whether a sample with this stack is kept.
    pub fn keeps(&self, stack: &[String]) -> bool
        ensures { result ≡ keeps self.now (map string_bytes stack.now) }
    {
        is_in_focus(&self.focus, stack) && !has_match(&self.hide, stack)
    }

    /// Whether a frame of this name is in the focus. Where there is no focus, none is.
    pub fn focuses(&self, name: &str) -> bool
        ensures { result ≡ has_match self.now.focus (name.now ∷ []) }
    {
        has_any(self.focus.get(), name)
    }

    /// Whether a frame of this name is hidden.
    pub fn hides(&self, name: &str) -> bool
        ensures { result ≡ has_match self.now.hide (name.now ∷ []) }
    {
        has_any(self.hide.get(), name)
    }

    /// The same filter, with texts of its own.
    pub fn copy(&self, alloc: Global) -> Result<Filter, AllocError>
        ensures { IfOk result (λ copy. copy ≡ self.now) }
    {
        Ok(Filter {
            focus: self.focus.clone()?,
            hide: self.hide.clone()?,
        })
    }
}

fn is_in_focus(focus: &Names, stack: &[String]) -> bool
    ensures { result ≡ (is_none focus.now || has_match focus.now (map string_bytes stack.now)) }
{
    focus.get().is_empty() || has_match(focus, stack)
}

// Whether a frame of the stack has one of the texts in its name.
fn has_match(texts: &Names, stack: &[String]) -> bool
    ensures { result ≡ has_match texts.now (map string_bytes stack.now) }
{
    any_has_any(texts.get(), stack)
}

fn any_has_any(texts: &[String], stack: &[String]) -> bool
    ensures { result ≡ list_any (λ name. list_any (λ text.
        has_text (string_bytes text) (string_bytes name)) texts.now) stack.now }
{
    stack.iter().any(|name| has_any(texts, name.as_str()))
}

fn has_any(texts: &[String], name: &str) -> bool
    ensures { result ≡ list_any (λ text. has_text (string_bytes text) name.now) texts.now }
{
    texts.iter().any(|text| contains(name, text.as_str()))
}

fn contains(name: &str, text: &str) -> bool
    ensures { result ≡ has_text text.now name.now }
{
    name.contains(text)
}
