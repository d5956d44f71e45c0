//! The constant parts of a page for browsers: what stands before its data, and what stands behind them.
#![tactic(auto)]

ghost use Rattle.std.specs.Prelude.{◌≡◌};
ghost use Rattle.std.specs.List.{flat_map};
ghost use Rattle.page_source.specs.Source.{page_head, page_tail};

mod document;
mod order;
mod scripts;
mod styles;

/// What stands before the data, as texts to be joined. It ends with the start of the script
/// element that the data stand in.
pub fn head() -> &'static [&'static str]
    ensures { flat_map (λ text. text.now) result.now ≡ page_head }
{
    &order::HEAD
}

/// What stands behind the data, as texts to be joined. It begins with the end of that element.
pub fn tail() -> &'static [&'static str]
    ensures { flat_map (λ text. text.now) result.now ≡ page_tail }
{
    &order::TAIL
}
