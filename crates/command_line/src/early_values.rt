//! Values that are refused though `clap` takes them, where help is asked for behind them.
ghost use Rattle.std.specs.Prelude.{◌≡◌, is_some, map, option_map, string_bytes};
ghost use Rattle.command_line.specs.EarlyValues.{asks_for_help, gives_unknown, refuses_before_help, value_in};

use crate::units::WeightUnit;
use run_options::{Format, FunctionOrder};

/// An option whose values are words of its own.
#[derive(Clone, Copy)]
pub(crate) enum Choice {
    Format,
    Order,
    Unit,
}

impl Choice {
    /// The option, as it is shown.
    pub(crate) fn shown(self) -> &'static str {
        match self {
            Choice::Format => "--format <FORMAT>",
            Choice::Order => "--by <WEIGHT>",
            Choice::Unit => "--unit <UNIT>",
        }
    }

    /// The values that it can have.
    pub(crate) fn possible(self) -> &'static str {
        match self {
            Choice::Format => "folded, pprof",
            Choice::Order => "own, total",
            Choice::Unit => "nanoseconds, microseconds, milliseconds, seconds, bytes, samples",
        }
    }
}

/// The first value before a wish for help that its option can't have, if there is one.
pub(crate) fn refused_before_help(words: &[String]) -> Option<(Choice, &str)>
    ensures { is_some result ≡ refuses_before_help (map string_bytes words.now) }
{
    for at in 0..words.len() {
        if asks_for_help(&words[at]) {
            return None;
        }
        if let Some(refused) = unknown_in(&words[at..]) {
            return Some(refused);
        }
    }
    None
}

// The word is a wish for help where `clap` answers with help.
fn asks_for_help(word: &str) -> bool
    ensures { result ≡ asks_for_help word.now }
{
    word == "--help" || word.as_bytes().starts_with(b"-h")
}

// The value that the first word gives an option that can't have it.
fn unknown_in(words: &[String]) -> Option<(Choice, &str)>
    ensures { is_some result ≡ gives_unknown (map string_bytes words.now) }
{
    if let Some(name) = value_in(words, "--format", "--format=") {
        if Format::named(name).is_none() {
            return Some((Choice::Format, name));
        }
    }
    if let Some(name) = value_in(words, "--by", "--by=") {
        if FunctionOrder::named(name).is_none() {
            return Some((Choice::Order, name));
        }
    }
    match value_in(words, "--unit", "--unit=") {
        Some(name) if WeightUnit::named(name).is_none() => Some((Choice::Unit, name)),
        _ => None,
    }
}

// The value that the first word gives the option: the next word, or what stands behind the front.
fn value_in<'a>(words: &'a [String], option: &str, front: &str) -> Option<&'a str>
    ensures { option_map (λ value. value.now) result
        ≡ value_in option.now front.now (map string_bytes words.now) }
{
    match words {
        [] => None,
        [word, rest @ ..] => {
            if word.as_str() == option {
                rest.first().map(|next| next.as_str())
            } else {
                word.as_str().strip_prefix(front)
            }
        }
    }
}
