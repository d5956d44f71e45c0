//! Commands as a shell takes them, made of the words of a run.
ghost use Rattle.std.specs.Prelude.{◌≡◌, IfOk, length, map, option_map, string_bytes};
ghost use Rattle.std.specs.List.{filter, flat_map, list_all, list_any};
ghost use Rattle.std.specs.Str.{bytes_eq};
ghost use Rattle.flame_tool.specs.NextSteps.{asks_format, can_pipe, command_text, format_text, has_format, has_quote, is_plain, is_plain_byte, is_quotable, is_svg, is_types, pipe_word, shell_word, source_word, type_word, word_text};

use profile_messages::SampleType;
use std::alloc::{AllocError, Global};

// The command of these words, with this format behind the command's name. The word that is gone has another text in its place.
pub(crate) fn command_text(
    alloc: Global,
    words: &[String],
    gone: Option<&str>,
    stand_in: &str,
    format: &str,
) -> Result<String, AllocError>
    ensures { IfOk result (λ text. string_bytes text ≡ command_text
        (option_map (λ word. word.now) gone.entry) stand_in.now format.now (map string_bytes words.now)) }
{
    match words {
        [] => format!(in alloc; "flamecollect fold{format}"),
        [name, rest @ ..] => {
            let name = shell_word(alloc, name)?;
            let rest = words_text(alloc, rest, gone, stand_in)?;
            format!(in alloc; "flamecollect {name}{format}{rest}")
        }
    }
}

fn words_text(
    alloc: Global,
    words: &[String],
    gone: Option<&str>,
    stand_in: &str,
) -> Result<String, AllocError>
    ensures { IfOk result (λ text. string_bytes text ≡ flat_map
        (word_text (option_map (λ word. word.now) gone.entry) stand_in.now) (map string_bytes words.now)) }
{
    let mut text = String::new(alloc);
    for word in words {
        let next = word_text(alloc, word, gone, stand_in)?;
        text.push_str(next.as_str())?;
    }
    Ok(text)
}

fn word_text(
    alloc: Global,
    word: &str,
    gone: Option<&str>,
    stand_in: &str,
) -> Result<String, AllocError>
    ensures { IfOk result (λ text. string_bytes text
        ≡ word_text (option_map (λ word. word.now) gone.entry) stand_in.now word.now) }
{
    if let Some(path) = gone {
        if word == path {
            return String::from_str(alloc, stand_in);
        }
    }
    let word = shell_word(alloc, word)?;
    format!(in alloc; " {word}")
}

// A word in quotes, where a shell would make something else of it.
fn shell_word(alloc: Global, word: &str) -> Result<String, AllocError>
    ensures { IfOk result (λ text. string_bytes text ≡ shell_word word.now) }
{
    if is_plain(word) {
        String::from_str(alloc, word)
    } else {
        format!(in alloc; "'{word}'")
    }
}

fn is_plain(word: &str) -> bool
    ensures { result ≡ is_plain word.now }
{
    !word.is_empty() && are_plain(word.as_bytes())
}

fn are_plain(bytes: &[u8]) -> bool
    ensures { result ≡ list_all is_plain_byte bytes.now }
{
    bytes.iter().all(|byte| is_plain_byte(*byte))
}

fn is_plain_byte(byte: u8) -> bool
    ensures { result ≡ is_plain_byte byte }
{
    byte.is_ascii_alphanumeric() || b"%+,-./:=@_".contains(&byte)
}

// What a source is called in a command: its file, where there is one that can be said.
pub(crate) fn source_word(
    alloc: Global,
    words: &[String],
    files: &[String],
    path: &str,
) -> Result<String, AllocError>
    ensures { IfOk result (λ text. string_bytes text
        ≡ source_word (map string_bytes words.now) (map string_bytes files.now) path.now) }
{
    if files.is_empty() || !is_quotable(words) {
        String::from_str(alloc, "FILE")
    } else {
        shell_word(alloc, path)
    }
}

// The names of sample types, each behind a space.
pub(crate) fn type_words(alloc: Global, types: &[SampleType]) -> Result<String, AllocError>
    ensures { IfOk result (λ text. string_bytes text ≡ flat_map type_word types.now) }
{
    let mut text = String::new(alloc);
    for sample_type in types {
        let next = type_word(alloc, sample_type)?;
        text.push_str(next.as_str())?;
    }
    Ok(text)
}

fn type_word(alloc: Global, sample_type: &SampleType) -> Result<String, AllocError>
    ensures { IfOk result (λ text. string_bytes text ≡ type_word sample_type.now) }
{
    let word = shell_word(alloc, sample_type.name.get())?;
    format!(in alloc; " {word}")
}

// No word has the quote in which others are put.
pub(crate) fn is_quotable(words: &[String]) -> bool
    ensures { result ≡ is_quotable (map string_bytes words.now) }
{
    !any_is_quoted(words)
}

fn any_is_quoted(words: &[String]) -> bool
    ensures { result ≡ list_any (λ word. has_quote (string_bytes word)) words.now }
{
    words.iter().any(|word| has_quote(word))
}

fn has_quote(word: &str) -> bool
    ensures { result ≡ has_quote word.now }
{
    word.as_bytes().contains(&b'\'')
}

// The run can read its only source from a pipe.
pub(crate) fn can_pipe(words: &[String], files: &[String], path: &str) -> bool
    ensures { result ≡ can_pipe (map string_bytes words.now) (map string_bytes files.now) path.now }
{
    is_quotable(words)
        && (files.is_empty() || (files.len() == 1 && !is_svg(words) && count_of(words, path) == 1))
}

// How many words are this one.
fn count_of(words: &[String], path: &str) -> usize
    ensures { result ≡ length (filter (λ word. bytes_eq word path.now) (map string_bytes words.now)) }
{
    let mut count = 0;
    for word in words {
        if word.as_str() == path {
            count += 1;
        }
    }
    count
}

// The format that a profile of another name is read with, unless one is asked for.
pub(crate) fn format_text(words: &[String]) -> &'static str
    ensures { result.now ≡ format_text (map string_bytes words.now) }
{
    if is_types(words) || has_format(words) {
        ""
    } else {
        " --format pprof"
    }
}

pub(crate) fn has_format(words: &[String]) -> bool
    ensures { result ≡ has_format (map string_bytes words.now) }
{
    any_asks_format(words)
}

fn any_asks_format(words: &[String]) -> bool
    ensures { result ≡ list_any (λ word. asks_format (string_bytes word)) words.now }
{
    words.iter().any(|word| asks_format(word))
}

fn asks_format(word: &str) -> bool
    ensures { result ≡ asks_format word.now }
{
    word.as_bytes().starts_with(b"--format")
}

// What stands for the file in a command that reads a pipe, where it has to have one.
pub(crate) fn pipe_word(words: &[String]) -> &'static str
    ensures { result.now ≡ pipe_word (map string_bytes words.now) }
{
    if is_types(words) { " /dev/stdin" } else { "" }
}

// The command writes beside its file, and a pipe has no such place.
fn is_svg(words: &[String]) -> bool
    ensures { result ≡ is_svg (map string_bytes words.now) }
{
    match words {
        [] => false,
        [name, ..] => name.as_str() == "svg",
    }
}

// The command tells sample types, and has no options.
fn is_types(words: &[String]) -> bool
    ensures { result ≡ is_types (map string_bytes words.now) }
{
    match words {
        [] => false,
        [name, ..] => name.as_str() == "types",
    }
}
