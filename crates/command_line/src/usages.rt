//! The texts of refusals: each with the usage of its command, and where a file stands in the place of one, with what to write instead.
ghost use Rattle.std.specs.Prelude.{◌≡◌, IfOk};
ghost use Rattle.clap.specs.Words.{kind_of};

use crate::commands::{Subcommand, command_line, command_named};
use clap::error::ErrorKind;
use clap::{Command, Error};
use std::alloc::{AllocError, Global};

// What stands in the texts of `clap` before the usage, and before what comes last.
const USAGE: &str = "\n\nUsage: ";

const LAST: &str = "\n\nFor more information, ";

// An error of that kind, with the usage of the command of that name, or of the program where there is none.
pub(crate) fn error_of(
    alloc: Global,
    name: &str,
    kind: ErrorKind,
    message: &str,
) -> Result<Error, AllocError>
    ensures { IfOk result (λ error. kind_of error ≡ kind) }
{
    match named_line(alloc, name) {
        Ok(mut line) => line.error(kind, message),
        Err(refused) => Err(refused),
    }
}

// The command of that name alone, called as it is entered, or the whole command line.
fn named_line<'a>(alloc: Global, name: &str) -> Result<Command<'a>, AllocError> {
    match command_named(name) {
        Some(command) => called(alloc, command, name),
        None => command_line(alloc),
    }
}

fn called<'a>(alloc: Global, command: &Subcommand, name: &str) -> Result<Command<'a>, AllocError> {
    let words = format!(in alloc; "flamecollect {name}")?;
    command.built(alloc)?.bin_name(words.as_str())
}

// The text of an error of that kind, with what it lacks.
pub(crate) fn completed(
    alloc: Global,
    name: &str,
    kind: ErrorKind,
    text: String,
) -> Result<String, AllocError> {
    if kind == ErrorKind::InvalidSubcommand && is_like_a_path(name) {
        with_tip(alloc, name, text)
    } else if text.as_str().contains(USAGE) {
        Ok(text)
    } else {
        with_usage(alloc, name, text)
    }
}

// No command has such a name.
fn is_like_a_path(name: &str) -> bool {
    name.bytes().any(|byte| byte == b'.' || byte == b'/')
}

// The text with the usage of the command.
fn with_usage(alloc: Global, name: &str, text: String) -> Result<String, AllocError> {
    let usage = usage_of(alloc, name)?;
    match text.as_str().rsplit_once(LAST) {
        Some((before, behind)) => format!(in alloc; "{before}\n\n{usage}{LAST}{behind}"),
        None => Ok(text),
    }
}

fn usage_of(alloc: Global, name: &str) -> Result<String, AllocError> {
    match named_line(alloc, name) {
        Ok(mut line) => line.render_usage(),
        Err(refused) => Err(refused),
    }
}

// The text with the command that shows the file.
fn with_tip(alloc: Global, path: &str, text: String) -> Result<String, AllocError> {
    match text.as_str().rsplit_once(USAGE) {
        Some((before, behind)) => format!(in alloc;
            "{before}\n\n  tip: a file stands behind a command: flamecollect top {path}{USAGE}{behind}"
        ),
        None => Ok(text),
    }
}
