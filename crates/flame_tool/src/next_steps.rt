//! What is said behind a message: what it means, and what to do.
ghost use Rattle.std.specs.Prelude.{◌≡◌, IfOk, map, string_bytes};
ghost use Rattle.flame_tool.specs.NextSteps.{fault_meaning, fault_remedy, failure_meaning, meaning, naming, next_step, reading, reading_profile, refusal_meaning, remedy_for, strict_meaning, strict_remedy, unpacking, what_to_do};

use crate::step_commands::{
    can_pipe, command_text, format_text, has_format, is_quotable, pipe_word, source_word,
    type_words,
};
use byte_io::{PieceFault, Refusal};
use profile_messages::SampleType;
use source_lists::StrictKind;
use source_views::{Failure, path_of};
use stack_core::{Listed, ReadKind};
use std::alloc::{AllocError, Global};

/// What a message tells of.
#[derive(Clone, Copy, Debug, PartialEq, Eq)]
pub enum Trouble {
    /// A source ended in a fault of this kind.
    Fault(ReadKind),
    /// A source that is read strictly has a fault of this kind.
    Strict(StrictKind),
    /// All lines of a source were ignored.
    NoSamples,
    /// The run failed. Why the system refused a source, where it did.
    Failed(Failure, Refusal),
}

/// What a look at a source shows of it.
#[derive(Debug, Drop)]
pub enum Seen {
    /// Nothing that helps.
    Nothing,
    /// It begins as a profile does.
    Profile,
    /// Its sample types.
    Types(Listed<SampleType>),
}

/// What there is to do beside what is said in words.
#[derive(Clone, Copy)]
pub(crate) enum Remedy {
    Nothing,
    Unpack,
    AskForTypes,
    ReadAsProfile,
}

/// The line behind the message of a run with these words, over these files, that tells of the source at this place, of which this is seen.
pub fn next_step(
    alloc: Global,
    words: &[String],
    files: &[String],
    source: usize,
    trouble: Trouble,
    seen: &Seen,
) -> Result<String, AllocError>
    ensures { IfOk result (λ text. string_bytes text
        ≡ next_step (map string_bytes words.now) (map string_bytes files.now) source trouble seen.now) }
{
    let means = meaning(trouble);
    let advice = what_to_do(alloc, words, files, source, remedy_for(trouble), seen)?;
    format!(in alloc; "  {means}{advice}\n")
}

fn meaning(trouble: Trouble) -> &'static str
    ensures { result.now ≡ meaning trouble }
{
    match trouble {
        Trouble::Fault(kind) => fault_meaning(kind),
        Trouble::Strict(kind) => strict_meaning(kind),
        Trouble::NoSamples => "no line of it is a stack and a count",
        Trouble::Failed(failure, refusal) => failure_meaning(failure, refusal),
    }
}

fn fault_meaning(kind: ReadKind) -> &'static str
    ensures { result.now ≡ fault_meaning kind }
{
    match kind {
        ReadKind::Compressed => "it is compressed by gzip",
        ReadKind::Truncated
        | ReadKind::BadVarint
        | ReadKind::BadFieldNumber
        | ReadKind::BadWireType
        | ReadKind::WrongKind
        | ReadKind::BadStringZero
        | ReadKind::BadString => {
            "it is no whole pprof profile: copy it again; if it is folded text, read it with --format folded"
        }
        ReadKind::ZeroId
        | ReadKind::DuplicateId
        | ReadKind::UnknownFunction
        | ReadKind::NoSampleType
        | ReadKind::ValueCount
        | ReadKind::UnknownLocation => {
            "the profile contradicts itself: have the tool that made it write it again"
        }
        ReadKind::UnknownSampleType => "it has no such sample type",
        ReadKind::NegativeWeight => {
            "a weight is below 0, as in a difference of profiles: give both profiles to compare or diff"
        }
        ReadKind::TooDeep => {
            "a stack has more than 4096 frames: have the tool that made it cut stacks"
        }
        ReadKind::TotalTooLarge => {
            "its weights add up to more than 72057594037927935: cut it into several files"
        }
        ReadKind::DecimalWeight => "a count is no whole number: multiply or round the counts",
        ReadKind::TwoColumns => {
            "a line has two counts, as compare writes them: give the profiles that were compared"
        }
    }
}

fn strict_meaning(kind: StrictKind) -> &'static str
    ensures { result.now ≡ strict_meaning kind }
{
    match kind {
        StrictKind::NoCount => "that line is no stack and a count: without --strict it is ignored",
        StrictKind::NoSamples => {
            "nothing was recorded in it: record it again; without --strict it is shown as it is"
        }
        StrictKind::Read(kind) => fault_meaning(kind),
    }
}

fn failure_meaning(failure: Failure, refusal: Refusal) -> &'static str
    ensures { result.now ≡ failure_meaning failure refusal }
{
    match failure {
        Failure::TooManyFiles => {
            "at most 64 files are read at once: fold parts of them, and then the folds"
        }
        Failure::Unreadable { source: _ } => refusal_meaning(refusal),
        Failure::TooLarge { source: _ } => {
            "at most 1073741824 bytes of a file are read: fold parts of it, and then the folds"
        }
        Failure::OutOfMemory | Failure::Output(PieceFault::OutOfMemory) => {
            "the system gave no more memory: read fewer or smaller files"
        }
        Failure::NoThread => "the system gave no more threads: read fewer files",
        Failure::Unfinished { source: _ } => "not all of it came through: run it again",
        Failure::Faults => "",
        Failure::Output(PieceFault::Output) => {
            "its reader ended, or its disk is full: lead the output elsewhere"
        }
    }
}

fn refusal_meaning(refusal: Refusal) -> &'static str
    ensures { result.now ≡ refusal_meaning refusal }
{
    match refusal {
        Refusal::Absent => "there is no such file: ls shows which there are",
        Refusal::Denied => "you may not read it: ls -l shows who may",
        Refusal::Folder => "it is a folder: give the files in it",
        Refusal::Unknown => "the system can't read it: ls -l shows what it is",
    }
}

/// What there is to do about a trouble.
pub(crate) fn remedy_for(trouble: Trouble) -> Remedy
    ensures { result ≡ remedy_for trouble }
{
    match trouble {
        Trouble::Fault(kind) => fault_remedy(kind),
        Trouble::Strict(kind) => strict_remedy(kind),
        Trouble::NoSamples => Remedy::ReadAsProfile,
        Trouble::Failed(_, _) => Remedy::Nothing,
    }
}

fn fault_remedy(kind: ReadKind) -> Remedy
    ensures { result ≡ fault_remedy kind }
{
    if kind == ReadKind::Compressed {
        Remedy::Unpack
    } else if kind == ReadKind::UnknownSampleType {
        Remedy::AskForTypes
    } else {
        Remedy::Nothing
    }
}

fn strict_remedy(kind: StrictKind) -> Remedy
    ensures { result ≡ strict_remedy kind }
{
    match kind {
        StrictKind::NoCount => Remedy::ReadAsProfile,
        StrictKind::NoSamples => Remedy::Nothing,
        StrictKind::Read(kind) => fault_remedy(kind),
    }
}

fn what_to_do(
    alloc: Global,
    words: &[String],
    files: &[String],
    source: usize,
    remedy: Remedy,
    seen: &Seen,
) -> Result<String, AllocError>
    ensures { IfOk result (λ text. string_bytes text
        ≡ what_to_do (map string_bytes words.now) (map string_bytes files.now) source remedy seen.now) }
{
    match remedy {
        Remedy::Nothing => Ok(String::new(alloc)),
        Remedy::Unpack => unpacking(alloc, words, files, path_of(files, source)),
        Remedy::AskForTypes => naming(alloc, words, files, path_of(files, source), seen),
        Remedy::ReadAsProfile => reading(alloc, words, files, seen),
    }
}

// Which types there are, or how they are asked for.
fn naming(
    alloc: Global,
    words: &[String],
    files: &[String],
    path: &str,
    seen: &Seen,
) -> Result<String, AllocError>
    ensures { IfOk result (λ text. string_bytes text
        ≡ naming (map string_bytes words.now) (map string_bytes files.now) path.now seen.now) }
{
    if let Seen::Types(types) = seen {
        let names = type_words(alloc, types.get())?;
        return format!(in alloc; ", but these:{names}");
    }
    let name = source_word(alloc, words, files, path)?;
    format!(in alloc; "; these are its types: flamecollect types {name}")
}

// How what is compressed is read.
fn unpacking(
    alloc: Global,
    words: &[String],
    files: &[String],
    path: &str,
) -> Result<String, AllocError>
    ensures { IfOk result (λ text. string_bytes text
        ≡ unpacking (map string_bytes words.now) (map string_bytes files.now) path.now) }
{
    if can_pipe(words, files, path) {
        let name = source_word(alloc, words, files, path)?;
        let instead = pipe_word(words);
        let command = command_text(alloc, words, Some(path), instead, format_text(words))?;
        format!(in alloc; ": gzip -dc {name} | {command}")
    } else {
        String::from_str(
            alloc,
            ": gzip -dc FILE > FILE.pb, and read FILE.pb in its place",
        )
    }
}

// How what is no folded text is read.
fn reading(
    alloc: Global,
    words: &[String],
    files: &[String],
    seen: &Seen,
) -> Result<String, AllocError>
    ensures { IfOk result (λ text. string_bytes text
        ≡ reading (map string_bytes words.now) (map string_bytes files.now) seen.now) }
{
    match seen {
        Seen::Nothing | Seen::Types(_) => Ok(String::new(alloc)),
        Seen::Profile => reading_profile(alloc, words, files),
    }
}

fn reading_profile(alloc: Global, words: &[String], files: &[String]) -> Result<String, AllocError>
    ensures { IfOk result (λ text. string_bytes text
        ≡ reading_profile (map string_bytes words.now) (map string_bytes files.now)) }
{
    if files.len() <= 1 && is_quotable(words) && !has_format(words) {
        let command = command_text(alloc, words, None, "", format_text(words))?;
        format!(in alloc; "; it begins as a pprof profile does: {command}")
    } else {
        String::from_str(
            alloc,
            "; it begins as a pprof profile does, and those are read with --format pprof",
        )
    }
}
