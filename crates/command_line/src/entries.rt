//! What the entries of a command ask for, beside the view.
ghost use Rattle.std.specs.Prelude.{◌≡◌, ◌++◌, IfOk, None, OnOk, codes, option_map, string_bytes};
ghost use Rattle.clap.specs.Walk.{first_of, texts};
ghost use Rattle.command_line.specs.Plans.{asked_format, asked_unit, default_options, files_of, filter_of, live_every, live_options, naming_of, number_at, options_of, pick_of, picture_path, values_at};
ghost use Rattle.command_line.specs.checked.Entries.{IsFlagAt, IsNumberAt, entries_of};
ghost use Rattle.command_line.specs.declared.arguments.TheConstants.{MOST_BETWEEN_SNAPSHOTS};
ghost use Rattle.run_options.specs.declared.ring_sizes.TheConstants.{LARGEST_RING};

use crate::units::WeightUnit;
use clap::ArgMatches;
use run_options::{Filter, Format, Naming, Options, Pick, RingSize};
use stack_core::{Names, Text};
use std::alloc::{AllocError, Global};

// The size of a ring unless the words set it.
const DEFAULT_RING: u32 = 1_024;

// After how many samples `live` draws the next graph unless the words set it.
const DEFAULT_LIVE_EVERY: u64 = 1_000;

// The options where no word sets one.
pub(crate) fn default_options(alloc: Global) -> Options
    ensures { result ≡ default_options }
{
    Options {
        ring: RingSize::of(DEFAULT_RING).unwrap(),
        pick: Pick::Preferred,
        naming: Naming::Plain,
        filter: Filter::everything(alloc),
        every: None,
    }
}

pub(crate) fn options(alloc: Global, entries: &ArgMatches<'_>) -> Result<Options, AllocError>
    requires ring { IsNumberAt (codes "ring") LARGEST_RING (entries_of entries.now) }
    requires every { IsNumberAt (codes "every") MOST_BETWEEN_SNAPSHOTS (entries_of entries.now) }
    requires lines { IsFlagAt (codes "lines") (entries_of entries.now) }
    ensures { IfOk result (λ options. options ≡ options_of (entries_of entries.now)) }
{
    Ok(Options {
        ring: ring(entries),
        pick: pick(alloc, entries)?,
        naming: naming(entries),
        filter: filter(alloc, entries)?,
        every: every(entries),
    })
}

// The options of `live`.
pub(crate) fn live_options(alloc: Global, entries: &ArgMatches<'_>) -> Options
    requires ring { IsNumberAt (codes "ring") LARGEST_RING (entries_of entries.now) }
    requires every { IsNumberAt (codes "every") MOST_BETWEEN_SNAPSHOTS (entries_of entries.now) }
    ensures { result ≡ live_options (entries_of entries.now) }
{
    let ring = ring(entries);
    Options {
        ring,
        every: Some(live_every(entries)),
        ..default_options(alloc)
    }
}

fn live_every(entries: &ArgMatches<'_>) -> u64
    requires { IsNumberAt (codes "every") MOST_BETWEEN_SNAPSHOTS (entries_of entries.now) }
    ensures { result ≡ live_every (entries_of entries.now) }
{
    every(entries).unwrap_or(DEFAULT_LIVE_EVERY)
}

fn ring(entries: &ArgMatches<'_>) -> RingSize
    requires { IsNumberAt (codes "ring") LARGEST_RING (entries_of entries.now) }
    ensures { result ≡ (options_of (entries_of entries.now)).ring }
{
    let items = entries.get_one::<u32>("ring").unwrap_or(DEFAULT_RING);
    RingSize::of(items).unwrap()
}

fn pick(alloc: Global, entries: &ArgMatches<'_>) -> Result<Pick, AllocError>
    ensures { IfOk result (λ pick. pick ≡ pick_of (entries_of entries.now)) }
{
    match entries.get_str("type") {
        Some(name) => Ok(Pick::Named(Text::from_str(alloc, name)?)),
        None => Ok(Pick::Preferred),
    }
}

fn naming(entries: &ArgMatches<'_>) -> Naming
    requires { IsFlagAt (codes "lines") (entries_of entries.now) }
    ensures { result ≡ naming_of (entries_of entries.now) }
{
    if entries.get_flag("lines") {
        Naming::Lines
    } else {
        Naming::Plain
    }
}

fn filter(alloc: Global, entries: &ArgMatches<'_>) -> Result<Filter, AllocError>
    ensures { IfOk result (λ filter. filter ≡ filter_of (entries_of entries.now)) }
{
    Ok(Filter {
        focus: values(alloc, entries, "focus")?,
        hide: values(alloc, entries, "hide")?,
    })
}

// All values of an argument.
pub(crate) fn values(alloc: Global, entries: &ArgMatches<'_>, id: &str) -> Result<Names, AllocError>
    ensures { IfOk result (λ values. values ≡ values_at id.now (entries_of entries.now)) }
{
    let mut values = Vec::new(alloc);
    add_values(&mut values, entries, id)?;
    Names::from_strs(alloc, values.as_slice())
}

fn every(entries: &ArgMatches<'_>) -> Option<u64>
    requires { IsNumberAt (codes "every") MOST_BETWEEN_SNAPSHOTS (entries_of entries.now) }
    ensures { result ≡ number_at (codes "every") (entries_of entries.now) }
{
    entries.get_one::<u32>("every").map(u64::from)
}

// The first value of an argument, if it has one.
pub(crate) fn first(
    alloc: Global,
    entries: &ArgMatches<'_>,
    id: &str,
) -> Result<Option<Text>, AllocError>
    ensures { IfOk result (λ value. value ≡ first_of id.now (entries_of entries.now)) }
{
    match entries.get_str(id) {
        Some(value) => Ok(Some(Text::from_str(alloc, value)?)),
        None => Ok(None),
    }
}

// The file that the picture of `svg` goes to: the one that the words set, else one beside the first source.
pub(crate) fn picture_path(
    alloc: Global,
    entries: &ArgMatches<'_>,
) -> Result<Option<Text>, AllocError>
    ensures { IfOk result (λ path. path ≡ picture_path (entries_of entries.now)) }
{
    if entries.contains_id("output") {
        first(alloc, entries, "output")
    } else {
        beside_first(alloc, entries)
    }
}

// The picture beside the first source, if that is no input.
fn beside_first(alloc: Global, entries: &ArgMatches<'_>) -> Result<Option<Text>, AllocError>
    ensures { IfOk result (λ path. path
        ≡ option_map (λ file. file ++ codes ".svg") (first_of (codes "file") (entries_of entries.now))) }
{
    match entries.get_str("file") {
        Some(file) => Ok(Some(Text::of(picture_beside(alloc, file)?))),
        None => Ok(None),
    }
}

fn picture_beside(alloc: Global, file: &str) -> Result<String, AllocError>
    ensures { IfOk result (λ path. string_bytes path ≡ file.now ++ codes ".svg") }
{
    format!(in alloc; "{file}.svg")
}

// The options of a picture, which has no snapshots.
pub(crate) fn still_options(alloc: Global, entries: &ArgMatches<'_>) -> Result<Options, AllocError>
    requires ring { IsNumberAt (codes "ring") LARGEST_RING (entries_of entries.now) }
    requires every { IsNumberAt (codes "every") MOST_BETWEEN_SNAPSHOTS (entries_of entries.now) }
    requires lines { IsFlagAt (codes "lines") (entries_of entries.now) }
    ensures { IfOk result (λ options. options ≡ record (options_of (entries_of entries.now)) { every = None }) }
{
    Ok(Options {
        every: None,
        ..options(alloc, entries)?
    })
}

// The format that the words set.
pub(crate) fn format(entries: &ArgMatches<'_>) -> Option<Format>
    ensures { result ≡ asked_format (entries_of entries.now) }
{
    match entries.get_str("format") {
        Some(name) => Format::named(name),
        None => None,
    }
}

// The unit that the words set.
pub(crate) fn unit(entries: &ArgMatches<'_>) -> Option<WeightUnit>
    ensures { result ≡ asked_unit (entries_of entries.now) }
{
    match entries.get_str("unit") {
        Some(name) => WeightUnit::named(name),
        None => None,
    }
}

// A command has either FILEs or BEFORE and AFTER.
pub(crate) fn files(alloc: Global, entries: &ArgMatches<'_>) -> Result<Names, AllocError>
    ensures { IfOk result (λ files. files ≡ files_of (entries_of entries.now)) }
{
    let mut paths = Vec::new(alloc);
    add_values(&mut paths, entries, "file")?;
    add_values(&mut paths, entries, "before")?;
    add_values(&mut paths, entries, "after")?;
    Names::from_strs(alloc, paths.as_slice())
}

fn add_values<'a>(
    paths: &mut Vec<&'a str>,
    entries: &ArgMatches<'a>,
    id: &str,
) -> Result<(), AllocError>
    ensures { OnOk result (texts paths.new.items
        ≡ texts paths.old.items ++ values_at id.now (entries_of entries.now)) }
{
    if let Some(values) = entries.get_strs(id) {
        paths.extend_from_slice(values)?;
    }
    Ok(())
}
