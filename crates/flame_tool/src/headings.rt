//! What pages and pictures say beside their boxes: the title, the sources, and their unit.
ghost use Rattle.std.specs.Prelude.{◌≡◌, ◌<◌, ◌^◌, IfOk, map, slice_get, string_bytes, unwrap_or};
ghost use Rattle.merged_stacks.specs.Timeline.{samples_of, total_weight};
ghost use Rattle.page_texts.specs.Drawn.{source_of};
ghost use Rattle.source_lists.specs.Types.{type_or_none};
ghost use Rattle.flame_tool.specs.Pages.{default_title, sources_of, unit_or};
ghost use Rattle.flame_tool.specs.Pictures.{common_unit, said_with_weight};
ghost use Rattle.flame_tool.specs.checked.SaidOfSources.{said_in};

use command_line::WeightUnit;
use page_texts::Source;
use profile_messages::SampleType;
use source_lists::SourceLists;
use source_views::path_of;
use stack_core::{SourceList, Text};
use std::alloc::{AllocError, Global};

// What a page or a picture of these files is called, with the title that the words set, if there is one.
pub(crate) fn title_of(
    alloc: Global,
    asked: &Option<Text>,
    files: &[String],
) -> Result<String, AllocError>
    ensures { IfOk result (λ title. string_bytes title
        ≡ unwrap_or asked.now (default_title (map string_bytes files.now))) }
{
    match asked {
        Some(title) => String::from_str(alloc, title.get()),
        None => joined_names(alloc, files),
    }
}

// The names of the files, or those words where there is none.
fn joined_names(alloc: Global, files: &[String]) -> Result<String, AllocError>
    ensures { IfOk result (λ title. string_bytes title
        ≡ default_title (map string_bytes files.now)) }
{
    if files.is_empty() {
        String::from_str(alloc, "standard input")
    } else {
        files.join(alloc, ", ")
    }
}

// The sources of a page or a picture, one for each list.
pub(crate) fn described_sources<'a>(
    alloc: Global,
    files: &'a [String],
    unit: Option<WeightUnit>,
    types: &'a [SampleType],
    sources: &SourceLists,
) -> Result<Vec<Source<'a>>, AllocError>
    ensures { IfOk result (λ described. map source_of described.items
        ≡ sources_of unit (map string_bytes files.now) types.now (samples_of sources.now.lists)) }
{
    let lists = sources.lists();
    let mut described = Vec::with_capacity(alloc, lists.len())?;
    for at in 0..lists.len() {
        described.push(described_source(path_of(files, at), unit, types, at, &lists[at]))?;
    }
    Ok(described)
}

// A source, with its own of the types.
fn described_source<'a>(
    name: &'a str,
    asked: Option<WeightUnit>,
    types: &'a [SampleType],
    at: usize,
    list: &SourceList,
) -> Source<'a>
    requires { total_weight list.now.samples < 2 ^ 64 }
    ensures name { result.name.now ≡ name.now }
    ensures type_name { result.type_name.now
        ≡ (type_or_none (slice_get types.now at)).name }
    ensures unit { result.unit.now
        ≡ unit_or asked (type_or_none (slice_get types.now at)).unit }
    ensures weight { result.weight ≡ total_weight list.now.samples }
{
    let (type_name, unit) = match types.get(at) {
        Some(found) => (found.name.get(), found.unit.get()),
        None => ("", ""),
    };
    Source {
        name,
        type_name,
        unit: unit_or(asked, unit),
        weight: list.total() as u64,
    }
}

// The unit of a source, or that which the words give to weights without one.
fn unit_or<'a>(asked: Option<WeightUnit>, unit: &'a str) -> &'a str
    ensures { result.now ≡ unit_or asked unit.now }
{
    match asked {
        Some(other) if unit.is_empty() => other.name(),
        _ => unit,
    }
}

// What is said of a source.
#[derive(Clone, Copy, Debug)]
pub(crate) enum Said {
    Unit,
    TypeName,
}

impl Said {
    fn of<'a>(self, source: &Source<'a>) -> &'a str
        ensures { result.now ≡ said_in self (source_of source.now) }
    {
        match self {
            Said::Unit => source.unit,
            Said::TypeName => source.type_name,
        }
    }
}

// The one unit, or sample type, of the sources that have weight. It is empty where they have none, or
// different ones.
pub(crate) fn common<'a>(sources: &[Source<'a>], said: Said) -> &'a str
    ensures { result.now ≡ common_unit (said_with_weight (said_in said) (map source_of sources.now)) }
{
    let mut common = None;
    for source in sources {
        if source.weight > 0 {
            let text = said.of(source);
            match common {
                None => common = Some(text),
                Some(known) if known == text => {}
                Some(_) => return "",
            }
        }
    }
    common.unwrap_or("")
}
