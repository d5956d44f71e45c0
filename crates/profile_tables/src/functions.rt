//! The functions of a profile.

ghost use Rattle.std.specs.Prelude.{◌≡◌, ℕ, List, Some, IfOk, map, string_bytes};
ghost use Rattle.std.specs.List.{slice_get};
ghost use Rattle.profile_messages.specs.Tables.{string_at as string_of};
ghost use Rattle.profile_tables.specs.Naming.{function_name as name_of_function};
ghost use Rattle.profile_messages.specs.SeenProfile.{texts_of};
ghost use Rattle.profile_tables.specs.checked.Functions.{name_or_unknown, text_index as index_of_text, AreMade};

use crate::naming::function_name;
use profile_messages::{Content, Function, string_at};
use std::alloc::{AllocError, Global};
use std::collections::BTreeMap;

/// The names that strings make.
#[derive(Drop)]
struct MadeNames {
    names: Vec<String>,
    /// The place of each name by its string's index.
    places: BTreeMap<u64, usize>,
}

/// The names of a profile's functions. A string that names many functions is made a name once.
#[derive(Drop)]
pub(crate) struct FunctionNames {
    pub(crate) names: Vec<String>,
    /// The place of each function's name, by the function's place.
    pub(crate) places: Vec<usize>,
}

/// The index of a function's name, where that is not empty, else of its system name (profile.proto, message Function).
fn text_index(strings: &[Content<'_>], function: &Function) -> u64
    ensures { result ≡ index_of_text (texts_of strings.now) function.now }
{
    if string_at(strings, function.name).is_empty() {
        function.system_name
    } else {
        function.name
    }
}

/// The place of the name that a string makes.
fn name_index(
    alloc: Global,
    strings: &[Content<'_>],
    made: &mut MadeNames,
    index: u64,
) -> Result<usize, AllocError>
    requires { AreMade (texts_of strings.now) made.old }
    ensures made { IfOk result (λ _. AreMade (texts_of strings.now) made.new) }
    ensures place { IfOk result (λ place.
        slice_get (map string_bytes made.new.names.items) place
        ≡ Some (name_or_unknown (string_of (texts_of strings.now) index))) }
    ensures kept { IfOk result (λ _. (place : ℕ) (name : List ℕ) →
        slice_get (map string_bytes made.old.names.items) place ≡ Some name →
        slice_get (map string_bytes made.new.names.items) place ≡ Some name) }
{
    if let Some(place) = made.places.get(&index) {
        return Ok(*place);
    }
    let place = made.names.len();
    made.names
        .push(function_name(alloc, string_at(strings, index))?)?;
    made.places.insert(index, place)?;
    Ok(place)
}

/// The names of functions.
pub(crate) fn function_names(
    alloc: Global,
    strings: &[Content<'_>],
    functions: &[Function],
) -> Result<FunctionNames, AllocError>
    ensures { IfOk result (λ named.
        map (slice_get (map string_bytes named.names.items)) named.places.items
        ≡ map (λ function. Some (name_of_function (texts_of strings.now) function))
        functions.now) }
{
    let mut made = MadeNames {
        names: Vec::new(alloc),
        places: BTreeMap::new(alloc),
    };
    let mut places = Vec::with_capacity(alloc, functions.len())?;
    for function in functions {
        let index = text_index(strings, function);
        places.push(name_index(alloc, strings, &mut made, index)?)?;
    }
    let MadeNames { names, places: _ } = made;
    Ok(FunctionNames { names, places })
}
