//! The names of lists that are put together: a name that was told before keeps its number.

ghost use Rattle.std.specs.Prelude.{◌≡◌, ◌++◌, ◌∷◌, [], None, IsTrue, IfOk, OnOk};
ghost use Rattle.source_lists.specs.checked.Joining.{AreFound, IsFound, TellsMore};

use sample_tables::{NumberCache, hash_of_name};
use stack_core::{Ledger, SourceList, Text};
use std::alloc::{AllocError, Global};

/// Whether a ledger was told this name under this number.
fn has_name(ledger: &Ledger, number: usize, name: &str) -> bool
    ensures { IsTrue result → IsFound [] ledger.now.told number name.now }
{
    number < ledger.told() && ledger.told_name(number) == name
}

/// The number of a name in a ledger: a known one, or else the next, under which it is told now.
fn number_of_name(
    alloc: Global,
    ledger: &mut Ledger,
    known: &mut NumberCache,
    name: &str,
) -> Result<usize, AllocError>
    requires { ledger.old.close ≡ None }
    ensures found { IfOk result (λ number. IsFound [] ledger.new.told number name.now) }
    ensures tells { OnOk result (TellsMore ledger.old ledger.new) }
{
    let hash = hash_of_name(name);
    if let Some(number) = known.find(hash, |number| has_name(ledger, number, name)) {
        return Ok(number);
    }
    let number = ledger.told();
    ledger.tell(Text::from_str(alloc, name)?)?;
    known.remember(hash, number);
    Ok(number)
}

/// Appends a number. One past the 2^32nd is refused as memory is.
pub(crate) fn append_number(numbers: &mut Vec<u32>, number: usize) -> Result<(), AllocError>
    ensures { OnOk result (numbers.new.items ≡ numbers.old.items ++ number ∷ []) }
{
    numbers.push(u32::try_from(number).map_err(|_| AllocError)?)?;
    Ok(())
}

/// The numbers of the names of a list in a ledger, which is told those that it is not known to have.
pub(crate) fn numbers_of_names(
    alloc: Global,
    ledger: &mut Ledger,
    known: &mut NumberCache,
    list: &SourceList,
) -> Result<Vec<u32>, AllocError>
    requires { ledger.old.close ≡ None }
    ensures found { IfOk result (λ numbers.
        AreFound [] ledger.new.told numbers.items list.now.told) }
    ensures tells { OnOk result (TellsMore ledger.old ledger.new) }
{
    let count = list.told();
    let mut numbers = Vec::with_capacity(alloc, count)?;
    for at in 0..count {
        let number = number_of_name(alloc, ledger, known, list.told_name(at))?;
        append_number(&mut numbers, number)?;
    }
    Ok(numbers)
}
