//! A sink that keeps each stack once.

ghost use Rattle.std.specs.Prelude.{◌≡◌, length, IfOk};
ghost use Rattle.bench_rings.specs.SharedStacks.{taken_rows};

use stack_core::{Names, Sample, Sink};
use std::alloc::{AllocError, Global};
use std::collections::HashMap;
use std::rc::Rc;

/// A sample whose stack is shared.
#[derive(Drop)]
pub struct Row {
    pub source: u32,
    pub stack: Rc<Names>,
    pub weight: u64,
}

/// The samples that were taken. Those of one stack share its names.
#[derive(Drop)]
pub struct SharedStacks {
    known: HashMap<Vec<String>, Rc<Names>>,
    pub rows: Vec<Row>,
}

/// The shared names of a stack.
fn shared(
    alloc: Global,
    known: &mut HashMap<Vec<String>, Rc<Names>>,
    stack: &Names,
) -> Result<Rc<Names>, AllocError>
    ensures { IfOk result (λ shared. shared.value ≡ stack.now) }
{
    if let Some(found) = known.get(stack.get()) {
        if **found == *stack {
            return Ok(found.clone()?);
        }
    }
    let names = Rc::new(alloc, stack.clone()?)?;
    known.insert(stack.clone()?.into_plain(), names.clone()?)?;
    Ok(names)
}

impl SharedStacks {
    /// A sink that took nothing.
    pub fn new(alloc: Global) -> Self {
        SharedStacks {
            known: HashMap::new(alloc),
            rows: Vec::new(alloc),
        }
    }

    /// How many samples were taken.
    pub fn len(&self) -> usize
        ensures { result ≡ length self.now.rows.items }
    {
        self.rows.len()
    }
}

impl Sink for SharedStacks {
    ghost taken = { taken_rows };

    fn take(&mut self, alloc: Global, source: u32, sample: &Sample) -> Result<(), AllocError> {
        let stack = shared(alloc, &mut self.known, &sample.stack)?;
        self.rows.push(Row {
            source,
            stack,
            weight: sample.weight,
        })?;
        Ok(())
    }
}
