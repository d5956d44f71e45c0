//! Runs over sources that a test states, and looks at their views.
ghost use Rattle.std.specs.Prelude.{◌≡◌, ◌≤◌, IfOk, IfSome, IsTrue, length};
ghost use Rattle.flame_tool.specs.Plans.{IsComparison};

use super::stated::{Listed, has_lists_of};
use crate::tests::holds;
use flame_tool::{Filter, Format, Options, Source, View, Views, render, views};
use profile_tables::{Naming, Pick};
use ring_collect::{CollectFault, RingSize};
use stack_core::{Gate, OpenGate};
use std::alloc::{AllocError, Global};
use std::process::Abort;
use std::sync::{Arc, Wait};
use std::test::Fail;
use std::thread::Threads;

/// Bytes, and how often they stand.
pub type Part = (&'static [u8], u32);

/// A source: how its bytes are read, and the parts of which they are.
pub type Given = (Format, &'static [Part]);

fn add_parts(bytes: &mut Vec<u8>, parts: &[Part]) -> Result<(), AllocError> {
    for (part, times) in parts {
        for _ in 0..*times {
            bytes.extend_from_slice(part)?;
        }
    }
    Ok(())
}

fn bytes_of(alloc: Global, parts: &[Part]) -> Result<Vec<u8>, AllocError> {
    let mut bytes = Vec::new(alloc);
    add_parts(&mut bytes, parts)?;
    Ok(bytes)
}

fn add_sources(alloc: Global, sources: &mut Vec<Source>, all: &[Given]) -> Result<(), AllocError> {
    for (format, parts) in all {
        let bytes = bytes_of(alloc, parts)?;
        sources.push(Source {
            format: *format,
            bytes,
        })?;
    }
    Ok(())
}

/// The sources, of which a run has no more than 64.
fn sources_of(alloc: Global, all: &[Given]) -> Result<Vec<Source>, CollectFault>
    ensures { IfOk result (λ sources. length sources.items ≤ 64) }
{
    let mut sources = Vec::new(alloc);
    add_sources(alloc, &mut sources, all)?;
    if sources.len() > 64 {
        return Err(CollectFault::NoThread);
    }
    Ok(sources)
}

fn shared<G: Drop>(alloc: Global, gate: G) -> Result<Arc<G>, AllocError> {
    Ok(Arc::new(alloc, gate)?)
}

/// The views of sources under a gate.
fn gated<T: Threads + Wait + Copy + Send + 'static, G: Gate + Send + Sync + Drop + 'static>(
    rt: &T,
    alloc: Global,
    given: &[Given],
    options: &Options,
    gate: G,
) -> Result<Views, CollectFault>
    requires { IfSome options.now.every (λ every. 1 ≤ every) }
{
    let gate = shared(alloc, gate)?;
    let sources = sources_of(alloc, given)?;
    views(rt, alloc, sources, options, gate)
}

/// Rings of this many items, and nothing else chosen.
pub fn plain(alloc: Global, ring: u32, every: Option<u64>) -> Options
    requires { (1 ≤ ring) × (ring ≤ 65536) }
    ensures { result.every ≡ every }
{
    Options {
        ring: RingSize::of(ring).unwrap(),
        pick: Pick::Preferred,
        naming: Naming::Plain,
        filter: Filter::everything(alloc),
        every,
    }
}

/// Runs over sources under a gate, and looks at the views.
pub fn is_seen<
    T: Threads + Wait + Copy + Send + 'static,
    G: Gate + Send + Sync + Drop + 'static,
    F: Fn(&Views) -> Result<bool, CollectFault>,
>(
    rt: &T,
    alloc: Global,
    given: &[Given],
    options: &Options,
    gate: G,
    look: &F,
) -> Result<bool, CollectFault>
    requires every { IfSome options.now.every (λ every. 1 ≤ every) }
    requires look { F.IsAlwaysCallable look.now }
{
    let views = gated(rt, alloc, given, options, gate)?;
    look(&views)
}

/// A look at the views of sources finds what it is to find, with rings of this many items, where no gate stops a source.
pub fn see<
    T: Threads + Wait + Abort + AllocGlobal + Copy + Send + 'static,
    F: Fn(&Views) -> Result<bool, CollectFault>,
>(rt: &T, given: &[Given], ring: u32, every: Option<u64>, look: &F) -> Result<(), Fail>
    requires ring { (1 ≤ ring) × (ring ≤ 65536) }
    requires every { IfSome every (λ every. 1 ≤ every) }
    requires look { F.IsAlwaysCallable look.now }
{
    let options = plain(rt.alloc(), ring, every);
    holds(rt, is_seen(rt, rt.alloc(), given, &options, OpenGate, look))
}

/// Runs over sources under a gate, whose lists are these and whose samples weigh so much.
pub fn is_read<T: Threads + Wait + Copy + Send + 'static, G: Gate + Send + Sync + Drop + 'static>(
    rt: &T,
    alloc: Global,
    given: &[Given],
    options: &Options,
    gate: G,
    wanted: (&[Listed], u128),
) -> Result<bool, CollectFault>
    requires { IfSome options.now.every (λ every. 1 ≤ every) }
{
    let (lists, total) = wanted;
    let views = gated(rt, alloc, given, options, gate)?;
    Ok(has_lists_of(&views, lists, total))
}

const IN_FRONT: &[u8] = b"in front\n";

/// A comparison needs two lists.
fn can_show(views: &Views, view: View) -> bool
    ensures { IsTrue result → IsComparison view → length views.now.lists ≡ 2 }
{
    match view {
        View::Pairs | View::PairBoxes(_) | View::Diff(_) => views.lists().len() == 2,
        View::Fold | View::Graph(_) | View::Chart(_) | View::Top(_) => true,
    }
}

/// The text stands behind what stood there.
fn stands_behind(out: &[u8], text: &[u8]) -> bool {
    out.len() == IN_FRONT.len() + text.len() && out.starts_with(IN_FRONT) && out.ends_with(text)
}

/// The view is rendered as this text, behind what stood there.
fn shows(
    alloc: Global,
    views: &Views,
    view: View,
    text: &str,
    out: &mut Vec<u8>,
) -> Result<bool, AllocError>
    requires { IsComparison view → length views.now.lists ≡ 2 }
{
    out.extend_from_slice(IN_FRONT)?;
    render(alloc, views, view, out)?;
    Ok(stands_behind(out.as_slice(), text.as_bytes()))
}

/// Each of these views is rendered as its text.
pub fn shows_each(
    alloc: Global,
    views: &Views,
    all: &[(View, &str)],
) -> Result<bool, CollectFault> {
    for (view, text) in all {
        if !can_show(views, *view) || !shows(alloc, views, *view, text, &mut Vec::new(alloc))? {
            return Ok(false);
        }
    }
    Ok(true)
}

/// Runs over sources, with rings of this many items, and each of these views is rendered as its text.
pub fn is_shown<T: Threads + Wait + Copy + Send + 'static>(
    rt: &T,
    alloc: Global,
    given: &[Given],
    options: &Options,
    all: &[(View, &str)],
) -> Result<bool, CollectFault>
    requires { IfSome options.now.every (λ every. 1 ≤ every) }
{
    let views = gated(rt, alloc, given, options, OpenGate)?;
    shows_each(alloc, &views, all)
}
