//! What the words of a command line ask for.
ghost use Rattle.std.specs.Prelude.{◌≡◌};
ghost use Rattle.command_line.specs.declared.plans.PlanFault.TheVariants.{OutOfMemory};

use crate::units::WeightUnit;
use run_options::{Format, FunctionOrder, Options, Width};
use stack_core::{Names, Text};
use std::alloc::AllocError;
use std::error::Error;
use std::fmt;

/// What a run shows of the collected samples.
#[derive(Clone, Copy, Debug, PartialEq)]
pub enum View {
    /// Merged folded text.
    Fold,
    /// The flame graph, after its snapshots.
    Graph(Width),
    /// The flame chart.
    Chart(Width),
    /// The stacks of two sources side by side.
    Pairs,
    /// The flame graph of the second of two sources, with the weights of the first.
    PairBoxes(Width),
    /// The functions by weight.
    Top(TopTable),
    /// The functions of two sources by the change of their weight.
    Diff(DiffTable),
}

/// A table of functions.
#[derive(Clone, Copy, Debug, PartialEq)]
pub struct TopTable {
    /// The weight, or the change of it, that sorts the functions, the greatest first.
    pub by: FunctionOrder,
    /// How many functions it has, if there are so many.
    pub rows: u64,
    /// It is written as a line of JSON.
    pub is_json: bool,
    /// Its weights are plain digits, whatever their unit.
    pub is_exact: bool,
}

/// A table of the changes of functions.
#[derive(Clone, Copy, Debug, PartialEq)]
pub struct DiffTable {
    /// What it has in common with a table of functions.
    pub table: TopTable,
    /// Its weights are shares of what the samples of their side weigh, and so sorted.
    pub is_share: bool,
    /// By how many hundredths of the whole the share of a function's own weight may grow, if the words say so.
    pub fail_over: Option<u64>,
}

/// What a run writes.
#[derive(Debug, Drop)]
pub enum Form {
    /// The text of the view.
    Text,
    /// A page for browsers that shows the view.
    Page(PageForm),
    /// An SVG that shows the view.
    Picture(PictureForm),
    /// The sample types of a profile, in place of a view.
    Types,
    /// The lines of the view, the flame graph, or its pages, each as soon as its last sample came.
    Live,
    /// A function and those that call it, in place of a view.
    Callers(CallTable),
    /// A function and those that it calls, in place of a view.
    Callees(CallTable),
    /// Both, the one text and then the other.
    Peek(CallTable),
}

/// A table of a function and its callers, or its callees.
#[derive(Debug, Drop)]
pub struct CallTable {
    /// The whole name of the function.
    pub name: Text,
    /// How many callers or callees it has, if there are so many.
    pub rows: u64,
    /// It is written as a line of JSON.
    pub is_json: bool,
    /// Its weights are plain digits, whatever their unit.
    pub is_exact: bool,
}

/// A page for browsers.
#[derive(Debug, Drop)]
pub struct PageForm {
    /// Its title, if the words set one.
    pub title: Option<Text>,
    /// The least weight of a box that it keeps, if the words set one.
    pub least: Option<u64>,
    /// The root is below when it opens.
    pub is_root_below: bool,
    /// It compares shares of what each profile weighs when it opens, and not weights.
    pub is_share: bool,
}

/// An SVG, as wide as its view.
#[derive(Debug, Drop)]
pub struct PictureForm {
    /// Its title, if the words set one.
    pub title: Option<Text>,
    /// The root is below.
    pub is_root_below: bool,
    /// It compares shares of what each profile weighs, and not weights.
    pub is_share: bool,
}

/// A run as the words ask for it.
#[derive(Debug, Drop)]
pub struct Plan {
    pub view: View,
    pub options: Options,
    /// The whole name of the frame at which each stack begins, if the words set one. Stacks without such a frame are left out.
    pub from: Option<Text>,
    /// The whole names of the frames that are taken out of each stack, once it begins where it is to begin.
    pub omit: Names,
    /// The file that what is written goes to, and not standard output: the one that the words set, or of `svg` one beside the first source.
    pub output: Option<Text>,
    /// The file whose place the pages of `live` take, one after the other and in the place of its lines, if the words set one.
    pub pages: Option<Text>,
    /// The format of every source. None leaves it to the name of each.
    pub format: Option<Format>,
    /// The paths of the sources, in order. None is the standard input.
    pub files: Names,
    /// What is written.
    pub form: Form,
    /// A line of a source that is ignored is a fault, and so is a source without a sample.
    pub is_strict: bool,
    /// No progress is shown on a terminal.
    pub is_quiet: bool,
    /// The unit of weights that have none of their own, if the words set one.
    pub unit: Option<WeightUnit>,
}

/// Why words are no plan.
#[derive(Debug, Drop)]
pub enum PlanFault {
    /// The words are refused: the text for standard error.
    Words(String),
    /// There was no memory.
    OutOfMemory,
    /// Help or the version was asked for: the text for standard output.
    Help(String),
}

impl fmt::Display for PlanFault {
    ghost use Rattle.std.specs.Prelude.{Some};
    ghost use Rattle.command_line.specs.Plans.{fault_text};

    ghost output = { λ fault. Some (fault_text fault) };

    fn fmt<W: fmt::Write>(&self, f: &mut fmt::Formatter<W>) -> fmt::Result {
        match self {
            PlanFault::Words(text) | PlanFault::Help(text) => f.write_str(text.as_str()),
            PlanFault::OutOfMemory => f.write_str("out of memory"),
        }
    }
}

impl Error for PlanFault {}

impl From<AllocError> for PlanFault {
    ghost from_gives = { λ _ fault. fault ≡ OutOfMemory };

    fn from(_error: AllocError) -> PlanFault {
        PlanFault::OutOfMemory
    }
}
