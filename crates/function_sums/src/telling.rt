//! What the texts of functions tell of the samples.

ghost use Rattle.std.specs.Prelude.{◌≡◌};
ghost use Rattle.function_sums.specs.Told.{nothing_told, told_of};

/// What a text of functions tells of the samples, beside the weights of the functions.
#[derive(Clone, Copy, Debug)]
pub struct Telling<'a> {
    /// What all samples weigh, with those that a filter leaves out, where that is told.
    pub whole: Option<u64>,
    /// The sample type that all weights have. It is empty where there is none.
    pub type_name: &'a str,
    /// The unit that all weights have. It is empty where there is none, and weights are plain numbers.
    pub unit: &'a str,
}

impl Telling<'_> {
    /// Nothing is told.
    pub fn nothing() -> Telling<'static>
        ensures { told_of result ≡ nothing_told }
    {
        Telling {
            whole: None,
            type_name: "",
            unit: "",
        }
    }
}
