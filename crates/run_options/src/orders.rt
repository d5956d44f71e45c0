//! By which weight functions are listed.
ghost use Rattle.std.specs.Prelude.{◌≡◌};
ghost use Rattle.run_options.specs.Orders.{named_order};

/// By which weight functions are listed.
#[derive(Clone, Copy, Debug, PartialEq, Eq)]
pub enum FunctionOrder {
    /// By what they weigh themselves.
    Own,
    /// By what they weigh with all that they call.
    Total,
}

impl FunctionOrder {
    /// The order of that name, `own` or `total`.
    pub fn named(name: &str) -> Option<FunctionOrder>
        ensures { result ≡ named_order name.now }
    {
        match name {
            "own" => Some(FunctionOrder::Own),
            "total" => Some(FunctionOrder::Total),
            _ => None,
        }
    }
}
