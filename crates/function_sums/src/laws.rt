//! What the definitions of the tables, and of their texts, mean.

ghost use Rattle.std.specs.Prelude.{◌≡◌, ◌≤◌, ◌+◌, ◌*◌, ◌<◌, ◌^◌, ℕ, List, All, filter, length, sum_by, IfSome, Option};
ghost use Rattle.std.specs.Str.{bytes_eq};
ghost use Rattle.sample_tables.specs.declared.samples.Sample.{Sample};
ghost use Rattle.function_sums.specs.declared.changes.ChangeOrder.{ChangeOrder};
ghost use Rattle.function_sums.specs.declared.changes.FunctionChange.{FunctionChange};
ghost use Rattle.function_sums.specs.declared.sums.FunctionSum.{FunctionSum};
ghost use Rattle.run_options.specs.declared.orders.FunctionOrder.{FunctionOrder as Order};
ghost use Rattle.function_sums.specs.declared.call_sides.CallSide.{CallSide};
ghost use Rattle.function_sums.specs.declared.call_sides.CallSide.TheVariants.{Callees};
ghost use Rattle.function_sums.specs.Calls.{calls_of, times_shared, AreCalls};
ghost use Rattle.function_sums.specs.FunctionChanges.{AreFunctionChanges};
ghost use Rattle.function_sums.specs.FunctionList.{changes_of, functions_of};
ghost use Rattle.function_sums.specs.FunctionSums.{own_of, total_of, AreFunctionSums};
ghost use Rattle.view_texts.specs.JsonLaws.{IsJsonLine};
ghost use Rattle.function_sums.specs.ChangeJson.{changes_data, changes_line};
ghost use Rattle.function_sums.specs.FunctionJson.{functions_data, functions_line};
ghost use Rattle.function_sums.specs.Told.{Told};

pub use view_texts::laws::percentages_are_rounded;

/// Samples have one table in each order: its definition leaves no choice.
pub fn tables_are_one()
    ensures { (by : Order) (samples : List Sample) (one other : List FunctionSum)
        → AreFunctionSums by samples one → AreFunctionSums by samples other → one ≡ other }
{}

/// The list of the functions is this table, and no other list is.
pub fn functions_are_listed()
    ensures listed { (by : Order) (samples : List Sample)
        → AreFunctionSums by samples (functions_of by samples) }
    ensures alone { (by : Order) (samples : List Sample) (sums : List FunctionSum)
        → AreFunctionSums by samples sums → sums ≡ functions_of by samples }
{}

/// The list of the callers, or of the callees, is their table, and no other list is.
pub fn calls_are_listed()
    ensures listed { (side : CallSide) (name : List ℕ) (samples : List Sample)
        → AreCalls side name samples (calls_of side name samples) }
    ensures alone { (side : CallSide) (name : List ℕ) (samples : List Sample) (calls : List FunctionSum)
        → AreCalls side name samples calls → calls ≡ calls_of side name samples }
{}

/// A function's own weight and the totals of its callees are the weights of the samples, each as often
/// as it has such callees, and once more where it ends in the function. Where the function stands in no
/// stack twice they are its total.
pub fn callees_share_the_total()
    ensures often { (name : List ℕ) (samples : List Sample) (calls : List FunctionSum)
        → AreCalls Callees name samples calls
        → own_of name samples + sum_by (λ sum. sum.total) calls
        ≡ sum_by (λ sample. times_shared name calls sample.stack * sample.weight) samples }
    ensures once { (name : List ℕ) (samples : List Sample) (calls : List FunctionSum)
        → AreCalls Callees name samples calls
        → All (λ sample. length (filter (bytes_eq name) sample.stack) ≤ 1) samples
        → own_of name samples + sum_by (λ sum. sum.total) calls ≡ total_of name samples }
{}

/// The list of the changes is their table, and no other list is.
pub fn changes_are_listed()
    ensures listed { (by : ChangeOrder) (before after : List Sample)
        → AreFunctionChanges by before after (changes_of by before after) }
    ensures alone { (by : ChangeOrder) (before after : List Sample) (changes : List FunctionChange)
        → AreFunctionChanges by before after changes → changes ≡ changes_of by before after }
{}

/// The line of JSON is the text of one value, which reads back from it, and a line feed that is its
/// only one. The keys of each object rise. It holds where the numbers have 64 bits.
pub fn function_lines_read_back()
    ensures { (side : Option CallSide) (told : Told) (whole : ℕ) (sums : List FunctionSum) → whole < 2 ^ 64
        → IfSome told.whole (λ weight. weight < 2 ^ 64)
        → All (λ sum. (sum.own < 2 ^ 64) × (sum.total < 2 ^ 64)) sums
        → IsJsonLine (functions_line side told whole sums) (functions_data side told whole sums) }
{}

/// The same of the line of JSON of changes.
pub fn change_lines_read_back()
    ensures { (unit : List ℕ) (before after : ℕ) (changes : List FunctionChange) → before < 2 ^ 64 → after < 2 ^ 64
        → All (λ change. (change.own.before < 2 ^ 64) × (change.own.after < 2 ^ 64)) changes
        → All (λ change. (change.total.before < 2 ^ 64) × (change.total.after < 2 ^ 64)) changes
        → IsJsonLine (changes_line unit before after changes) (changes_data unit before after changes) }
{}
