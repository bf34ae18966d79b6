// Small plans worked by hand: one theorem says that what a reader finds there is what the contracts promise.
#![tactic(auto)]

ghost use Rattle.std.specs.List.{AllByRecursion};
ghost use Rattle.worked.specs.Examples.{Holds};
ghost use Rattle.worked.specs.Table.{table};

pub mod corridor;

pub use corridor::corridor_jump;

// Every line of the table holds, by the definitions that the contracts of the code cite.
pub fn worked_plans_hold()
    ensures { AllByRecursion Holds table }
{}
