// What the rules promise: theorems on every run of job calls, each the contract of a function that does nothing.
#![tactic(auto)]

ghost use Rattle.guarantee.specs.RuleFacts.{NoOutcomeDependsOnDefault, EveryCallCanBePerformed, CommitBoundIsLargest};
ghost use Rattle.guarantee.specs.Histories.{HistoriesAreTrue};
ghost use Rattle.guarantee.specs.Opacity.{EveryRunIsOpaque, EveryMomentIsOpaque};
ghost use Rattle.guarantee.specs.Soundness.{EveryRunIsSound};
ghost use Rattle.guarantee.specs.Promise.{PromiseIsKept};
ghost use Rattle.guarantee.specs.Permissiveness.{RegisterIsPermissive, AcceptedCallsHaveAnOrder, EveryListCanBePerformed};
ghost use Rattle.guarantee.specs.Examples.{ExamplesStand};

// What stands in the rules for a value that a table is too short for is never seen.
pub fn no_outcome_depends_on_the_default<V>()
    ensures { NoOutcomeDependsOnDefault V }
{}

// Whatever the tables hold, each call can be performed, and leaves a head on which the next one can be.
pub fn every_call_can_be_performed<V>()
    ensures { EveryCallCanBePerformed V }
{}

// The low bound of a commit is the largest of the numbers that it must not be under.
pub fn commit_bound_is_the_largest<V>()
    ensures { CommitBoundIsLargest V }
{}

// What a run's history leaves out altered nothing, and what it has was done.
pub fn histories_are_true<V>()
    ensures { HistoriesAreTrue V }
{}

// Whatever calls are made on a register just started, its jobs could have been done one after the other, in the day book's order.
pub fn every_run_is_opaque<V>()
    ensures { EveryRunIsOpaque V }
{}

// And so at every moment until then.
pub fn every_moment_is_opaque<V>()
    ensures { EveryMomentIsOpaque V }
{}

// No call ever damages a register that was just started: its tables fit, its head counts its jobs, and no call is answered that a record is damaged.
pub fn every_run_is_sound<V>()
    ensures { EveryRunIsSound V }
{}

// A well made list of calls has a serialization order of its jobs if and only if some script has the register accept every call of it.
pub fn register_is_permissive<V>()
    ensures { RegisterIsPermissive V }
{}

// Whatever the chooser, a list of calls that were all accepted has a serialization order.
pub fn accepted_calls_have_an_order<V>()
    ensures { AcceptedCallsHaveAnOrder V }
{}

// Whatever the list of calls and the chooser, the whole list can be performed on a register just started.
pub fn every_list_can_be_performed<V>()
    ensures { EveryListCanBePerformed V }
{}

// Of two small lists of calls on a register just started, one is never accepted whole, and the other is with a script.
pub fn examples_stand()
    ensures { ExamplesStand }
{}

// The whole promise at once, as the call that makes a list of calls carries it.
pub fn promise_is_kept<V>()
    ensures { PromiseIsKept V }
{}
