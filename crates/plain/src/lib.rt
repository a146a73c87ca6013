// The plain book's laws, each as the contract of a function.
#![tactic(auto)]

ghost use Rattle.plain.specs.Promises.{FillsAreTheOneList, CallPriceIsBest, CallLeavesNothingCrossed, FillsAreFew, ReachEndsAtTheLimit, AlwaysSound, NeverCrossedWhileDealing, AlwaysWithinCapacity, EveryOrderAddsUp, HeldIsBoughtAndResting};

pub fn fills_are_the_one_list()
    ensures { FillsAreTheOneList }
{}

pub fn call_price_is_best()
    ensures { CallPriceIsBest }
{}

pub fn call_leaves_nothing_crossed()
    ensures { CallLeavesNothingCrossed }
{}

pub fn fills_are_few()
    ensures { FillsAreFew }
{}

pub fn reach_ends_at_the_limit()
    ensures { ReachEndsAtTheLimit }
{}

pub fn book_is_always_sound()
    ensures { AlwaysSound }
{}

pub fn never_crossed_while_dealing()
    ensures { NeverCrossedWhileDealing }
{}

pub fn capacity_is_kept()
    ensures { AlwaysWithinCapacity }
{}

pub fn every_order_adds_up()
    ensures { EveryOrderAddsUp }
{}

pub fn held_is_bought_and_resting()
    ensures { HeldIsBoughtAndResting }
{}
