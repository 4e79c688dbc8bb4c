//! What follows from the definitions, each law the contract of a function that does nothing.

ghost use Rattle.qmp_codec.specs.Commands.{Act, Cmd};
ghost use Rattle.qmp_asks.specs.CommandAsks.{asks_of};
ghost use Rattle.qmp_asks.specs.Order.{Ascends, action_asks};

/// The asks of each command stand in the order of their refusals, and so do those of each action.
#[tactic(auto, using(crate::proofs::OrderLemmas::command_asks_ascend, crate::proofs::OrderLemmas::action_asks_ascend))]
pub fn asks_ascend()
    ensures commands { (c : Cmd) → Ascends (asks_of c) }
    ensures actions { (a : Act) → Ascends (action_asks a) }
{}
