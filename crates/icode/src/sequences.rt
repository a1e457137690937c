// Laws of action lists: what arithmetic does in each lane, and what lists do one after another.

ghost use Rattle.icode.specs.Sequences.Laws.{ArithmeticIsByLane, ListsFollow, MulsAreByLane, OperationsAreByLane, WeightedIsByLane};

/// Arithmetic does in each lane what it does in that lane alone, and is counted once for each lane.
pub fn arithmetic_is_by_lane()
    ensures lanes { ArithmeticIsByLane }
    ensures follow { ListsFollow }
    ensures operations { OperationsAreByLane }
    ensures muls { MulsAreByLane }
    ensures weighted { WeightedIsByLane }
{}
