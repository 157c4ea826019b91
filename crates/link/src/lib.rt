// Demand 3, the claim about whole lists of calls, and pass totals over it: no code, only the functions that carry them.
#![tactic(auto)]

ghost use Rattle.link.specs.Demand3.{Demand3};
ghost use Rattle.link.specs.Demand3Totals.{Demand3Totals};
ghost use Rattle.link.specs.WithoutLong.{Demand3WithoutLong, Demand3TotalsWithoutLong, Demand3WithoutBuffers};

// Demand 3 holds.
fn demand_3()
    ensures { Demand3 }
{}

// Where demand 3 claims something, the pass totals are the claim's.
fn demand_3_totals()
    ensures { Demand3Totals }
{}

// Where no long message is offered, demand 3 is that of document 01, without a condition.
fn demand_3_without_long()
    ensures { Demand3WithoutLong }
{}

// And so are the pass totals over it.
fn demand_3_totals_without_long()
    ensures { Demand3TotalsWithoutLong }
{}

// Where neither end has a long buffer, the messages are handed over in the regions, as document 01 has it.
fn demand_3_without_buffers()
    ensures { Demand3WithoutBuffers }
{}
