// What the sender's calls mean, as queues of waiting copies: no code, only definitions, theorems, and six functions that carry those of document 02,
// asks 4 to 6.
#![tactic(auto)]

ghost use Rattle.queues.specs.AddedZeros.{ZerosCounted};
ghost use Rattle.queues.specs.EnableBits.{EnableInForce, PlacedEnabled};
ghost use Rattle.queues.specs.PacketsLeft.{LeftCounts, LeftStands};
ghost use Rattle.queues.specs.Stands.{InRangeStands};

// The enable bits in force are those of the last system packet sent.
fn enable_in_force()
    ensures { EnableInForce }
{}

// Each frame placed has a priority that the enable bits in force in its block enable.
fn placed_enabled()
    ensures { PlacedEnabled }
{}

// The packets still to go, in the record, are those of which copies wait in the queue.
fn left_counts()
    ensures { LeftCounts }
{}

// So they are in every record that stands for queues.
fn left_stands()
    ensures { LeftStands }
{}

// The answers to block calls are those by the system packet and the packets that the block rule takes from the queues, with the zeros added to their frames.
fn zeros_counted()
    ensures { ZerosCounted }
{}

// Every record in range stands for queues.
fn in_range_stands()
    ensures { InRangeStands }
{}
