// The cases that the specification marks [P], proved together as one table: no code, only the function that carries the table.
#![tactic(auto)]

ghost use Rattle.joints.specs.Joints.{Joints};

// Each case of the table holds.
fn joints()
    ensures { Joints }
{}
