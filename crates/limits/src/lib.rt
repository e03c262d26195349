// The limits that hold of every program that is read.
#![tactic(auto)]

ghost use Rattle.limits.specs.Limits.{LimitsHold};

// Whatever source is taken, what was read of it is within the limits.
pub fn limits_hold() -> u8
    ensures { LimitsHold }
{
    0
}
