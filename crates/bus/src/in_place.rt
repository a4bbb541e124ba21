// A machine that stays where it lies: a bench lends it for each call.
ghost use Rattle.std.specs.Prelude.{◌≡◌};
ghost use Rattle.bus.specs.View.{Conforms};

use crate::machine::{Answer, Call, Machine};

// A read, a write or any other call: the machine is copied out, the call is made by value, and the machine after it is stored.
pub fn call(machine: &mut Machine, call: Call) -> Answer
    ensures { Conforms machine.old call result × (machine.new ≡ result.machine) }
{
    let answer = (*machine).call(call);
    *machine = answer.machine;
    answer
}
