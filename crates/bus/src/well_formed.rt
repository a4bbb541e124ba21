// A machine that is known to be well formed, and stays so whatever call is made on it: a loop of calls, as a run is, judges 9 once.
ghost use Rattle.std.specs.Prelude.{◌≡◌, true};
ghost use Rattle.bus.specs.Machine.{well_formed};
ghost use Rattle.bus.specs.View.{machine_of};

use crate::machine::{Call, Machine};
use crate::reply::Reply;
use crate::route::Route;

#[derive(Clone, Copy)]
pub struct WellFormed {
    pub machine: Machine,
    pub ghost is_well_formed: { well_formed (machine_of machine) ≡ true },
}

impl WellFormed {
    ghost use Rattle.bus.specs.View.{Replies};

    // Makes a call where the machine lies, and tells the reply and the machine after it.
    #[inline(always)]
    pub fn carry_out<F: FnMut(Reply, Machine)>(&mut self, call: Call, tell: &mut F)
        requires { (reply : _) (after : _) → F.pre tell.old reply after }
        ensures { (reply : _) × Replies self.old.machine call reply self.new.machine × F.step tell.old reply self.new.machine tt tell.new }
    {
        self.machine.follow(Route::of(Machine::BOARD, call), tell)
    }
}
