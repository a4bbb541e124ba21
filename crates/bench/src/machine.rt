// Calls of the machine. Written are the sum of their numbers, of the values that they read and of the cycles that they
// passed, and then what is read in a port and in the timer unit after them.
ghost use Rattle.std.specs.Prelude.{◌≤◌};

use crate::{CALLS, number};
use bus::machine::{Answer, Machine};
use devices::apbuart::Apbuart;

pub(crate) fn play(rt: &impl Print, which: u8) {
    match which {
        // A read of a port's CONTROL, of a timer's control register, and of no window.
        b'f' => calls(
            rt,
            |machine, turn| machine.read(port(turn) + Apbuart::CONTROL, 4),
        ),
        b'g' => calls(rt, |machine, turn| {
            machine.read(0x8000_0318 + (turn % 4) as u32 * 0x10, 4)
        }),
        b'h' => calls(rt, |machine, turn| {
            machine.read(0x8000_0400 + (turn % 4) as u32 * 0x10, 4)
        }),
        // A write to a port's SCALER.
        b'i' => calls(rt, |machine, turn| {
            machine.write(port(turn) + Apbuart::SCALER, 4, (turn % 256) as u32)
        }),
        // A byte that is refused.
        b'j' => calls(rt, |machine, _| machine.offer(5, 0x41)),
        // An advance inside the prescaler's count, a short skip, and an advance of some ticks.
        b'k' => calls(rt, |machine, _| machine.advance(1)),
        b'l' => calls(rt, |machine, _| machine.skip(10)),
        b'o' => calls(rt, |machine, _| machine.advance(1_000_000)),
        // An acknowledge, with no line that waits.
        b'p' => calls(rt, |machine, _| machine.acknowledge()),
        // A call that only hands the machine back, to be taken off the others' time.
        _ => calls(rt, |machine, _| unmoved(machine)),
    }
}

// Each call is told how many come after it.
fn calls<F: Fn(Machine, u64) -> Answer>(rt: &impl Print, call: F)
    requires { F.IsAlwaysCallable call }
{
    let mut machine = Machine::reset_state();
    let mut sum: u64 = 0;
    for turn in (0..CALLS).rev() {
        let answer = one(&call, machine, turn);
        machine = answer.machine;
        sum = sum.wrapping_add(answer.refusal as u64);
        sum = sum.wrapping_add(answer.value as u64);
        sum = sum.wrapping_add(answer.cycles);
    }
    say(rt, sum, machine);
}

// One call. It is not inlined, so that the machine is handed over by value in every kind of call, and the compiler leaves out none
// of those that only hand it back.
#[inline(never)]
fn one<F: Fn(Machine, u64) -> Answer>(call: &F, machine: Machine, turn: u64) -> Answer
    requires { F.IsAlwaysCallable call.now }
{
    call(machine, turn)
}

// The window of port 1, 2, 3, 4 or 5.
fn port(turn: u64) -> u32
    ensures { result ≤ 0x8010_0500 }
{
    0x8010_0100 + (turn % 5) as u32 * 0x100
}

fn unmoved(machine: Machine) -> Answer {
    Answer {
        refusal: 0,
        emitted: None,
        levels: 0,
        value: 0,
        cycles: 0,
        pulses: [0; 4],
        machine,
    }
}

fn say(rt: &impl Print, sum: u64, machine: Machine) {
    number(rt, sum);
    number(rt, word(machine, port(0) + Apbuart::SCALER));
    number(rt, word(machine, 0x8000_0300));
}

fn word(machine: Machine, address: u32) -> u64 {
    machine.read(address, 4).value as u64
}
