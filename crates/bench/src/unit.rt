// Calls of the timer unit. Written are the cycles of all of them and the counters of timers 1 and 4 after them.
use crate::{CALLS, number};
use devices::gptimer::{Elapsed, Gptimer, Timer};

pub(crate) fn play(rt: &impl Print, which: u8) {
    let total = match which {
        // Advances inside the prescaler's count; one in 65,536 ticks.
        b'a' => calls(chain(0xFFFF), |unit| unit.advance(1)),
        // Advances of some ticks, and of the longest span, with four chained timers.
        b'b' => calls(chain(3), |unit| unit.advance(1000)),
        b'c' => calls(chain(3), |unit| unit.advance(u64::MAX)),
        // Skips to the next pulse of one of four timers, and of the last of a chain of four.
        b'd' => calls(periodic(), |unit| unit.skip(u64::MAX)),
        b'e' => calls(chain(3), |unit| unit.skip(u64::MAX)),
        // Calls that only hand the unit back, to be taken off the others' time.
        _ => calls(chain(3), unmoved),
    };
    say(rt, total);
}

// Four timers that restart, with periods of 2, 3, 5 and 7 counts, each chained to the one before it; only the last has
// interrupts.
fn chain(sreload: u16) -> Gptimer {
    let mut unit = Gptimer::reset_state();
    unit.sreload = sreload;
    unit.timers = [
        timer(1, true, false),
        timer(2, true, false),
        timer(4, true, false),
        timer(6, true, true),
    ];
    unit
}

// Four timers that restart and interrupt, with periods of 200, 300, 500 and 700 ticks, none chained.
fn periodic() -> Gptimer {
    let mut unit = Gptimer::reset_state();
    unit.sreload = 3;
    unit.timers = [199, 299, 499, 699].map(|reload| timer(reload, false, true));
    unit
}

fn timer(reload: u32, ch: bool, ie: bool) -> Timer {
    Timer {
        counter: reload,
        reload,
        en: true,
        rs: true,
        ie,
        ip: false,
        ch,
    }
}

fn calls<F: Fn(Gptimer) -> Elapsed>(start: Gptimer, call: F) -> Elapsed
    requires { F.IsAlwaysCallable call }
{
    let mut total = unmoved(start);
    for _ in 0..CALLS {
        let span = call(total.unit);
        total.unit = span.unit;
        total.cycles = total.cycles.wrapping_add(span.cycles);
    }
    total
}

fn unmoved(unit: Gptimer) -> Elapsed {
    Elapsed {
        cycles: 0,
        pulses: [0; 4],
        unit,
    }
}

fn say(rt: &impl Print, total: Elapsed) {
    number(rt, total.cycles);
    number(rt, register(total.unit, Gptimer::STRIDE));
    number(rt, register(total.unit, 4 * Gptimer::STRIDE));
}

fn register(unit: Gptimer, offset: u32) -> u64 {
    unit.read(offset).value() as u64
}
