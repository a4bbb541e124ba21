// Holds advances and skips of the timer unit against single cycles of it: on many units, and after each of some cycles,
// `advance` and `skip` from the start must answer what as many advances of one cycle come to. It writes how many units were
// compared and how many answers differed.
use crate::text::say;
use devices::gptimer::{Elapsed, Gptimer, Timer};

// The sets of units. SMALL has every setting of flags: each pair of settings of timers 1 and 2 occurs 60 times, with the
// rest different each time.
const SMALL: u32 = 61_440;

const SMALL_CYCLES: u32 = 24;
// CHAINS has four timers that restart, each chained to the one before it: every setting of IE, and every mixture of
// counters and reloads 0 and 1.
const CHAINS: u32 = 4_096;

const CHAINS_CYCLES: u32 = 80;
// FAR has some units of SMALL again, with the prescaler's longest period.
const FAR: u32 = 64;

const FAR_CYCLES: u32 = 140_000;

const FAR_STRIDE: u32 = 947;

// The slow run so far: what was passed up to now, and up to the first pulse.
#[derive(Clone, Copy)]
struct Slow {
    advance: Elapsed,
    skip: Elapsed,
}

pub(crate) fn compare(rt: &impl Print) {
    let differences = compare_set(SMALL, small, 1, SMALL_CYCLES);
    say(
        rt,
        format_args!("  small machines {SMALL}, differences {differences}\n"),
    );
    let differences = compare_set(CHAINS, chain, 1, CHAINS_CYCLES);
    say(
        rt,
        format_args!("  chains {CHAINS}, differences {differences}\n"),
    );
    let differences = compare_set(FAR, far, FAR_CYCLES, FAR_CYCLES);
    say(
        rt,
        format_args!("  long spans {FAR}, differences {differences}\n"),
    );
}

// Compares the first `units` units of a set at each cycle from `from` to `to`. How many answers differed.
fn compare_set<F: Fn(u32) -> Gptimer>(units: u32, unit: F, from: u32, to: u32) -> u64
    requires { F.IsAlwaysCallable unit }
{
    let mut differences: u64 = 0;
    for i in 0..units {
        differences = differences.wrapping_add(compare_unit(unit(i), from, to));
    }
    differences
}

fn compare_unit(start: Gptimer, from: u32, to: u32) -> u64 {
    let mut differences: u64 = 0;
    let mut slow = Slow::still(start);
    for passed in 1..=to {
        slow = slow.next();
        if from <= passed {
            differences = differences.wrapping_add(slow.differing(start, passed as u64));
        }
    }
    differences
}

impl Slow {
    fn still(unit: Gptimer) -> Self {
        let none = Elapsed {
            cycles: 0,
            pulses: [0; 4],
            unit,
        };
        Slow {
            advance: none,
            skip: none,
        }
    }

    // One cycle more. The skip stays where it had a pulse.
    fn next(self) -> Self {
        let has_pulsed = self.skip.pulses != [0; 4];
        Slow {
            advance: cycle(self.advance),
            skip: if has_pulsed {
                self.skip
            } else {
                cycle(self.skip)
            },
        }
    }

    // How many of the two calls differ from the slow run.
    fn differing(self, start: Gptimer, passed: u64) -> u64 {
        (start.advance(passed) != self.advance) as u64 + (start.skip(passed) != self.skip) as u64
    }
}

fn cycle(before: Elapsed) -> Elapsed {
    let one = before.unit.advance(1);
    Elapsed {
        cycles: before.cycles.wrapping_add(1),
        pulses: std::array::from_fn(|i| before.pulses[i].wrapping_add(one.pulses[i])),
        unit: one.unit,
    }
}

// Small counters and reloads, 0 among them.
fn small(i: u32) -> Gptimer {
    let one = timer(i % 32, i % 3, i % 7 % 4);
    let two = timer(i / 32 % 32, i % 5 % 4, i % 11 % 4);
    let three = timer(i % 37 % 32, i % 19 % 3, i % 23 % 4);
    let four = timer(i % 41 % 32, i % 29 % 3, i % 31 % 4);
    Gptimer {
        scaler: (i % 13 % 4) as u16,
        sreload: (i % 17 % 4) as u16,
        df: i % 2 == 1,
        timers: [one, two, three, four],
    }
}

fn far(i: u32) -> Gptimer {
    let mut unit = small(i % FAR * FAR_STRIDE);
    unit.sreload = 0xFFFF;
    unit
}

fn chain(i: u32) -> Gptimer {
    let one = link(i % 8);
    let two = link(i / 8 % 8);
    let three = link(i / 64 % 8);
    let four = link(i / 512 % 8);
    Gptimer {
        scaler: 0,
        sreload: 1,
        df: false,
        timers: [one, two, three, four],
    }
}

// EN, RS and CH, and by the bits of n: IE, a counter and a reload of 1, not 0.
fn link(n: u32) -> Timer {
    timer(19 + n % 2 * 4, n / 2 % 2, n / 4 % 2)
}

// A timer with the flags EN, RS, IE, IP and CH in the bits of a number.
fn timer(flags: u32, counter: u32, reload: u32) -> Timer {
    Timer {
        counter,
        reload,
        en: flags % 2 == 1,
        rs: flags / 2 % 2 == 1,
        ie: flags / 4 % 2 == 1,
        ip: flags / 8 % 2 == 1,
        ch: flags / 16 % 2 == 1,
    }
}
