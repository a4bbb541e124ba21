// The timer unit, GRLIB's GPTIMER: a prescaler and four timers, as a state by value. Its types leave no state ill formed, so
// that it refuses only accesses of offsets without a register. Each public call answers what `specs/Gptimer.antt` and
// `specs/Gptimer/Span.antt` define, whatever the unit and the arguments. Time is not walked: a span past the next tick is worked
// out by divisions (`specs/Gptimer/Direct.antt`), and a skip from the time of the next pulse.
ghost use Rattle.std.specs.Prelude.{◌≡◌, suc, ◌<◌, ◌≤◌, min, false, if◌then◌else◌};
ghost use Rattle.devices.specs.Word.{bit};
ghost use Rattle.devices.specs.Answer.View.{answer_of};
ghost use Rattle.devices.specs.Gptimer as gpt;
ghost use Rattle.devices.specs.Gptimer.Direct as direct;
ghost use Rattle.devices.specs.Gptimer.Span as spans;

use crate::answer;
use crate::refusal::Refusal;

#[derive(Clone, Copy, Debug, PartialEq, Eq)]
pub struct Timer {
    pub counter: u32,
    pub reload: u32,
    // The control register: enable, restart, interrupt enable, interrupt pending, chain.
    pub en: bool,
    pub rs: bool,
    pub ie: bool,
    pub ip: bool,
    pub ch: bool,
}

#[derive(Clone, Copy, Debug, PartialEq, Eq)]
pub struct Gptimer {
    // The prescaler's value and reload.
    pub scaler: u16,
    pub sreload: u16,
    // CONFIG, disable timer freeze: stored, without effect.
    pub df: bool,
    // Timers 1 to 4.
    pub timers: [Timer; 4],
}

// What an access answers.
pub type Answer = answer::Answer<Gptimer>;

// What a span of time answers.
#[derive(Clone, Copy, Debug, PartialEq, Eq)]
pub struct Elapsed {
    // The cycles passed.
    pub cycles: u64,
    // The pulses of each timer in them, timer 1 first.
    pub pulses: [u64; 4],
    // The unit after them.
    pub unit: Gptimer,
}

// How time is to pass.
#[derive(Clone, Copy, Debug, PartialEq, Eq)]
pub enum Span {
    // By so many cycles.
    Cycles(u64),
    // Until a cycle has a pulse, by so many at most.
    ToPulse(u64),
}

// A span that ends before the prescaler's next tick: nothing changes but the prescaler's value, and no timer has a pulse.
#[derive(Clone, Copy, Debug, PartialEq, Eq)]
pub struct Short {
    pub cycles: u64,
    // The prescaler's value after them.
    pub scaler: u16,
}

// What some ticks do to a timer.
#[derive(Clone, Copy, Debug, PartialEq, Eq)]
struct Served {
    underflows: u64,
    pulses: u64,
    timer: Timer,
}

// A countdown that has ended and started again: how often, and where it stands.
#[derive(Clone, Copy, Debug, PartialEq, Eq)]
struct Restarted {
    ends: u64,
    value: u32,
}

impl Span {
    // The most cycles that it can have.
    fn most(self) -> u64
        ensures { result ≡ spans.most self }
    {
        match self {
            Span::Cycles(cycles) => cycles,
            Span::ToPulse(limit) => limit,
        }
    }
}

impl Timer {
    // Offsets from the timer's own.
    pub const COUNTER: u32 = 0x0;

    pub const RELOAD: u32 = 0x4;

    pub const CONTROL: u32 = 0x8;

    // Control, as masks. Enable.
    pub const EN: u32 = 0x01;
    // Restart: an underflow takes the reload.
    pub const RS: u32 = 0x02;
    // Load: a written 1 copies the reload to the counter.
    pub const LD: u32 = 0x04;
    // Interrupt enable.
    pub const IE: u32 = 0x08;
    // Interrupt pending: a written 1 clears it.
    pub const IP: u32 = 0x10;
    // Chain: the timer counts the underflows of the one before it; timer 1 ignores it.
    pub const CH: u32 = 0x20;

    // Where an underflow without restart leaves the counter.
    pub const AT_REST: u32 = 0xFFFF_FFFF;

    // Timer 4 at reset: its counter and reload, and its control, EN and IE.
    pub const RESET_COUNTER_4: u32 = 0xFFFF;

    pub const RESET_CONTROL_4: u32 = 0x09;

    // Timers 1 to 3 at reset.
    pub(crate) fn reset_state() -> Self
        ensures { result ≡ gpt.zero_timer }
    {
        Timer {
            counter: 0,
            reload: 0,
            en: false,
            rs: false,
            ie: false,
            ip: false,
            ch: false,
        }
    }

    // Timer 4 at reset counts down once.
    pub(crate) fn reset_state_4() -> Self
        ensures { result ≡ gpt.reset_timer_4 }
    {
        Timer {
            counter: Self::RESET_COUNTER_4,
            reload: Self::RESET_COUNTER_4,
            en: Self::RESET_CONTROL_4 / Self::EN % 2 == 1,
            rs: Self::RESET_CONTROL_4 / Self::RS % 2 == 1,
            ie: Self::RESET_CONTROL_4 / Self::IE % 2 == 1,
            ip: Self::RESET_CONTROL_4 / Self::IP % 2 == 1,
            ch: Self::RESET_CONTROL_4 / Self::CH % 2 == 1,
        }
    }

    fn read_control(self) -> u32
        ensures { result ≡ gpt.read_control self }
    {
        u32::from(self.en) * Self::EN
            + u32::from(self.rs) * Self::RS
            + u32::from(self.ie) * Self::IE
            + u32::from(self.ip) * Self::IP
            + u32::from(self.ch) * Self::CH
    }

    fn write_control(mut self, value: u32) -> Self
        ensures { result ≡ gpt.write_control value self }
    {
        self.en = value / Self::EN % 2 == 1;
        self.rs = value / Self::RS % 2 == 1;
        self.ie = value / Self::IE % 2 == 1;
        self.ch = value / Self::CH % 2 == 1;
        self.clear_pending(value).load_counter(value)
    }

    // A written 1 clears IP, a 0 keeps it.
    fn clear_pending(mut self, value: u32) -> Self
        ensures { result ≡ gpt.with_ip (if bit gpt.IP value then false else self.ip) self }
    {
        if value / Self::IP % 2 == 1 {
            self.ip = false;
        }
        self
    }

    // A written 1 copies the reload to the counter.
    fn load_counter(mut self, value: u32) -> Self
        ensures { result ≡ gpt.with_counter (if bit gpt.LD value then self.reload else self.counter) self }
    {
        if value / Self::LD % 2 == 1 {
            self.counter = self.reload;
        }
        self
    }

    // The timer after some ticks, in which the one before it underflowed `before` times.
    fn serve(self, ticks: u64, before: u64) -> Served
        ensures { result ≡ direct.served_timer ticks before self }
    {
        self.count(if self.ch { before } else { ticks })
    }

    // The timer after some counts.
    #[tactic(auto, using(crate::proofs::gptimer::Counting::counting))]
    fn count(mut self, counts: u64) -> Served
        ensures { result ≡ direct.counted_timer counts self }
    {
        if !self.en {
            return Served {
                underflows: 0,
                pulses: 0,
                timer: self,
            };
        }
        if counts <= self.counter as u64 {
            self.counter = self.counter.wrapping_sub(counts as u32);
            return Served {
                underflows: 0,
                pulses: 0,
                timer: self,
            };
        }
        self.ip = true;
        if self.rs {
            let restarted = restart(self.counter, self.reload, counts);
            self.counter = restarted.value;
            return Served {
                underflows: restarted.ends,
                pulses: self.pulses(restarted.ends),
                timer: self,
            };
        }
        self.counter = Self::AT_REST;
        self.en = false;
        Served {
            underflows: 1,
            pulses: self.pulses(1),
            timer: self,
        }
    }

    // The count at which the timer underflows for the j-th time; u64::MAX where it does not, or not before then.
    #[tactic(auto, unfolding(crate::specs::Gptimer::Direct::due, crate::specs::Gptimer::Direct::once_at))]
    fn due(self, j: u64) -> u64
        requires { 0 < j }
        ensures { result ≡ direct.due j self }
    {
        if !self.en {
            return u64::MAX;
        }
        if self.rs {
            return ends_at(self.counter, self.reload, j);
        }
        if j == 1 {
            self.counter as u64 + 1
        } else {
            u64::MAX
        }
    }

    // An underflow has a pulse where interrupts are enabled.
    fn pulses(self, underflows: u64) -> u64
        ensures { result ≡ direct.underflow_pulses self underflows }
    {
        if self.ie { underflows } else { 0 }
    }
}

impl Gptimer {
    // Register offsets; timer n stands at n times STRIDE.
    pub const SCALER: u32 = 0x00;

    pub const SRELOAD: u32 = 0x04;

    pub const CONFIG: u32 = 0x08;

    pub const STRIDE: u32 = 0x10;

    // CONFIG's fixed part: separate interrupts, the first of them 8, and four timers.
    pub const CONFIG_FIXED: u32 = 0x144;
    // CONFIG, disable timer freeze, as a mask.
    pub const DF: u32 = 0x200;

    pub const RESET_SCALER: u16 = 0xFFFF;

    pub fn reset_state() -> Self
        ensures { result ≡ gpt.reset_state }
    {
        let idle = Timer::reset_state();
        Gptimer {
            scaler: Self::RESET_SCALER,
            sreload: Self::RESET_SCALER,
            df: false,
            timers: [idle, idle, idle, Timer::reset_state_4()],
        }
    }

    #[tactic(auto, unfolding(crate::specs::Gptimer::read))]
    pub fn read(self, offset: u32) -> Answer
        ensures { answer_of result ≡ gpt.read offset self }
    {
        match offset {
            Self::SCALER => Answer::accepted(self.scaler as u32, self),
            Self::SRELOAD => Answer::accepted(self.sreload as u32, self),
            Self::CONFIG => Answer::accepted(
                Self::CONFIG_FIXED + u32::from(self.df) * Self::DF,
                self,
            ),
            _ => match (offset / Self::STRIDE) as usize {
                n @ 1..=4 => self.read_timer(n, offset % Self::STRIDE),
                _ => Answer::refused(Refusal::NoRegister, self),
            },
        }
    }

    #[tactic(auto, unfolding(crate::specs::Gptimer::write))]
    pub fn write(mut self, offset: u32, value: u32) -> Answer
        ensures { answer_of result ≡ gpt.write offset value self }
    {
        match offset {
            Self::SCALER => self.scaler = (value % 0x10000) as u16,
            Self::SRELOAD => self.sreload = (value % 0x10000) as u16,
            Self::CONFIG => self.df = value / Self::DF % 2 == 1,
            _ => {
                return match (offset / Self::STRIDE) as usize {
                    n @ 1..=4 => self.write_timer(n, offset % Self::STRIDE, value),
                    _ => Answer::refused(Refusal::NoRegister, self),
                };
            }
        }
        Answer::accepted(0, self)
    }

    // A register of timer n, by its offset from the timer's first, its counter.
    fn read_timer(self, n: usize, offset: u32) -> Answer
        requires { (0 < n) × (n ≤ 4) }
        ensures { answer_of result ≡ gpt.read_timer n offset self }
    {
        let timer = self.timers[n - 1];
        match offset {
            Timer::COUNTER => Answer::accepted(timer.counter, self),
            Timer::RELOAD => Answer::accepted(timer.reload, self),
            Timer::CONTROL => Answer::accepted(timer.read_control(), self),
            _ => Answer::refused(Refusal::NoRegister, self),
        }
    }

    fn write_timer(mut self, n: usize, offset: u32, value: u32) -> Answer
        requires { (0 < n) × (n ≤ 4) }
        ensures { answer_of result ≡ gpt.write_timer n offset value self }
    {
        match offset {
            Timer::COUNTER => self.timers[n - 1].counter = value,
            Timer::RELOAD => self.timers[n - 1].reload = value,
            Timer::CONTROL => self.timers[n - 1] = self.timers[n - 1].write_control(value),
            // Nothing is stored where there is no register.
            _ => return Answer::refused(Refusal::NoRegister, self),
        }
        Answer::accepted(0, self)
    }

    // Cycles pass.
    #[tactic(auto, using(crate::proofs::gptimer::Spans::told))]
    pub fn advance(mut self, cycles: u64) -> Elapsed
        ensures { result ≡ gpt.advance cycles self }
    {
        let Some(short) = self.before_tick(Span::Cycles(cycles)) else {
            return self.pass_tick(cycles);
        };
        self.scaler = short.scaler;
        Elapsed {
            cycles: short.cycles,
            pulses: [0; 4],
            unit: self,
        }
    }

    // Whether a span ends before the prescaler's next tick, by one comparison and one subtraction: no division, no look at the
    // timers.
    #[tactic(auto, using(crate::proofs::gptimer::Spans::tells))]
    pub fn before_tick(self, span: Span) -> Option<Short>
        ensures { spans.Tells span self result }
    {
        let cycles = span.most();
        let scaler = self.scaler as u64;
        if cycles <= scaler {
            return Some(Short {
                cycles,
                scaler: (scaler - cycles) as u16,
            });
        }
        None
    }

    // Cycles pass, and there is a tick in them.
    #[tactic(auto, using(crate::proofs::gptimer::Spans::past))]
    fn pass_tick(mut self, cycles: u64) -> Elapsed
        requires { self.scaler < cycles }
        ensures { result ≡ gpt.advance cycles self }
    {
        let restarted = restart(self.scaler as u32, self.sreload as u32, cycles);
        self.scaler = restarted.value as u16;
        self.tick(cycles, restarted.ends)
    }

    // The unit after some ticks, and the pulses in them; `cycles` is only passed on.
    fn tick(mut self, cycles: u64, ticks: u64) -> Elapsed
        ensures { result ≡ direct.ticked cycles ticks self }
    {
        // Timer 1 ignores CH.
        let first = self.timers[0].count(ticks);
        let second = self.timers[1].serve(ticks, first.underflows);
        let third = self.timers[2].serve(ticks, second.underflows);
        let fourth = self.timers[3].serve(ticks, third.underflows);
        self.timers = [first.timer, second.timer, third.timer, fourth.timer];
        Elapsed {
            cycles,
            pulses: [first.pulses, second.pulses, third.pulses, fourth.pulses],
            unit: self,
        }
    }

    // Cycles pass until one has a pulse, or to the limit.
    pub fn skip(self, limit: u64) -> Elapsed
        ensures { result ≡ gpt.skip limit self }
    {
        self.pass(Span::ToPulse(limit))
    }

    // An advance or a skip, as a value. `advance` is called in one place, so that the compiler inlines it.
    pub fn pass(self, span: Span) -> Elapsed
        ensures { result ≡ spans.pass span self }
    {
        self.advance(self.cycles_in(span))
    }

    // The cycles that a span comes to.
    #[tactic(auto, using(crate::proofs::gptimer::Spans::comes_to))]
    fn cycles_in(self, span: Span) -> u64
        ensures { gpt.advance result self ≡ spans.pass span self }
    {
        match span {
            Span::Cycles(cycles) => cycles,
            Span::ToPulse(limit) => self.next_pulse().min(limit),
        }
    }

    // The cycle of the next pulse. Times count from 1; here, above and below u64::MAX stands for one that never comes, or not before then.
    // (No Option: the laws of these functions speak of that number, which is also the longest limit, and of minima.)
    #[tactic(auto, using(crate::proofs::gptimer::Spans::pulses_at))]
    fn next_pulse(self) -> u64
        ensures { result ≡ direct.tick_cycle self (direct.first_tick self.timers) }
    {
        ends_at(self.scaler as u32, self.sreload as u32, self.first_tick())
    }

    // The tick of the next pulse.
    fn first_tick(self) -> u64
        ensures { result ≡ direct.first_tick self.timers }
    {
        let first = self.pulse_tick(0).min(self.pulse_tick(1));
        let second = self.pulse_tick(2).min(self.pulse_tick(3));
        first.min(second)
    }

    // The tick of the first pulse of the timer at a place: timer n stands at place n - 1.
    fn pulse_tick(self, place: usize) -> u64
        requires { place < 4 }
        ensures { result ≡ direct.pulse_tick self.timers place }
    {
        if self.timers[place].ie {
            self.due_tick(place + 1, 1)
        } else {
            u64::MAX
        }
    }

    // The tick at which timer n underflows for the j-th time.
    fn due_tick(self, n: usize, j: u64) -> u64
        requires { (n ≤ 4) × (0 < j) }
        ensures { result ≡ direct.due_tick self.timers n j }
    {
        let mut due = j;
        // By places: with `iter().rev()` over the timers the proof of the call stayed open.
        for place in (0..n).rev() {
            let timer = self.timers[place];
            due = timer.due(due);
            if !timer.ch {
                return due;
            }
        }
        due
    }
}

// The prescaler, and a timer with RS, is a countdown that stands at `value` and starts again from `reload`: it ends at the count
// that finds it at 0, its (value + 1)-th, and then at every (reload + 1)-th. What it comes to in more counts than `value`:
#[tactic(auto, using(crate::proofs::gptimer::Countdown::restarts))]
fn restart(value: u32, reload: u32, counts: u64) -> Restarted
    requires { value < counts }
    ensures ends { result.ends ≡ suc (direct.periods value reload counts) }
    ensures stands { result.value ≡ direct.standing value reload counts }
{
    let past = counts - (value as u64 + 1);
    let period = reload as u64 + 1;
    Restarted {
        ends: 1 + past / period,
        value: reload.wrapping_sub((past % period) as u32),
    }
}

// The count at which such a countdown ends for the j-th time, u64::MAX where that is beyond 64 bits.
#[tactic(auto, using(crate::proofs::gptimer::Countdown::ends))]
fn ends_at(value: u32, reload: u32, j: u64) -> u64
    requires { 0 < j }
    ensures { result ≡ direct.ends_at value reload j }
{
    let first = value as u64 + 1;
    // The most frequent question, answered without a product.
    if j == 1 {
        return first;
    }
    let period = reload as u64 + 1;
    first.saturating_add(period.saturating_mul(j - 1))
}
