// The machine, six serial ports, a timer unit and an interrupt controller, as a state by value, and the calls on it. Each public
// call answers what `specs/Machine.antt` and `specs/Call.antt` define, whatever the machine and the arguments.
ghost use Rattle.std.specs.Prelude.{◌≡◌, ◌<◌, true, cond, get_or, map};
ghost use Rattle.devices.specs.Answer.View.{number_in, value_in};
ghost use Rattle.devices.specs.Apbuart.View.{port_of};
ghost use Rattle.devices.specs.Irqmp as irq;
ghost use Rattle.bus.specs.Machine as bus;
ghost use Rattle.bus.specs.Board.{gr712rc};
ghost use Rattle.bus.specs.Time as time;
ghost use Rattle.bus.specs.Route.{port_exists, replied, value_answer};
ghost use Rattle.bus.specs.View.{machine_of, Conforms, Replies};
ghost use Rattle.bus.specs.Private.{CarriesOut};
ghost use Rattle.bus.specs.declared.machine.Call.TheVariants as calls;
ghost use Rattle.bus.specs.declared.route.Route.TheVariants as to;

use crate::board::{Board, Lines};
use crate::refusal::NOT_REFUSED;
use crate::reply::Reply;
use crate::route::{Core, Route};
use devices::apbuart;
use devices::apbuart::Apbuart;
use devices::gptimer::{Gptimer, Span};
use devices::irqmp::Irqmp;
use devices::refusal::Refusal;

#[derive(Clone, Copy)]
pub struct Machine {
    pub ports: [Apbuart; Machine::PORTS],
    pub unit: Gptimer,
    pub irqmp: Irqmp,
}

// A call on a machine.
#[derive(Clone, Copy, Debug, PartialEq, Eq)]
pub enum Call {
    Read { address: u32, size: u8 },
    Write { address: u32, size: u8, value: u32 },
    Offer { port: u8, byte: u8 },
    Advance(u64),
    Skip(u64),
    Reset,
    // The processor takes an interrupt line.
    Acknowledge,
    // A script record that is malformed or cut short: a call that is always refused.
    Malformed,
}

// What a call answers. What its kind does not produce is 0.
#[derive(Clone, Copy)]
pub struct Answer {
    // The refusal number, as in `Reply`; refusal::NOT_REFUSED where the call was not refused.
    pub refusal: u8,
    // The byte that the call emitted.
    pub emitted: Option<u8>,
    // The line levels after the call, bit p for port p.
    pub levels: u8,
    // The value read, or the line taken.
    pub value: u32,
    // The cycles passed, and the pulses of each timer in them, timer 1 first.
    pub cycles: u64,
    pub pulses: [u64; 4],
    // The machine after the call.
    pub machine: Machine,
}

impl Machine {
    // Ports 0 to 5.
    pub const PORTS: usize = 6;

    pub const BOARD: Board = Board::GR712RC;

    pub fn reset_state() -> Self
        ensures { machine_of result ≡ bus.reset_state gr712rc }
    {
        let port = Apbuart::reset_state();
        Machine {
            ports: [port; Self::PORTS],
            unit: Gptimer::reset_state(),
            irqmp: Irqmp::reset_state(),
        }
    }

    // No state of the timer unit is ill formed.
    pub fn well_formed(self) -> bool
        ensures { result ≡ bus.well_formed (machine_of self) }
    {
        all_well_formed(&self.ports) && self.irqmp.well_formed()
    }

    // The line levels as they are, bit p for port p.
    pub fn levels(self) -> u8
        ensures { result ≡ bus.levels (machine_of self) }
    {
        let mut levels = 0;
        // By places: over the ports themselves, turned round, the proof of the sum stayed open.
        for i in (0..Self::PORTS).rev() {
            levels = levels * 2 + self.ports[i].level as u8;
        }
        levels
    }

    pub fn read(self, address: u32, size: u8) -> Answer
        ensures { Conforms self (calls.Read address size) result }
    {
        self.call(Call::Read { address, size })
    }

    pub fn write(self, address: u32, size: u8, value: u32) -> Answer
        ensures { Conforms self (calls.Write address size value) result }
    {
        self.call(Call::Write {
            address,
            size,
            value,
        })
    }

    // A byte is offered to a port.
    pub fn offer(self, port: u8, byte: u8) -> Answer
        ensures { Conforms self (calls.Offer port byte) result }
    {
        self.call(Call::Offer { port, byte })
    }

    pub fn advance(self, cycles: u64) -> Answer
        ensures { Conforms self (calls.Advance cycles) result }
    {
        self.call(Call::Advance(cycles))
    }

    pub fn skip(self, limit: u64) -> Answer
        ensures { Conforms self (calls.Skip limit) result }
    {
        self.call(Call::Skip(limit))
    }

    pub fn reset(self) -> Answer
        ensures { Conforms self calls.Reset result }
    {
        self.call(Call::Reset)
    }

    pub fn acknowledge(self) -> Answer
        ensures { Conforms self calls.Acknowledge result }
    {
        self.call(Call::Acknowledge)
    }

    pub fn malformed(self) -> Answer
        ensures { Conforms self calls.Malformed result }
    {
        self.call(Call::Malformed)
    }

    // The controller after a step of port n, whose level was `before` and is `after`: where it rose, the port's line is pending. The
    // table is looked at only there.
    #[tactic(auto, using(crate::proofs::machine::Setting::setting))]
    pub fn after_port(n: usize, before: bool, after: bool, controller: Irqmp) -> Irqmp
        ensures { result ≡ (irq.set_pending (cond (time.rises before after) (get_or gr712rc.lines.ports n 0) 0) controller).device }
    {
        if before {
            return controller;
        }
        if after && n < Lines::PORTS {
            return controller.set_pending(Self::BOARD.lines.ports[n]).device;
        }
        controller
    }

    // The controller after a span in which the timers had these pulses: the lines of those that had one are pending.
    pub fn after_pulses(pulses: [u64; 4], controller: Irqmp) -> Irqmp
        ensures { result ≡ (irq.set_pending (time.lines_of gr712rc.lines.timers (time.pulsed pulses)) controller).device }
    {
        let lines = Self::BOARD.lines.of_pulses(pulses);
        if lines == 0 {
            return controller;
        }
        controller.set_pending(lines).device
    }

    // Any of these calls. The answer is made in one place, so the machine is copied in and out and not in between.
    pub fn call(mut self, call: Call) -> Answer
        ensures { Conforms self call result }
    {
        let mut reply = Reply::refused(Refusal::IllFormed.number());
        let mut keep = |said: Reply, _: Machine| reply = said;
        self.carry_out(call, &mut keep);
        Answer {
            refusal: reply.refusal,
            emitted: reply.emitted,
            levels: self.levels(),
            value: reply.value,
            cycles: reply.cycles,
            pulses: reply.pulses,
            machine: self,
        }
    }

    // Makes a call where the machine lies, and tells the reply and the machine after it.
    #[inline(always)]
    pub fn carry_out<F: FnMut(Reply, Machine)>(&mut self, call: Call, tell: &mut F)
        requires { (reply : _) (after : _) → F.pre tell.old reply after }
        ensures { (reply : _) × Replies self.old call reply self.new × F.step tell.old reply self.new tt tell.new }
    {
        if self.well_formed() {
            self.follow(Route::of(Self::BOARD, call), tell)
        } else {
            tell(Reply::refused(Refusal::IllFormed.number()), *self)
        }
    }

    // Does what a route says. What changes is stored: devices, the prescaler's value alone, or at a reset the machine. Each arm tells
    // its own reply: as a result, logged behind the match, it took a run 30 instructions a record. The hints put the arms into the loop.
    #[inline(always)]
    pub(crate) fn follow<F: FnMut(Reply, Machine)>(&mut self, route: Route, tell: &mut F)
        requires port_is_there { port_exists gr712rc.ports route ≡ true }
        requires may_tell { (reply : _) (after : _) → F.pre tell.old reply after }
        ensures { (reply : _) × CarriesOut route self.old reply self.new × F.step tell.old reply self.new tt tell.new }
    {
        match route {
            Route::Refused(refusal) => tell(Reply::refused(refusal.number()), *self),
            Route::Port { n, call } => {
                let reply = self.call_port(n, call);
                tell(reply, *self);
            }
            Route::Read { offset, core } => {
                let reply = self.read_core(offset, core);
                tell(reply, *self);
            }
            Route::Write {
                offset,
                value,
                core,
            } => {
                let reply = self.write_core(offset, value, core);
                tell(reply, *self);
            }
            Route::Acknowledge => {
                let reply = self.take_line();
                tell(reply, *self);
            }
            Route::Pass(span) => match self.unit.before_tick(span) {
                Some(short) => {
                    self.unit.scaler = short.scaler;
                    tell(Reply::of_span(short.cycles, [0; 4]), *self);
                }
                None => {
                    let reply = self.pass(span);
                    tell(reply, *self);
                }
            },
            Route::Reset => {
                *self = Self::reset_state();
                tell(Reply::valued(NOT_REFUSED, 0), *self);
            }
        }
    }

    // Port n answers its own call, and where its level rose its line is pending.
    #[inline(always)]
    fn call_port(&mut self, n: usize, call: apbuart::Call) -> Reply
        requires { n < 6 }
        ensures { CarriesOut (to.Port n call) self.old result self.new }
    {
        let before = self.ports[n];
        let answer = before.call(call);
        self.ports[n] = answer.device;
        self.irqmp = Self::after_port(n, before.level, answer.device.level, self.irqmp);
        Reply::of_port(answer.number(), answer.done())
    }

    // The timer unit or the controller answers a read.
    #[inline(always)]
    fn read_core(&self, offset: u32, core: Core) -> Reply
        ensures { CarriesOut (to.Read offset core) self.now result self.now }
    {
        match core {
            Core::TimerUnit => Reply::of_access(&self.unit.read(offset)),
            Core::Controller => Reply::of_access(&self.irqmp.read(offset)),
        }
    }

    // The timer unit or the controller answers a write, and is stored.
    #[inline(always)]
    fn write_core(&mut self, offset: u32, value: u32, core: Core) -> Reply
        ensures { CarriesOut (to.Write offset value core) self.old result self.new }
    {
        match core {
            Core::TimerUnit => stored(self.unit.write(offset, value), &mut self.unit),
            Core::Controller => stored(self.irqmp.write(offset, value), &mut self.irqmp),
        }
    }

    // The controller answers the line that the processor takes.
    #[inline(always)]
    fn take_line(&mut self) -> Reply
        ensures { CarriesOut to.Acknowledge self.old result self.new }
    {
        stored(self.irqmp.acknowledge(), &mut self.irqmp)
    }

    // A span that goes past the next tick: the lines of the timers that pulsed in it are pending.
    #[inline(always)]
    fn pass(&mut self, span: Span) -> Reply
        ensures { CarriesOut (to.Pass span) self.old result self.new }
    {
        let elapsed = self.unit.pass(span);
        self.unit = elapsed.unit;
        self.irqmp = Self::after_pulses(elapsed.pulses, self.irqmp);
        Reply::of_span(elapsed.cycles, elapsed.pulses)
    }
}

fn all_well_formed(ports: &[Apbuart]) -> bool
    ensures { result ≡ bus.all_well (map port_of ports.now) }
{
    ports.iter().all(|port| port.well_formed())
}

// What a device answered is stored in its place, and replied.
#[inline(always)]
fn stored<D: Copy>(answer: devices::answer::Answer<D>, place: &mut D) -> Reply
    ensures place { place.new ≡ answer.device }
    ensures reply { replied result ≡ value_answer (number_in answer.outcome) (value_in answer.outcome) }
{
    *place = answer.device;
    Reply::of_access(&answer)
}
