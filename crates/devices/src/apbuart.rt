// The serial port, GRLIB's APBUART, as a state by value. It emits at once, receives into a queue and drives one interrupt
// line. Each public call answers what `specs/Apbuart.antt` defines, on every port and every argument.
ghost use Rattle.std.specs.Prelude.{◌≡◌, ◌≤◌, ◌&&◌, length};
ghost use Rattle.devices.specs.Apbuart as uart;
ghost use Rattle.devices.specs.Fifo.{queued};
ghost use Rattle.devices.specs.Apbuart.Call.{answer_to};
ghost use Rattle.devices.specs.Apbuart.View.{port_of, done_in, answer_of, Conforms};

use crate::answer;
use crate::fifo::{DEPTH, Fifo};
use crate::refusal::Refusal;

#[derive(Clone, Copy, Debug)]
pub struct Apbuart {
    pub control: u32,
    pub scaler: u8,
    // The interrupt line's level, as the last CONTROL write, accepted byte or reset left it.
    pub level: bool,
    pub queue: Fifo,
}

// A call that a bus makes on one port.
#[derive(Clone, Copy, Debug, PartialEq, Eq)]
pub enum Call {
    Read { offset: u32 },
    Write { offset: u32, value: u32 },
    Offer { byte: u8 },
}

// What an accepted call on a port gives: the value read, and the byte that it emitted.
#[derive(Clone, Copy, Debug, Default, PartialEq, Eq)]
pub struct Done {
    pub value: u32,
    pub emitted: Option<u8>,
}

// What a call on a port answers.
pub type Answer = answer::Answer<Apbuart, Done>;

impl answer::Answer<Apbuart, Done> {
    // What the call gave: nothing where it was refused.
    pub fn done(&self) -> Done
        ensures { result ≡ done_in self.now.outcome }
    {
        self.outcome.unwrap_or_default()
    }
}

fn accepted(value: u32, port: Apbuart) -> Answer
    ensures { answer_of result ≡ uart.accepted value (port_of port) }
{
    Answer::accepted(
        Done {
            value,
            emitted: None,
        },
        port,
    )
}

fn emitting(byte: u8, port: Apbuart) -> Answer
    ensures { answer_of result ≡ uart.emitting byte (port_of port) }
{
    Answer::accepted(
        Done {
            value: 0,
            emitted: Some(byte),
        },
        port,
    )
}

impl Apbuart {
    // Register offsets.
    pub const DATA: u32 = 0x00;

    pub const STATUS: u32 = 0x04;

    pub const CONTROL: u32 = 0x08;

    pub const SCALER: u32 = 0x0C;

    // CONTROL, receiver enable.
    pub const RE: u32 = 0x0000_0001;
    // CONTROL, transmitter enable.
    pub const TE: u32 = 0x0000_0002;
    // CONTROL, receive interrupt enable.
    pub const RI: u32 = 0x0000_0004;
    // CONTROL, transmit interrupt enable.
    pub const TI: u32 = 0x0000_0008;
    // CONTROL, FIFOs available: always 1.
    pub const FA: u32 = 0x8000_0000;

    // STATUS while no byte waits: FIFOs available, and the transmitter, which emits at once, idle.
    pub const STATUS_IDLE: u32 = 0x8000_0086;
    // STATUS, data ready.
    pub const DR: u32 = 0x0000_0001;
    // STATUS, one received byte: the count stands from bit 26 up.
    pub const RCNT: u32 = 0x0400_0000;

    pub const RESET_CONTROL: u32 = 0x8000_0000;

    pub const RESET_SCALER: u8 = 0;

    pub const RESET_LEVEL: bool = false;

    // Where the empty queue has its head, and what its places hold, is not decided (`specs/Apbuart/View.antt`).
    pub fn reset_state() -> Self
        ensures { port_of result ≡ uart.reset_state }
    {
        Apbuart {
            control: Self::RESET_CONTROL,
            scaler: Self::RESET_SCALER,
            level: Self::RESET_LEVEL,
            queue: Fifo::empty(),
        }
    }

    // SCALER and the level have no ill-formed value; the queue's head counts modulo its depth.
    #[tactic(auto, unfolding(crate::specs::Apbuart::well_formed))]
    pub fn well_formed(self) -> bool
        ensures { result ≡ uart.well_formed (port_of self) }
    {
        self.control / Self::FA % 2 == 1 && self.queue.len() <= DEPTH
    }

    // The reset call; an ill-formed port is refused it like any other. (Each call asks for itself: in a generic function that takes the
    // call as a closure it is as long, and that of `read` then needs clauses of its own.)
    #[tactic(auto, unfolding(crate::specs::Apbuart::reset))]
    pub fn reset(self) -> Answer
        ensures { Conforms self (uart.reset (port_of self)) result }
    {
        if self.well_formed() {
            accepted(0, Self::reset_state())
        } else {
            Answer::refused(Refusal::IllFormed, self)
        }
    }

    #[tactic(auto, unfolding(crate::specs::Apbuart::read))]
    pub fn read(self, offset: u32) -> Answer
        ensures { Conforms self (uart.read offset (port_of self)) result }
    {
        if self.well_formed() {
            self.read_register(offset)
        } else {
            Answer::refused(Refusal::IllFormed, self)
        }
    }

    #[tactic(auto, unfolding(crate::specs::Apbuart::write))]
    pub fn write(self, offset: u32, value: u32) -> Answer
        ensures { Conforms self (uart.write offset value (port_of self)) result }
    {
        if self.well_formed() {
            self.write_register(offset, value)
        } else {
            Answer::refused(Refusal::IllFormed, self)
        }
    }

    // A byte is offered to the receiver.
    #[tactic(auto, unfolding(crate::specs::Apbuart::offer))]
    pub fn offer(self, byte: u8) -> Answer
        ensures { Conforms self (uart.offer byte (port_of self)) result }
    {
        if self.well_formed() {
            self.receive(byte)
        } else {
            Answer::refused(Refusal::IllFormed, self)
        }
    }

    // A read, a write or an offered byte, as a value.
    pub fn call(self, call: Call) -> Answer
        ensures { Conforms self (answer_to call (port_of self)) result }
    {
        match call {
            Call::Read { offset } => self.read(offset),
            Call::Write { offset, value } => self.write(offset, value),
            Call::Offer { byte } => self.offer(byte),
        }
    }

    fn read_register(self, offset: u32) -> Answer
        requires { length (queued self.queue) ≤ uart.depth }
        ensures { Conforms self (uart.read_register offset (port_of self)) result }
    {
        match offset {
            Self::DATA => self.read_data(),
            Self::STATUS => self.read_status(),
            Self::CONTROL => accepted(self.control, self),
            Self::SCALER => accepted(self.scaler as u32, self),
            _ => Answer::refused(Refusal::NoRegister, self),
        }
    }

    fn write_register(self, offset: u32, value: u32) -> Answer
        ensures { Conforms self (uart.write_register offset value (port_of self)) result }
    {
        match offset {
            Self::DATA => self.write_data(value),
            Self::STATUS => accepted(0, self),
            Self::CONTROL => self.write_control(value),
            Self::SCALER => self.write_scaler(value),
            // Nothing is stored where there is no register.
            _ => Answer::refused(Refusal::NoRegister, self),
        }
    }

    fn read_data(self) -> Answer
        ensures { Conforms self (uart.read_data (port_of self)) result }
    {
        if self.control / Self::RE % 2 == 1 && 0 < self.queue.len() {
            let mut port = self;
            port.queue = self.queue.pop();
            return accepted(self.queue.oldest() as u32, port);
        }
        accepted(0, self)
    }

    fn write_data(self, value: u32) -> Answer
        ensures { Conforms self (uart.write_data value (port_of self)) result }
    {
        if self.control / Self::TE % 2 == 1 {
            emitting((value % 256) as u8, self)
        } else {
            accepted(0, self)
        }
    }

    // A queue within its depth keeps the count below bit 31, so that the sum fits.
    fn read_status(self) -> Answer
        requires { length (queued self.queue) ≤ uart.depth }
        ensures { Conforms self (uart.read_status (port_of self)) result }
    {
        let count = self.queue.len();
        if 0 < count {
            accepted(
                Self::STATUS_IDLE + Self::DR + count as u32 * Self::RCNT,
                self,
            )
        } else {
            accepted(Self::STATUS_IDLE, self)
        }
    }

    fn write_control(mut self, value: u32) -> Answer
        ensures { Conforms self (uart.write_control value (port_of self)) result }
    {
        self.control = value % Self::FA + Self::FA;
        accepted(0, self.update_level())
    }

    fn write_scaler(mut self, value: u32) -> Answer
        ensures { Conforms self (uart.write_scaler value (port_of self)) result }
    {
        self.scaler = (value % 256) as u8;
        accepted(0, self)
    }

    // The refusals stand in the order of their numbers.
    #[tactic(auto, using(crate::proofs::fifo::Ring::has_room))]
    fn receive(self, byte: u8) -> Answer
        ensures { Conforms self (uart.receive byte (port_of self)) result }
    {
        if self.control / Self::RE % 2 != 1 {
            return Answer::refused(Refusal::ReceiverOff, self);
        }
        if DEPTH <= self.queue.len() {
            return Answer::refused(Refusal::QueueFull, self);
        }
        let mut port = self;
        port.queue = self.queue.push(byte);
        accepted(0, port.update_level())
    }

    fn update_level(mut self) -> Self
        ensures { port_of result ≡ uart.update_level (port_of self) }
    {
        self.level = self.line_level();
        self
    }

    fn line_level(self) -> bool
        ensures { result ≡ uart.line_level (port_of self) }
    {
        self.control / Self::RI % 2 == 1 && 0 < self.queue.len() || self.control / Self::TI % 2 == 1
    }
}
