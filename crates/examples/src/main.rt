// Plays calls on the compiled serial port, timer unit, interrupt controller and machine, and writes each with its whole answer.
// Standard input, of at most 65,536 bytes, has one call a line.
//
// A line that begins with P, U, I, M or C begins a part, and is written as it stands. P has the calls after it made on a serial
// port, U on a timer unit, I on an interrupt controller, M on a machine, each at reset. C compares the timer unit's advances and
// skips with its own single cycles (`cycles.rt`).
//
// Any other line is a call: a letter, and numbers in hexadecimal with a blank before each.
//
//     on a port:     r OFFSET, w OFFSET VALUE, o BYTE, x
//     on a unit:     r OFFSET, w OFFSET VALUE, a CYCLES, s LIMIT
//     on a controller:  r OFFSET, w OFFSET VALUE, p LINES, k, x
//     on a machine:  r SIZE ADDRESS, w SIZE ADDRESS VALUE, o PORT BYTE, a CYCLES, s LIMIT, x, k, m
//
// r reads, w writes, o offers a byte, a advances, s skips, x resets, p has lines become pending, k acknowledges, m stands for a
// malformed script record. Some lines do what no call can, so that refusal 9 is run too: `c WORD`, on a machine `c PORT WORD`,
// puts the word into a port's CONTROL, `q COUNT` has a port's queue claim so many bytes, `l WORD` and `e WORD` put the word into
// the controller's level, also on a machine, and into its extended acknowledge. An empty line is passed over, and any other is
// answered with a question mark.
#![tactic(auto)]

mod controller;
mod cycles;
mod line;
mod machine;
mod port;
mod text;
mod unit;

use bus::machine::Machine;
use devices::apbuart::Apbuart;
use devices::gptimer::Gptimer;
use devices::irqmp::Irqmp;
use line::Line;
use stream::read_full;
use text::{say, say_bytes, unknown};

// What the calls are made on.
#[derive(Clone, Copy)]
enum Bench {
    // Before the first part, and in a comparison.
    Empty,
    Port(Apbuart),
    Unit(Gptimer),
    Controller(Irqmp),
    Machine(Machine),
}

fn main(rt: HostRuntime) {
    let mut input = [0; 65536];
    let count = read_full(&mut rt.stdin(), &mut input);
    play(&rt, &input[..count]);
}

fn play(rt: &impl Print, text: &[u8]) {
    let mut bench = Bench::Empty;
    for line in text.split(|byte| *byte == b'\n') {
        bench.play(rt, line);
    }
}

impl Bench {
    // What the calls of a part are made on, if the letter begins one.
    fn of_part(letter: u8) -> Option<Self> {
        match letter {
            b'P' => Some(Bench::Port(Apbuart::reset_state())),
            b'U' => Some(Bench::Unit(Gptimer::reset_state())),
            b'I' => Some(Bench::Controller(Irqmp::reset_state())),
            b'M' => Some(Bench::Machine(Machine::reset_state())),
            b'C' => Some(Bench::Empty),
            _ => None,
        }
    }

    // Plays a line: a part begins, or a call is made.
    fn play(&mut self, rt: &impl Print, text: &[u8]) {
        let Some(line) = Line::read(text) else {
            return;
        };
        let Some(begun) = Self::of_part(line.letter) else {
            return self.call(rt, line);
        };
        say_bytes(rt, text);
        say(rt, "\n");
        if line.letter == b'C' {
            cycles::compare(rt);
        }
        *self = begun;
    }

    fn call(&mut self, rt: &impl Print, line: Line) {
        match self {
            Bench::Empty => unknown(rt),
            Bench::Port(port) => port::play(rt, port, line),
            Bench::Unit(unit) => unit::play(rt, unit, line),
            Bench::Controller(controller) => controller::play(rt, controller, line),
            Bench::Machine(machine) => machine::play(rt, machine, line),
        }
    }
}
