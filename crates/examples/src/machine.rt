// A machine's calls. Each is written with its whole answer.
use crate::line::{Line, byte, word};
use crate::text::{say, unknown};
use bus::machine::{Answer, Machine};

pub(crate) fn play(rt: &impl Print, machine: &mut Machine, line: Line) {
    let [first, second, third] = line.numbers;
    let answer = match line.letter {
        b'r' => {
            say(rt, format_args!("  read {first} at {second:08x}"));
            machine.read(word(second), byte(first))
        }
        b'w' => {
            say(
                rt,
                format_args!("  write {first} at {second:08x} {third:08x}"),
            );
            machine.write(word(second), byte(first), word(third))
        }
        b'o' => {
            say(rt, format_args!("  offer {first} {second:02x}"));
            machine.offer(byte(first), byte(second))
        }
        b'a' => {
            say(rt, format_args!("  advance {first}"));
            machine.advance(first)
        }
        b's' => {
            say(rt, format_args!("  skip {first}"));
            machine.skip(first)
        }
        b'x' => {
            say(rt, "  reset");
            machine.reset()
        }
        b'k' => {
            say(rt, "  acknowledge");
            machine.acknowledge()
        }
        b'm' => {
            say(rt, "  malformed");
            machine.malformed()
        }
        b'c' => {
            say(
                rt,
                format_args!("  CONTROL of port {first} is {second:08x}\n"),
            );
            if let Some(port) = machine.ports.get_mut(byte(first) as usize) {
                port.control = word(second);
            }
            return;
        }
        b'l' => {
            say(
                rt,
                format_args!("  the controller's level is {first:08x}\n"),
            );
            machine.irqmp.level = word(first);
            return;
        }
        _ => return unknown(rt),
    };
    *machine = answered(rt, answer);
}

// Writes the answer and hands on the machine.
fn answered(rt: &impl Print, answer: Answer) -> Machine {
    let Answer {
        refusal,
        emitted,
        levels,
        value,
        cycles,
        pulses: [one, two, three, four],
        machine,
    } = answer;
    let byte = emitted.unwrap_or(0);
    let emitted = emitted.is_some() as u8;
    say(
        rt,
        format_args!(": number {refusal}, emitted {emitted} {byte:02x}, levels {levels:02x}"),
    );
    say(rt, format_args!(", value {value:08x}, cycles {cycles}"));
    say(rt, format_args!(", pulses {one} {two} {three} {four}\n"));
    machine
}
