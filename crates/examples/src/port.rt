// A serial port's calls. Each is written with its answer and the line's level after it.
use crate::line::{Line, byte, word};
use crate::text::{say, unknown};
use devices::apbuart::{Answer, Apbuart, Done};

pub(crate) fn play(rt: &impl Print, port: &mut Apbuart, line: Line) {
    let [first, second, _] = line.numbers;
    let answer = match line.letter {
        b'r' => {
            say(rt, format_args!("  read {first:02x}"));
            port.read(word(first))
        }
        b'w' => {
            say(rt, format_args!("  write {first:02x} {second:08x}"));
            port.write(word(first), word(second))
        }
        b'o' => {
            say(rt, format_args!("  offer {first:02x}"));
            port.offer(byte(first))
        }
        b'x' => {
            say(rt, "  reset");
            port.reset()
        }
        b'c' => {
            say(rt, format_args!("  CONTROL is {first:08x}\n"));
            port.control = word(first);
            return;
        }
        b'q' => {
            say(rt, format_args!("  the queue claims {first}\n"));
            port.queue.count = byte(first);
            return;
        }
        _ => return unknown(rt),
    };
    *port = answered(rt, answer);
}

// Writes the answer and hands on the port.
fn answered(rt: &impl Print, answer: Answer) -> Apbuart {
    let refusal = answer.number();
    let Done { value, emitted } = answer.done();
    let port = answer.device;
    say(rt, format_args!(": refusal {refusal}, value {value:08x}"));
    if let Some(byte) = emitted {
        say(rt, format_args!(", emitted {byte:02x}"));
    }
    let level = port.level as u8;
    say(rt, format_args!(", level {level}\n"));
    port
}
