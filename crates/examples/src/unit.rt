// A timer unit's calls. Each is written with its answer.
use crate::line::{Line, word};
use crate::text::{say, unknown};
use devices::gptimer::{Answer, Elapsed, Gptimer};

pub(crate) fn play(rt: &impl Print, unit: &mut Gptimer, line: Line) {
    let [first, second, _] = line.numbers;
    *unit = match line.letter {
        b'r' => {
            say(rt, format_args!("  read {first:02x}"));
            answered(rt, unit.read(word(first)))
        }
        b'w' => {
            say(rt, format_args!("  write {first:02x} {second:08x}"));
            answered(rt, unit.write(word(first), word(second)))
        }
        b'a' => {
            say(rt, format_args!("  advance {first}"));
            passed(rt, unit.advance(first))
        }
        b's' => {
            say(rt, format_args!("  skip {first}"));
            passed(rt, unit.skip(first))
        }
        _ => return unknown(rt),
    };
}

// Writes what an access answered and hands on the unit.
fn answered(rt: &impl Print, answer: Answer) -> Gptimer {
    let refusal = answer.number();
    let value = answer.value();
    say(rt, format_args!(": refusal {refusal}, value {value:08x}\n"));
    answer.device
}

// Writes what a span came to and hands on the unit.
fn passed(rt: &impl Print, span: Elapsed) -> Gptimer {
    let Elapsed {
        cycles,
        pulses: [one, two, three, four],
        unit,
    } = span;
    say(
        rt,
        format_args!(": cycles {cycles}, pulses {one} {two} {three} {four}\n"),
    );
    unit
}
