// An interrupt controller's calls. Each is written with its answer and the five registers after it.
use crate::line::{Line, word};
use crate::text::{say, unknown};
use devices::irqmp::{Answer, Irqmp};

pub(crate) fn play(rt: &impl Print, controller: &mut Irqmp, line: Line) {
    let [first, second, _] = line.numbers;
    let answer = match line.letter {
        b'r' => {
            say(rt, format_args!("  read {first:02x}"));
            controller.read(word(first))
        }
        b'w' => {
            say(rt, format_args!("  write {first:02x} {second:08x}"));
            controller.write(word(first), word(second))
        }
        b'p' => {
            say(rt, format_args!("  set pending {first:08x}"));
            controller.set_pending(word(first))
        }
        b'k' => {
            say(rt, "  acknowledge");
            controller.acknowledge()
        }
        b'x' => {
            say(rt, "  reset");
            controller.reset()
        }
        b'l' => {
            say(rt, format_args!("  level is {first:08x}\n"));
            controller.level = word(first);
            return;
        }
        b'e' => {
            say(rt, format_args!("  extended acknowledge is {first}\n"));
            controller.extended = word(first);
            return;
        }
        _ => return unknown(rt),
    };
    *controller = answered(rt, answer);
}

// Writes the answer and hands on the controller.
fn answered(rt: &impl Print, answer: Answer) -> Irqmp {
    let refusal = answer.number();
    let value = answer.value();
    let controller = answer.device;
    say(rt, format_args!(": refusal {refusal}, value {value}; "));
    let Irqmp {
        level,
        pending,
        force,
        mask,
        extended,
    } = controller;
    say(
        rt,
        format_args!(
            "level {level:08x}, pending {pending:08x}, force {force:08x}, mask {mask:08x}, extended {extended}\n"
        ),
    );
    controller
}
