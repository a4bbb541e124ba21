// What a call answers, but for the machine after it and that machine's line levels: the fields of `machine::Answer` without
// those two. What its kind does not produce is 0. Each function promises what the answer is with any machine after the call
// (`replied`).
ghost use Rattle.std.specs.Prelude.{◌≡◌, is_some, unwrap_or};
ghost use Rattle.devices.specs.Answer.View.{number_in, value_in};
ghost use Rattle.devices.specs.Apbuart.{Port};
ghost use Rattle.bus.specs.Machine as bus;
ghost use Rattle.bus.specs.Route as routes;

use crate::refusal::NOT_REFUSED;
use devices::answer::Answer;
use devices::apbuart::Done;

#[derive(Clone, Copy, Debug, PartialEq, Eq)]
pub struct Reply {
    // A number, as in the log, and no Result: `refused` and `valued` promise an answer for every number.
    pub refusal: u8,
    pub emitted: Option<u8>,
    pub value: u32,
    pub cycles: u64,
    pub pulses: [u64; 4],
}

impl Reply {
    pub fn refused(refusal: u8) -> Self
        ensures { routes.replied result ≡ bus.refused refusal }
    {
        Self::valued(refusal, 0)
    }

    // A number, and a value read or a line taken; or a reset.
    pub fn valued(refusal: u8, value: u32) -> Self
        ensures { routes.replied result ≡ routes.value_answer refusal value }
    {
        Reply {
            refusal,
            emitted: None,
            value,
            cycles: 0,
            pulses: [0; 4],
        }
    }

    // The timer unit's or the controller's own answer, with its number.
    pub fn of_access<D>(answer: &Answer<D>) -> Self
        ensures { routes.replied result ≡ routes.value_answer (number_in answer.now.outcome) (value_in answer.now.outcome) }
    {
        Self::valued(answer.number(), answer.value())
    }

    // What a port answered: a refusal number, and what was done.
    pub fn of_port(number: u8, done: Done) -> Self
        ensures { (port : Port) → routes.replied result ≡ routes.port_answer (record {
          refusal = number;
          value = done.value;
          emitted = is_some done.emitted;
          byte = unwrap_or done.emitted 0;
          port = port;
        }) }
    {
        Reply {
            refusal: number,
            emitted: done.emitted,
            value: done.value,
            cycles: 0,
            pulses: [0; 4],
        }
    }

    // A span of time that the machine passed.
    pub fn of_span(cycles: u64, pulses: [u64; 4]) -> Self
        ensures { routes.replied result ≡ routes.span_answer cycles pulses }
    {
        Reply {
            refusal: NOT_REFUSED,
            emitted: None,
            value: 0,
            cycles,
            pulses,
        }
    }
}
