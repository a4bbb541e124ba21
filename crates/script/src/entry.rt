// A log record, of 48 bytes: what a call answered.
ghost use Rattle.std.specs.Prelude.{◌≡◌, is_some, unwrap_or, ◌+◌, ◌*◌, ◌≤◌, length};
ghost use Rattle.bus.specs.Route.{replied};
ghost use Rattle.bus.specs.View.{machine_of};
ghost use Rattle.script.specs.Log as logs;
ghost use Rattle.script.specs.Number as big;
ghost use Rattle.script.specs.Private as private;
ghost use Rattle.script.specs.Buffer.{wrote};

use crate::number;
use bus::machine::Machine;
use bus::reply::Reply;

// A record is six numbers of 8 bytes: the refusal number to the value read, the cycles passed, and the pulses of each timer in them.
const LONGS: usize = 6;

// A record's length.
pub const LENGTH: usize = 48;

// A field of a record, by its name.
#[derive(Clone, Copy, Debug, PartialEq, Eq)]
pub enum Field {
    Number,
    Emitted,
    Levels,
    Value,
    Cycles,
    // The pulses of timer n, 1 to 4.
    Pulses(u8),
}

// A field, and how many bytes it has.
#[derive(Clone, Copy, Debug, PartialEq, Eq)]
pub struct Part {
    pub field: Field,
    pub width: usize,
}

// How many fields a record has.
pub const FIELDS: usize = 9;

// The fields of a record, in the order of their bytes.
const LAYOUT: [Part; FIELDS] = [
    Part {
        field: Field::Number,
        width: 1,
    },
    Part {
        field: Field::Emitted,
        width: 2,
    },
    Part {
        field: Field::Levels,
        width: 1,
    },
    Part {
        field: Field::Value,
        width: 4,
    },
    Part {
        field: Field::Cycles,
        width: 8,
    },
    Part {
        field: Field::Pulses(1),
        width: 8,
    },
    Part {
        field: Field::Pulses(2),
        width: 8,
    },
    Part {
        field: Field::Pulses(3),
        width: 8,
    },
    Part {
        field: Field::Pulses(4),
        width: 8,
    },
];

// That table. (It is a function because a constant has no promise.)
pub fn layout() -> [Part; FIELDS]
    ensures { result ≡ logs.layout }
{
    LAYOUT
}

// Puts a log record into the log, from `at` on: the reply of a call, and the line levels of the machine after it.
pub(crate) fn put(log: &mut [u8], at: usize, reply: Reply, machine: Machine)
    requires { at + logs.entry_length ≤ length log.old }
    ensures { log.new ≡ wrote log.old at (logs.entry (replied reply (machine_of machine))) }
{
    let first = first_long(reply.refusal, reply.emitted, machine.levels(), reply.value);
    let [one, two, three, four] = reply.pulses;
    put_longs(log, at, [first, reply.cycles, one, two, three, four]);
}

// The refusal number, the emitted byte, the line levels and the value read, as one number.
fn first_long(refusal: u8, emitted: Option<u8>, levels: u8, value: u32) -> u64
    ensures { big.encoded 8 result ≡ private.first_long refusal (is_some emitted) (unwrap_or emitted 0) levels value }
{
    let flag = u64::from(emitted.is_some());
    let byte = emitted.unwrap_or(0);
    let bytes = ((refusal as u64 * 0x100 + flag) * 0x100 + byte as u64) * 0x100 + levels as u64;
    bytes * 0x1_0000_0000 + value as u64
}

fn put_longs(log: &mut [u8], at: usize, longs: [u64; LONGS])
    requires { at + 8 * 6 ≤ length log.old }
    ensures { log.new ≡ wrote log.old at (private.longs longs) }
{
    for (i, n) in longs.iter().enumerate() {
        number::put_long(log, at + 8 * i, *n);
    }
}
