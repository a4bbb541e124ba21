// A run of script records on a machine, and what the program does with a piece of its input.
ghost use Rattle.std.specs.Prelude.{◌≡◌, cond, ◌+◌, ◌*◌, ◌/◌, ◌%◌, ◌≤◌, ◌<◌, min, eqb, length, take, drop};
ghost use Rattle.bus.specs.View as bus;
ghost use Rattle.script.specs.Script as scripts;
ghost use Rattle.script.specs.Log as logs;
ghost use Rattle.script.specs.Run as runs;
ghost use Rattle.script.specs.View.{Conforms};
ghost use Rattle.script.specs.Private.{Played};

use crate::record::decode;
use crate::{entry, record};
use bus::machine::Machine;
use bus::refusal::NOT_REFUSED;
use bus::well_formed::WellFormed;
use devices::refusal::Refusal;

// What a run answers.
#[derive(Clone, Copy)]
pub struct Ran {
    // The refusal number of the whole run; NOT_REFUSED where it was not refused. (It stands beside the count, and no Result is in their
    // place, since of a refused run too the claims say how many records it did.)
    pub refusal: u8,
    // How many records it did: as many stand in the log.
    pub done: usize,
    // The machine after them.
    pub machine: Machine,
}

// Runs the whole records of the script, as many as the limit and the log leave room for, and logs each.
pub fn run(machine: Machine, script: &[u8], log: &mut [u8], limit: usize) -> Ran
    ensures { Conforms machine (runs.run limit script.now log.old) result log.new }
{
    let whole = script.len() / record::LENGTH;
    let fitting = log.len() / entry::LENGTH;
    run_records(machine, script, log, limit.min(whole.min(fitting)))
}

// What the program does with a piece of its input: as `run` without a limit, but a tail of fewer bytes than a record has is
// one record more, which is cut short.
pub fn run_piece(machine: Machine, piece: &[u8], log: &mut [u8]) -> Ran
    ensures { Conforms machine (runs.piece piece.now log.old) result log.new }
{
    let given = piece.len().div_ceil(record::LENGTH);
    let fitting = log.len() / entry::LENGTH;
    run_records(machine, piece, log, given.min(fitting))
}

// Runs and logs the first `count` records; the last may be cut short.
fn run_records(machine: Machine, script: &[u8], log: &mut [u8], count: usize) -> Ran
    requires records_there { scripts.record_length * count < length script.now + scripts.record_length }
    requires log_has_room { logs.entry_length * count ≤ length log.old }
    ensures { Conforms machine (runs.run_first count script.now log.old) result log.new }
{
    if !machine.well_formed() {
        return Ran {
            refusal: Refusal::IllFormed.number(),
            done: 0,
            machine,
        };
    }
    Ran {
        refusal: NOT_REFUSED,
        done: count,
        machine: play(WellFormed { machine }, script, log, count),
    }
}

// Every call on a well-formed machine leaves one, so the test for 9 is once a run. The machine is a local of this loop, which is not
// moved: what a call changes is stored in it.
fn play(begun: WellFormed, script: &[u8], log: &mut [u8], count: usize) -> Machine
    requires records_there { scripts.record_length * count < length script.now + scripts.record_length }
    requires log_has_room { logs.entry_length * count ≤ length log.old }
    ensures { Played (runs.ran count script.now log.old (bus.machine_of begun.machine)) result log.new }
{
    let mut machine = begun;
    // By places: over the script's chunks a record takes 12 instructions more, and of mutable chunks of the log the library says too little.
    for i in 0..count {
        let at = entry::LENGTH * i;
        let call = decode(record_at(script, i));
        let mut put = |reply, after| entry::put(log, at, reply, after);
        machine.carry_out(call, &mut put);
    }
    machine.machine
}

// The record at a place; the last may be cut short.
fn record_at(script: &[u8], i: usize) -> &[u8]
    requires { scripts.record_length * i ≤ length script.now }
    ensures { result.now ≡ take scripts.record_length (drop (scripts.record_length * i) script.now) }
{
    let rest = &script[record::LENGTH * i..];
    rest.get(..record::LENGTH).unwrap_or(rest)
}
