// The program: it runs the script that it reads from standard input on a machine at reset, and writes the log to standard
// output. It only reads, calls the library `script`, and writes. Where a read fails, it says so on standard error, writes the
// log of the pieces before, and ends: no record is made up for what was not read. Where a write fails, it says so and ends. It takes
// no argument: where there is one, it says how it is used and reads nothing.
#![tactic(auto)]

ghost use Rattle.std.specs.Prelude.{IfOk, IfErr};
ghost use Rattle.stream.specs.Counts.{IsPrefixLen};

use bus::machine::Machine;
use script::format::Format;
use script::run::run_piece;
use script::{entry, format, record};
use std::env::FillError;
use std::rt::Env;
use stream::Failed;

// The input is read in pieces, each of a whole number of records but the last.
const PIECE: usize = 4096;

// Room for a log record for each record of a piece.
const LOG_PIECE: usize = entry::LENGTH * (PIECE / record::LENGTH);

// So many pieces' logs are gathered and written out at once: many small writes take the system longer.
const GATHERED: usize = 16;

// The log buffer.
const LOG_BUFFER: usize = GATHERED * LOG_PIECE;

fn main(rt: HostRuntime) {
    if has_argument(&rt, 0) && !has_argument(&rt, 1) {
        run_input(&rt);
    } else {
        let _ = eprintln!(rt; "usage: apsrun < SCRIPT > LOG");
    }
}

// Whether there is an argument of this number. The program's own name has number 0. (`aplcmp` has the same of its own: a public
// function wants a promise, and no contract can say which arguments there are.)
fn has_argument(rt: &HostRuntime, i: usize) -> bool {
    !matches!(rt.arg(i, &mut []), Err(FillError::NotPresent))
}

// The header, and what follows it.
fn run_input(rt: &HostRuntime) {
    let mut header = [0; Format::HEADER];
    let Ok(count) = fill(rt, &mut header) else {
        return;
    };
    match format::judge_script(&header[..count]) {
        Err(reason) => {
            emit(rt, &format::refusal_line(reason));
        }
        Ok(()) => {
            if emit(rt, &format::log_header()) {
                run(rt);
            }
        }
    }
}

// Runs what follows the header. The log is written out once it has no room for a further piece's, and at the end, whether the
// input ended or a read failed. A proved loop has to end, and nothing says that the input does: the loop counts its turns, up to
// a number that no run uses up.
#[tactic(auto, using(crate::proofs::Buffers::buffers))]
fn run(rt: &HostRuntime) {
    let mut script = [0; PIECE];
    let mut log = [0; LOG_BUFFER];
    let mut end = 0;
    let mut machine = Machine::reset_state();
    for _ in 0..u64::MAX {
        let Ok(count) = fill(rt, &mut script) else {
            break;
        };
        let ran = run_piece(machine, &script[..count], &mut log[end..]);
        machine = ran.machine;
        end += entry::LENGTH * ran.done;
        if count < PIECE {
            break;
        }
        if LOG_BUFFER - LOG_PIECE < end {
            if !emit(rt, &log[..end]) {
                return;
            }
            end = 0;
        }
    }
    emit(rt, &log[..end]);
}

fn fill(rt: &HostRuntime, buffer: &mut [u8]) -> Result<usize, Failed>
    ensures ok { IfOk result (λ count. IsPrefixLen count buffer.new) }
    ensures err { IfErr result (λ failed. IsPrefixLen failed.count buffer.new) }
{
    stream::fill(&mut rt.stdin(), b"apsrun: stdin", buffer, &mut rt.stderr())
}

// Whether all could be written.
fn emit(rt: &HostRuntime, bytes: &[u8]) -> bool {
    stream::emit(&mut rt.stdout(), b"apsrun: stdout", bytes, &mut rt.stderr()) == bytes.len()
}
