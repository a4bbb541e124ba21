// Where a call leads on a board. The board and the call decide it, no state: the call is refused with one of 1 to 6 or 10, or it is
// one device's own call, a span of time or a reset. 9 is judged apart, 7 and 8 by the port, 13 by the device that is accessed.
ghost use Rattle.std.specs.Prelude.{◌≡◌, true, ◌<◌, Ok};
ghost use Rattle.bus.specs.Board.{window_at};
ghost use Rattle.bus.specs.Call.{is_size};
ghost use Rattle.bus.specs.Route.{Leads};
ghost use Rattle.bus.specs.Private as private;

use crate::board::{Board, Device, Window};
use crate::machine::Call;
use crate::refusal::Refusal;
use devices::apbuart;
use devices::gptimer::Span;

// A device of which a board has one.
#[derive(Clone, Copy, Debug, PartialEq, Eq)]
pub enum Core {
    TimerUnit,
    Controller,
}

// The order is that of their numbers in the compiled program, and what the cases hold is much alike, so that the compiler gives each
// kind of call a jump of its own to its arm (docs/PERFORMANCE.md).
#[derive(Clone, Copy)]
pub enum Route {
    // Port n answers its own call.
    Port { n: usize, call: apbuart::Call },
    // The timer unit or the controller answers an access.
    Read { offset: u32, core: Core },
    Write { offset: u32, value: u32, core: Core },
    // The controller is asked for the line that the processor takes.
    Acknowledge,
    // Time passes.
    Pass(Span),
    // The call is refused.
    Refused(Refusal),
    // Every device is reset.
    Reset,
}

impl Route {
    pub fn of(board: Board, call: Call) -> Self
        ensures { Leads board call result }
    {
        match call {
            Call::Read { address, size } => Self::access(board, address, size, Self::read_device),
            Call::Write {
                address,
                size,
                value,
            } => Self::access(
                board,
                address,
                size,
                |device, offset| Self::write_device(device, offset, value),
            ),
            Call::Offer { port, byte } => Self::offer(board, port, byte),
            Call::Advance(cycles) => Route::Pass(Span::Cycles(cycles)),
            Call::Skip(limit) => Route::Pass(Span::ToPulse(limit)),
            Call::Reset => Route::Reset,
            Call::Acknowledge => Route::Acknowledge,
            Call::Malformed => Route::Refused(Refusal::BadRecord),
        }
    }

    // An access leads where `own` says of the device in whose window the address lies, and of the offset there. It is compiled for each
    // caller, and the search of the table inlined in each: in one function for both a record took half as much again.
    #[inline(always)]
    fn access<F: FnOnce(Device, u32) -> Self>(board: Board, address: u32, size: u8, own: F) -> Self
        requires { (device : _) (offset : _) → F.pre own device offset }
        ensures { (f : _) → ((device : _) (offset : _) (route : _) → F.post own device offset route → route ≡ f device offset) →
            result ≡ private.access_route f address size (window_at address board.windows) }
    {
        if !is_size(size) {
            return Route::Refused(Refusal::BadSize);
        }
        let Some(window) = board.window_at(address) else {
            return Route::Refused(Refusal::NoWindow);
        };
        match judge(address, size, window) {
            Ok(()) => own(window.device, window.offset(address)),
            Err(refusal) => Route::Refused(refusal),
        }
    }

    fn offer(board: Board, port: u8, byte: u8) -> Self
        ensures { result ≡ private.offer_route board port byte }
    {
        if board.ports <= port {
            return Route::Refused(Refusal::NoPort);
        }
        Route::Port {
            n: port as usize,
            call: apbuart::Call::Offer { byte },
        }
    }

    // (A function for each kind of access: one for both would take its cases as closures.)
    fn read_device(device: Device, offset: u32) -> Self
        ensures { result ≡ private.read_route device offset }
    {
        match device {
            Device::Port(n) => Route::Port {
                n: n as usize,
                call: apbuart::Call::Read { offset },
            },
            Device::TimerUnit => Route::Read {
                offset,
                core: Core::TimerUnit,
            },
            Device::Controller => Route::Read {
                offset,
                core: Core::Controller,
            },
        }
    }

    fn write_device(device: Device, offset: u32, value: u32) -> Self
        ensures { result ≡ private.write_route value device offset }
    {
        match device {
            Device::Port(n) => Route::Port {
                n: n as usize,
                call: apbuart::Call::Write { offset, value },
            },
            Device::TimerUnit => Route::Write {
                offset,
                value,
                core: Core::TimerUnit,
            },
            Device::Controller => Route::Write {
                offset,
                value,
                core: Core::Controller,
            },
        }
    }
}

fn is_size(size: u8) -> bool
    ensures { result ≡ is_size size }
{
    matches!(size, 1 | 2 | 4)
}

// 3 to 5 in that order. Each size is passed on as a constant, so that `address % size` is no division.
fn judge(address: u32, size: u8, window: Window) -> Result<(), Refusal>
    requires { is_size size ≡ true }
    ensures { result ≡ private.judged address size window }
{
    match size {
        4 => return judge_place(address, 4, window),
        2 => judge_place(address, 2, window)?,
        _ => judge_place(address, 1, window)?,
    }
    Err(Refusal::NotAWord)
}

// 3 and 4 in that order. The sum of an address and a size may lie past the last 32-bit number.
fn judge_place(address: u32, size: u32, window: Window) -> Result<(), Refusal>
    requires { (0 < size) × (size < 5) }
    ensures { result ≡ private.placed address size window (Ok tt) }
{
    if window.end() < address as u64 + size as u64 {
        return Err(Refusal::PastWindow);
    }
    if address % size != 0 {
        return Err(Refusal::Misaligned);
    }
    Ok(())
}
