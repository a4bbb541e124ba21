// A board: how many ports it has, its interrupt lines, and the windows that its devices sit in. The rules of the bus are the same
// for every board; what differs is the table. (Should a board have fewer windows, some of length 0 fill its table: no address lies
// in them.)
ghost use Rattle.std.specs.Prelude.{◌≡◌, cond, ◌+◌, ◌-◌};
ghost use Rattle.bus.specs.Board as board;
ghost use Rattle.bus.specs.Time as time;

// What answers in a window.
#[derive(Clone, Copy, Debug, PartialEq, Eq)]
pub enum Device {
    Port(u8),
    TimerUnit,
    Controller,
}

#[derive(Clone, Copy, Debug, PartialEq, Eq)]
pub struct Window {
    pub base: u32,
    pub length: u32,
    pub device: Device,
}

// The interrupt line of each port, port 0 first, and of each timer, timer 1 first: the word with that line's bit.
#[derive(Clone, Copy, Debug, PartialEq, Eq)]
pub struct Lines {
    pub ports: [u32; Lines::PORTS],
    pub timers: [u32; Lines::TIMERS],
}

#[derive(Clone, Copy, Debug, PartialEq, Eq)]
pub struct Board {
    // How many ports: they are 0 to one below this.
    pub ports: u8,
    pub lines: Lines,
    pub windows: [Window; Board::WINDOWS],
}

impl Window {
    pub(crate) const LENGTH: u32 = 0x100;

    // The first address behind the window, which may lie past the last 32-bit one.
    pub(crate) fn end(self) -> u64
        ensures { result ≡ board.end self }
    {
        self.base as u64 + self.length as u64
    }

    pub(crate) fn holds(self, address: u32) -> bool
        ensures { result ≡ board.holds address self }
    {
        self.base <= address && (address as u64) < self.end()
    }

    // An address's offset in the window. No address that was found in it lies below its base.
    pub(crate) fn offset(self, address: u32) -> u32
        ensures { result ≡ address - self.base }
    {
        address.saturating_sub(self.base)
    }
}

impl Board {
    pub const WINDOWS: usize = 8;

    pub(crate) const GR712RC: Board = Board {
        ports: 6,
        lines: Lines {
            ports: [1 << 2, 1 << 17, 1 << 18, 1 << 19, 1 << 20, 1 << 21],
            timers: [1 << 8, 1 << 9, 1 << 10, 1 << 11],
        },
        windows: [
            Window {
                base: 0x8000_0100,
                length: Window::LENGTH,
                device: Device::Port(0),
            },
            Window {
                base: 0x8010_0100,
                length: Window::LENGTH,
                device: Device::Port(1),
            },
            Window {
                base: 0x8010_0200,
                length: Window::LENGTH,
                device: Device::Port(2),
            },
            Window {
                base: 0x8010_0300,
                length: Window::LENGTH,
                device: Device::Port(3),
            },
            Window {
                base: 0x8010_0400,
                length: Window::LENGTH,
                device: Device::Port(4),
            },
            Window {
                base: 0x8010_0500,
                length: Window::LENGTH,
                device: Device::Port(5),
            },
            Window {
                base: 0x8000_0300,
                length: Window::LENGTH,
                device: Device::TimerUnit,
            },
            Window {
                base: 0x8000_0200,
                length: Window::LENGTH,
                device: Device::Controller,
            },
        ],
    };

    // The window that an address lies in. From the last window to the first, without a way out of the loop: the compiler then needs no
    // jump for it. (By places: over the windows turned round the proof stayed open.)
    pub(crate) fn window_at(self, address: u32) -> Option<Window>
        ensures { result ≡ board.window_at address self.windows }
    {
        let mut found = None;
        for i in (0..Self::WINDOWS).rev() {
            let window = self.windows[i];
            if window.holds(address) {
                found = Some(window);
            }
        }
        found
    }
}

impl Lines {
    pub const PORTS: usize = 6;

    pub const TIMERS: usize = 4;

    // The lines of the timers that had a pulse. From the last timer to the first, as the definition joins them; by places, since with
    // `zip` turned round the proof stayed open.
    pub(crate) fn of_pulses(self, pulses: [u64; Lines::TIMERS]) -> u32
        ensures { result ≡ time.lines_of self.timers (time.pulsed pulses) }
    {
        let mut lines = 0;
        for i in (0..Self::TIMERS).rev() {
            lines = line_if(0 < pulses[i], self.timers[i]) | lines;
        }
        lines
    }
}

// A line, or none.
fn line_if(set: bool, line: u32) -> u32
    ensures { result ≡ cond set line 0 }
{
    if set { line } else { 0 }
}
