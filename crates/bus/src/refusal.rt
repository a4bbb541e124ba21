// Why the bus refuses a call on a machine; `devices::refusal` has what a device's own call is refused for.
ghost use Rattle.std.specs.Prelude.{◌≡◌};
ghost use Rattle.bus.specs.Refusal.{number_of};

// Each with the number that the table of refusals gives it.
#[derive(Clone, Copy, Debug, PartialEq, Eq)]
pub enum Refusal {
    // The size is not 1, 2 or 4.
    BadSize = 1,
    // The address lies in no window.
    NoWindow = 2,
    // The access runs past its window's end.
    PastWindow = 3,
    // The address is no multiple of the size.
    Misaligned = 4,
    // The size is 1 or 2: only words reach a register.
    NotAWord = 5,
    // A byte was offered to a port that the board does not have.
    NoPort = 6,
    // A script record is malformed or cut short.
    BadRecord = 10,
}

// The number of a call that is not refused.
pub const NOT_REFUSED: u8 = 0;

impl Refusal {
    pub fn number(self) -> u8
        ensures { result ≡ number_of self }
    {
        self as u8
    }
}
