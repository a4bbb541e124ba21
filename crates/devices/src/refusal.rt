// Why a device refuses a call of its own.
ghost use Rattle.std.specs.Prelude.{◌≡◌};
ghost use Rattle.devices.specs.Refusal.{number_of};

// Each with the number that the table of refusals gives it; 0 stands for a call that is not refused.
#[derive(Clone, Copy, Debug, PartialEq, Eq)]
pub enum Refusal {
    // A byte was offered to a port whose RE is 0.
    ReceiverOff = 7,
    // A byte was offered to a port whose receive queue is full.
    QueueFull = 8,
    // The state is ill formed.
    IllFormed = 9,
    // An access names an offset that has no register.
    NoRegister = 13,
}

impl Refusal {
    pub fn number(self) -> u8
        ensures { result ≡ number_of self }
    {
        self as u8
    }
}
