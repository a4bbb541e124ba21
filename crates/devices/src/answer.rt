// What a call on a device answers, of whichever device it is.
ghost use Rattle.std.specs.Prelude.{◌≡◌, Ok, Err};
ghost use Rattle.devices.specs.Answer.View.{number_in, value_in};

use crate::refusal::Refusal;

// A device has the value read, or the line taken; a port's call gives more (`apbuart::Done`).
#[derive(Clone, Copy, Debug, PartialEq, Eq)]
pub struct Answer<D, T = u32> {
    // What came of the call, or why it was refused.
    pub outcome: Result<T, Refusal>,
    // The device after the call; a refused one leaves it as it was.
    pub device: D,
}

impl<D, T> Answer<D, T> {
    pub(crate) fn accepted(done: T, device: D) -> Self
        ensures outcome { result.outcome ≡ Ok done }
        ensures device { result.device ≡ device }
    {
        Answer {
            outcome: Ok(done),
            device,
        }
    }

    pub(crate) fn refused(refusal: Refusal, device: D) -> Self
        ensures outcome { result.outcome ≡ Err refusal }
        ensures device { result.device ≡ device }
    {
        Answer {
            outcome: Err(refusal),
            device,
        }
    }

    // The refusal number; 0 where the call was not refused.
    pub fn number(&self) -> u8
        ensures { result ≡ number_in self.now.outcome }
    {
        match &self.outcome {
            Ok(_) => 0,
            Err(refusal) => refusal.number(),
        }
    }
}

impl<D> Answer<D, u32> {
    // The value read, or the line taken; 0 where the call was refused.
    pub fn value(&self) -> u32
        ensures { result ≡ value_in self.now.outcome }
    {
        self.outcome.unwrap_or(0)
    }
}
