// The receive queue of a serial port: a ring of DEPTH places, by value. Only the port calls it. (With `pop(&mut self) -> Option<u8>` a
// record of a run took 5 instructions more, and a run 5 in a hundred longer.)
ghost use Rattle.std.specs.Prelude.{◌≡◌, ◌<◌, [], ◌∷◌, ◌++◌, length};
ghost use Rattle.devices.specs.Apbuart.{depth, oldest, younger};
ghost use Rattle.devices.specs.Fifo.{queued};

// How many bytes can wait.
pub const DEPTH: usize = 8;

#[derive(Clone, Copy, Debug)]
pub struct Fifo {
    pub places: [u8; DEPTH],
    // The oldest byte's place, counted modulo DEPTH, so that no value of it is ill formed.
    pub head: u8,
    // How many bytes wait. A queue that claims more than DEPTH is ill formed.
    pub count: u8,
}

impl Fifo {
    pub(crate) fn empty() -> Self
        ensures { queued result ≡ [] }
    {
        Fifo {
            places: [0; DEPTH],
            head: 0,
            count: 0,
        }
    }

    #[tactic(auto, using(crate::proofs::fifo::Ring::ring_length))]
    pub(crate) fn len(self) -> usize
        ensures { result ≡ length (queued self) }
    {
        self.count as usize
    }

    // The byte that has waited longest; 0 where none waits.
    #[tactic(auto, using(crate::proofs::fifo::Ring::ring_oldest))]
    pub(crate) fn oldest(self) -> u8
        ensures { result ≡ oldest (queued self) }
    {
        if self.count == 0 {
            return 0;
        }
        let at = self.head as usize % DEPTH;
        self.places[at]
    }

    // The queue once its oldest byte has left.
    #[tactic(auto, using(crate::proofs::fifo::Ring::ring_younger))]
    pub(crate) fn pop(mut self) -> Self
        ensures { queued result ≡ younger (queued self) }
    {
        if self.count == 0 {
            return self;
        }
        self.head = ((self.head as usize + 1) % DEPTH) as u8;
        self.count -= 1;
        self
    }

    // The queue with one byte more at its end, where it has room for it.
    #[tactic(auto, using(crate::proofs::fifo::Ring::ring_push))]
    pub(crate) fn push(mut self, byte: u8) -> Self
        requires { self.count < depth }
        ensures { queued result ≡ queued self ++ (byte ∷ []) }
    {
        let at = (self.head as usize + self.count as usize) % DEPTH;
        self.places[at] = byte;
        self.count += 1;
        self
    }
}
