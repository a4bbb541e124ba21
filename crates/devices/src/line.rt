// An interrupt line of the controller, by its number. A word of lines has one bit a line.
ghost use Rattle.std.specs.Prelude.{◌≡◌, ◌^◌, ◌<◌, option_map};
ghost use Rattle.devices.specs.Word.{bit};
ghost use Rattle.devices.specs.Irqmp.Words.{number_or_0, highest_in};

#[derive(Clone, Copy)]
pub(crate) struct Line {
    pub(crate) number: u32,
    // Bit 0 of a word is no line.
    ghost is_line: { (0 < number) × (number < 32) },
}

impl Line {
    // The highest line of a word, if it has any.
    #[tactic(auto, using(crate::proofs::line::TopLine::top_line))]
    pub(crate) fn highest(word: u32) -> Option<Line>
        ensures { number_or_0 (option_map (λ line. line.number) result) ≡ highest_in word }
    {
        if word < 2 {
            return None;
        }
        Some(Line {
            number: 31 - word.leading_zeros(),
        })
    }

    // Whether it is in a word.
    pub(crate) fn is_in(self, word: u32) -> bool
        ensures { result ≡ bit self.number word }
    {
        (word >> self.number) % 2 == 1
    }

    // The word of this line alone.
    pub(crate) fn word(self) -> u32
        ensures { result ≡ 2 ^ self.number }
    {
        1 << self.number
    }
}
