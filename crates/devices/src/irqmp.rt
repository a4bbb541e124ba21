// The interrupt controller, GRLIB's IRQMP for one processor, as a state by value: which lines are pending, and which of them the
// processor takes. A word of lines has one bit a line. Each public call answers what `specs/Irqmp.antt` defines, on every
// controller and every argument.
ghost use Rattle.std.specs.Prelude.{◌≡◌, option_map};
ghost use Rattle.devices.specs.Word as words;
ghost use Rattle.devices.specs.Answer.View.{answer_of};
ghost use Rattle.devices.specs.Irqmp as irq;
ghost use Rattle.devices.specs.Irqmp.Words as lines;
ghost use Rattle.devices.specs.Irqmp.Words.{number_or_0};

use crate::answer;
use crate::line::Line;
use crate::refusal::Refusal;

#[derive(Clone, Copy, Debug, PartialEq, Eq)]
pub struct Irqmp {
    // The lines that go first.
    pub level: u32,
    // The lines that were set and not yet taken, and those that software forces.
    pub pending: u32,
    pub force: u32,
    // The lines that may be taken.
    pub mask: u32,
    // Extended acknowledge: the number that was noted last, an extended line or 0.
    pub extended: u32,
}

// What a call on a controller answers.
pub type Answer = answer::Answer<Irqmp>;

impl Irqmp {
    // Register offsets.
    pub const LEVEL: u32 = 0x00;

    pub const PENDING: u32 = 0x04;

    pub const FORCE: u32 = 0x08;

    pub const CLEAR: u32 = 0x0C;

    pub const MASK: u32 = 0x40;

    pub const EXTENDED: u32 = 0xC0;

    // The lines that level and force keep, and those that pending and mask keep.
    pub const LINES_1_TO_15: u32 = 0x0000_FFFE;

    pub const LINES_1_TO_31: u32 = 0xFFFF_FFFE;

    // The extended lines, 16 to 31, and the line as which they reach the processor.
    pub const EXTENDED_LINES: u32 = 0xFFFF_0000;

    pub const EXTENDED_AS: u32 = 12;

    pub fn reset_state() -> Self
        ensures { result ≡ irq.reset_state }
    {
        Irqmp {
            level: 0,
            pending: 0,
            force: 0,
            mask: 0,
            extended: 0,
        }
    }

    #[tactic(auto, unfolding(crate::specs::Irqmp::well_formed))]
    pub fn well_formed(self) -> bool
        ensures { result ≡ irq.well_formed self }
    {
        within(Self::LINES_1_TO_15, self.level)
            && within(Self::LINES_1_TO_31, self.pending)
            && within(Self::LINES_1_TO_15, self.force)
            && within(Self::LINES_1_TO_31, self.mask)
            && may_be_noted(self.extended)
    }

    // The reset call; an ill-formed controller is refused it like any other. (Each call asks for itself, as a port's do.)
    #[tactic(auto, unfolding(crate::specs::Irqmp::reset))]
    pub fn reset(self) -> Answer
        ensures { answer_of result ≡ irq.reset self }
    {
        if self.well_formed() {
            Answer::accepted(0, Self::reset_state())
        } else {
            Answer::refused(Refusal::IllFormed, self)
        }
    }

    #[tactic(auto, unfolding(crate::specs::Irqmp::read))]
    pub fn read(self, offset: u32) -> Answer
        ensures { answer_of result ≡ irq.read offset self }
    {
        if self.well_formed() {
            self.read_register(offset)
        } else {
            Answer::refused(Refusal::IllFormed, self)
        }
    }

    #[tactic(auto, unfolding(crate::specs::Irqmp::write))]
    pub fn write(self, offset: u32, value: u32) -> Answer
        ensures { answer_of result ≡ irq.write offset value self }
    {
        if self.well_formed() {
            self.write_register(offset, value)
        } else {
            Answer::refused(Refusal::IllFormed, self)
        }
    }

    // Lines become pending, whatever the mask.
    #[tactic(auto, unfolding(crate::specs::Irqmp::set_pending))]
    pub fn set_pending(self, lines: u32) -> Answer
        ensures { answer_of result ≡ irq.set_pending lines self }
    {
        if self.well_formed() {
            Answer::accepted(0, self.with_lines(lines))
        } else {
            Answer::refused(Refusal::IllFormed, self)
        }
    }

    // The processor takes a line, if one waits.
    #[tactic(auto, unfolding(crate::specs::Irqmp::acknowledge))]
    pub fn acknowledge(self) -> Answer
        ensures { answer_of result ≡ irq.acknowledge self }
    {
        if self.well_formed() {
            match self.line_taken() {
                None => Answer::accepted(0, self),
                Some(line) => Answer::accepted(line.number, self.taken(line)),
            }
        } else {
            Answer::refused(Refusal::IllFormed, self)
        }
    }

    fn read_register(self, offset: u32) -> Answer
        ensures { answer_of result ≡ irq.read_register offset self }
    {
        match offset {
            Self::LEVEL => Answer::accepted(self.level, self),
            Self::PENDING => Answer::accepted(self.pending, self),
            Self::FORCE => Answer::accepted(self.force, self),
            Self::CLEAR => Answer::accepted(0, self),
            Self::MASK => Answer::accepted(self.mask, self),
            Self::EXTENDED => Answer::accepted(self.extended, self),
            _ => Answer::refused(Refusal::NoRegister, self),
        }
    }

    // Nothing is stored where there is no register.
    fn write_register(mut self, offset: u32, value: u32) -> Answer
        ensures { answer_of result ≡ irq.write_register offset value self }
    {
        match offset {
            Self::LEVEL => self.level = value & Self::LINES_1_TO_15,
            Self::PENDING => self.pending = value & Self::LINES_1_TO_31,
            Self::FORCE => self.force = value & Self::LINES_1_TO_15,
            Self::CLEAR => self.pending = without(value, self.pending),
            Self::MASK => self.mask = value & Self::LINES_1_TO_31,
            Self::EXTENDED => {}
            _ => return Answer::refused(Refusal::NoRegister, self),
        }
        Answer::accepted(0, self)
    }

    fn with_lines(mut self, lines: u32) -> Self
        ensures { result ≡ irq.with_lines lines self }
    {
        self.pending |= lines & Self::LINES_1_TO_31;
        self
    }

    // The lines that wait.
    fn waiting(self) -> u32
        ensures { result ≡ lines.waiting self }
    {
        (self.pending | self.force) & self.mask
    }

    // The highest extended line that waits, if one does.
    fn extended_line(self) -> Option<Line>
        ensures { number_or_0 (option_map (λ line. line.number) result) ≡ irq.extended_line self }
    {
        Line::highest(self.waiting() & Self::EXTENDED_LINES)
    }

    // The lines 1 to 15 that reach the processor.
    fn reaching(self) -> u32
        ensures { result ≡ lines.reaching self }
    {
        let own = self.waiting() & Self::LINES_1_TO_15;
        match self.extended_line() {
            None => own,
            Some(_) => own | 1 << Self::EXTENDED_AS,
        }
    }

    fn line_taken(self) -> Option<Line>
        ensures { number_or_0 (option_map (λ line. line.number) result) ≡ irq.line_taken self }
    {
        let reaching = self.reaching();
        Line::highest(reaching & self.level).or(Line::highest(reaching))
    }

    fn taken(self, line: Line) -> Self
        ensures { result ≡ irq.taken line.number self }
    {
        if line.number == Self::EXTENDED_AS {
            self.take_12()
        } else {
            self.take(line)
        }
    }

    fn take(mut self, line: Line) -> Self
        ensures { result ≡ irq.take line.number self }
    {
        if line.is_in(self.force) {
            self.force = without(line.word(), self.force);
        } else {
            self.pending = without(line.word(), self.pending);
        }
        self
    }

    // Line 12 stands for the highest extended line that waits, if one does.
    fn take_12(self) -> Self
        ensures { result ≡ irq.take12 self }
    {
        let twelve = Line {
            number: Self::EXTENDED_AS,
        };
        let extended = self.extended_line();
        let mut controller = self.take(extended.unwrap_or(twelve));
        controller.extended = extended.map_or(0, |line| line.number);
        controller
    }
}

// Whether a word has no other lines than these.
fn within(lines: u32, word: u32) -> bool
    ensures { result ≡ irq.within lines word }
{
    word & lines == word
}

// What extended acknowledge may hold.
fn may_be_noted(n: u32) -> bool
    ensures { result ≡ irq.may_be_noted n }
{
    matches!(n, 0 | 16..=31)
}

// A word without the lines of another.
fn without(lines: u32, word: u32) -> u32
    ensures { result ≡ words.without lines word }
{
    word & !lines
}
