// A line of the input: a letter, and numbers in hexadecimal with a blank before each. No line is refused.
#[derive(Clone, Copy)]
pub(crate) struct Line {
    pub(crate) letter: u8,
    // Its first three numbers; 0 for one that is not there.
    pub(crate) numbers: [u64; 3],
}

impl Line {
    // An empty text is no line.
    pub(crate) fn read(text: &[u8]) -> Option<Self> {
        let letter = *text.first()?;
        let mut numbers = [0; 3];
        let parts = text.split(|byte| *byte == b' ').skip(1);
        for (number, digits) in numbers.iter_mut().zip(parts) {
            *number = digits
                .iter()
                .fold(0, |number, digit| joined(number, *digit));
        }
        Some(Line { letter, numbers })
    }
}

// A number with a digit more: `0` is 0x30, `A` 0x41 and `a` 0x61. Any other byte stands for a digit too; of more than 16
// digits the last count.
fn joined(number: u64, digit: u8) -> u64 {
    let value = (digit as u64 % 16 + digit as u64 / 64 * 9) % 16;
    number % 0x1000_0000_0000_0000 * 16 + value
}

pub(crate) fn word(n: u64) -> u32 {
    (n % 0x1_0000_0000) as u32
}

pub(crate) fn byte(n: u64) -> u8 {
    (n % 0x100) as u8
}
