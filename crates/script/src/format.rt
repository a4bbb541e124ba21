// What a script and a log begin with, and what is written in place of a log where a script is refused.
ghost use Rattle.std.specs.Prelude.{◌≡◌};
ghost use Rattle.script.specs.Format as format;

// Why a file is refused, each with its refusal number; the bus has those of a call on a machine.
#[derive(Clone, Copy, Debug, PartialEq, Eq)]
pub enum Reason {
    // It is shorter than a header, or has the wrong mark.
    BadFile = 11,
    // Its version is not the one that is read.
    BadVersion = 12,
}

impl Reason {
    pub fn number(self) -> u8
        ensures { result ≡ format.number_of self }
    {
        self as u8
    }
}

// A kind of file: its mark, three bytes as a number, and its version.
#[derive(Clone, Copy, Debug, PartialEq, Eq)]
pub struct Format {
    pub mark: u32,
    pub version: u16,
}

impl Format {
    // The mark's three bytes and the version's two.
    pub const HEADER: usize = 5;

    // `APS`
    pub const SCRIPT: Format = Format {
        mark: 0x41_50_53,
        version: 1,
    };

    // `APL`
    pub const LOG: Format = Format {
        mark: 0x41_50_4C,
        version: 1,
    };

    // A file is judged by its first bytes: 11 before 12.
    fn judge(self, file: &[u8]) -> Result<(), Reason>
        ensures { format.verdict_number result ≡ format.refusal self file.now }
    {
        if file.len() < Self::HEADER {
            return Err(Reason::BadFile);
        }
        let mark = u32::from_be_bytes([0, file[0], file[1], file[2]]);
        if mark != self.mark {
            return Err(Reason::BadFile);
        }
        let version = u16::from_be_bytes([file[3], file[4]]);
        if version != self.version {
            return Err(Reason::BadVersion);
        }
        Ok(())
    }

    fn header(self) -> [u8; Format::HEADER]
        ensures { result ≡ format.header self }
    {
        let [_, a, b, c] = self.mark.to_be_bytes();
        let [d, e] = self.version.to_be_bytes();
        [a, b, c, d, e]
    }
}

// Whether a file is a script, by its first bytes.
pub fn judge_script(file: &[u8]) -> Result<(), Reason>
    ensures { format.verdict_number result ≡ format.refusal format.script file.now }
{
    Format::SCRIPT.judge(file)
}

// Whether a file is a log, by its first bytes.
pub fn judge_log(file: &[u8]) -> Result<(), Reason>
    ensures { format.verdict_number result ≡ format.refusal format.log file.now }
{
    Format::LOG.judge(file)
}

// What a log begins with.
pub fn log_header() -> [u8; Format::HEADER]
    ensures { result ≡ format.header format.log }
{
    Format::LOG.header()
}

// What is written in place of a log: the refusal's number, in two digits. (By hand: the library promises the text of a number only in a
// String, and no heap is used here.)
pub fn refusal_line(reason: Reason) -> [u8; 11]
    ensures { result ≡ format.refusal_line (format.number_of reason) }
{
    let number = reason.number();
    let mut line = *b"refused 00\n";
    line[8] = b'0' + number / 10;
    line[9] = b'0' + number % 10;
    line
}
