// A script record, of 16 bytes: the call that it stands for.
ghost use Rattle.std.specs.Prelude.{◌≡◌, cond, ◌≤◌, length};
ghost use Rattle.bus.specs.declared.machine.Call.TheVariants.{Malformed};
ghost use Rattle.script.specs.Script as scripts;

use crate::number::{long, word};
use bus::machine::Call;

// A record's length.
pub const LENGTH: usize = 16;

// The kinds, each with the number that a record's first byte gives it.
#[derive(Clone, Copy, Debug, PartialEq, Eq)]
pub enum Kind {
    Read = 1,
    Write = 2,
    Offer = 3,
    Advance = 4,
    Skip = 5,
    Reset = 6,
    Acknowledge = 7,
}

impl Kind {
    pub fn number(self) -> u8
        ensures { result ≡ scripts.kind_number self }
    {
        self as u8
    }
}

// No kind has the byte.
#[derive(Clone, Copy, Debug, PartialEq, Eq)]
pub struct UnknownKind;

impl TryFrom<u8> for Kind {
    type Error = UnknownKind;

    ghost try_from_gives = { scripts.Names };

    fn try_from(byte: u8) -> Result<Self, UnknownKind> {
        match byte {
            1 => Ok(Kind::Read),
            2 => Ok(Kind::Write),
            3 => Ok(Kind::Offer),
            4 => Ok(Kind::Advance),
            5 => Ok(Kind::Skip),
            6 => Ok(Kind::Reset),
            7 => Ok(Kind::Acknowledge),
            _ => Err(UnknownKind),
        }
    }
}

// The numbers in a record, by their places.
#[derive(Clone, Copy)]
struct Fields {
    // Any byte: `Kind::try_from` judges it.
    kind: u8,
    byte_1: u8,
    byte_2: u8,
    byte_3: u8,
    bytes_4_7: u32,
    bytes_8_11: u32,
    bytes_12_15: u32,
    bytes_8_15: u64,
}

// The call of a record. Bytes behind a whole record are not looked at.
pub fn decode(bytes: &[u8]) -> Call
    ensures { result ≡ scripts.call_in bytes.now }
{
    if bytes.len() < LENGTH {
        return Call::Malformed;
    }
    Fields::of(bytes).call()
}

impl Fields {
    fn of(bytes: &[u8]) -> Self
        requires { scripts.record_length ≤ length bytes.now }
        ensures { result ≡ scripts.fields bytes.now }
    {
        Fields {
            kind: bytes[0],
            byte_1: bytes[1],
            byte_2: bytes[2],
            byte_3: bytes[3],
            bytes_4_7: word(bytes, 4),
            bytes_8_11: word(bytes, 8),
            bytes_12_15: word(bytes, 12),
            bytes_8_15: long(bytes, 8),
        }
    }

    fn call(self) -> Call
        ensures { result ≡ scripts.call_among self.kind (scripts.table self) }
    {
        match Kind::try_from(self.kind) {
            Ok(Kind::Read) => self.read(),
            Ok(Kind::Write) => self.write(),
            Ok(Kind::Offer) => self.offer(),
            Ok(Kind::Advance) => self.span(Call::Advance(self.bytes_8_15)),
            Ok(Kind::Skip) => self.span(Call::Skip(self.bytes_8_15)),
            Ok(Kind::Reset) => self.bare(Call::Reset),
            Ok(Kind::Acknowledge) => self.bare(Call::Acknowledge),
            Err(UnknownKind) => Call::Malformed,
        }
    }

    // Each line of the table has its own blanks, and so a function of its own.
    fn read(self) -> Call
        ensures { result ≡ scripts.call_on (scripts.read_line self) }
    {
        if self.byte_2 == 0 && self.byte_3 == 0 && self.bytes_8_15 == 0 {
            return Call::Read {
                address: self.bytes_4_7,
                size: self.byte_1,
            };
        }
        Call::Malformed
    }

    fn write(self) -> Call
        ensures { result ≡ scripts.call_on (scripts.write_line self) }
    {
        if self.byte_2 == 0 && self.byte_3 == 0 && self.bytes_8_11 == 0 {
            return Call::Write {
                address: self.bytes_4_7,
                size: self.byte_1,
                value: self.bytes_12_15,
            };
        }
        Call::Malformed
    }

    fn offer(self) -> Call
        ensures { result ≡ scripts.call_on (scripts.offer_line self) }
    {
        if self.byte_3 == 0 && self.bytes_4_7 == 0 && self.bytes_8_15 == 0 {
            return Call::Offer {
                port: self.byte_1,
                byte: self.byte_2,
            };
        }
        Call::Malformed
    }

    // A call whose records have a number in bytes 8 to 15 at most.
    fn span(self, call: Call) -> Call
        ensures { result ≡ cond (scripts.all_zero (scripts.advance_line self).blanks) call Malformed }
    {
        if self.byte_1 == 0 && self.byte_2 == 0 && self.byte_3 == 0 && self.bytes_4_7 == 0 {
            return call;
        }
        Call::Malformed
    }

    // A call whose records have none there either.
    fn bare(self, call: Call) -> Call
        ensures { result ≡ cond (scripts.all_zero (scripts.reset_line self).blanks) call Malformed }
    {
        if self.bytes_8_15 == 0 {
            return self.span(call);
        }
        Call::Malformed
    }
}
