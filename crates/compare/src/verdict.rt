// What is said of two logs.
ghost use Rattle.std.specs.Prelude.{◌≡◌};
ghost use Rattle.compare.specs.Verdict as verdicts;

use script::entry::Field;
use script::format::Reason;

// Which of the two.
#[derive(Clone, Copy, Debug, PartialEq, Eq)]
pub enum Log {
    First,
    Second,
}

#[derive(Clone, Copy, Debug, PartialEq, Eq)]
pub enum Verdict {
    // A log that is refused, by 11 or 12: by its number, since `put_line` promises a line for every one.
    Refused { log: Log, number: u8 },
    // The first record that differs, counted from 1, and the first field that differs in it.
    Record { number: u64, field: Field },
    // The log that ends in a part of a record.
    Partial(Log),
    // The shorter log: the other begins with it.
    Beginning(Log),
    Equal,
}

impl Verdict {
    // A log that cannot be read counts as empty.
    #[tactic(auto, using(crate::proofs::Laws::Verdict::unreadable_refused))]
    pub fn unreadable(log: Log) -> Self
        ensures { result ≡ verdicts.unreadable log }
    {
        Verdict::Refused {
            log,
            number: Reason::BadFile.number(),
        }
    }
}
