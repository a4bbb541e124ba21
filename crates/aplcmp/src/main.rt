// The program `aplcmp FIRST SECOND`: it compares the two logs that its arguments name, and writes the verdict's line to standard
// output. It only reads, calls the library `compare`, and writes. A log that is not named, cannot be opened or cannot be read as
// far as it is needed counts as empty, and a message on standard error says why. Where more than two are named, there is a message
// and no verdict.
#![tactic(auto)]

ghost use Rattle.std.specs.Prelude.{◌≡◌, ◌≤◌, length, IfOk, IfSome, IfErr};
ghost use Rattle.stream.specs.Counts.{IsPrefixLen};

use compare::comparison::Comparison;
use compare::verdict::{Log, Verdict};
use compare::{comparison, line};
use script::entry;
use script::format::Format;
use std::env::FillError;
use std::fs::File;
use std::io::{Error, ErrorKind};
use std::rt::Env;
use std::str::from_utf8;
use stream::Failed;

// Each log is read in pieces of a whole number of records, as many as 64 KiB have: they are taken whole as long as both logs go on.
const PIECE: usize = 1365 * entry::LENGTH;

// How many bytes a message begins with, before the name of a log: those of `aplcmp: `.
const BEFORE: usize = 8;

// The longest path that the system takes, with the 0 that it ends it with.
const PATH_MAX: usize = 4096;

// Room for both.
const NAME: usize = BEFORE + PATH_MAX;

// The system's number for a name that is too long.
const TOO_LONG: i32 = 36;

// What a message names a log by.
#[derive(Drop)]
struct Name {
    bytes: [u8; NAME],
    length: usize,
    ghost within: { length ≤ 4104 },
}

impl Name {
    fn as_bytes(&self) -> &[u8] {
        &self.bytes[..self.length]
    }
}

// A log that an argument names, and its file, where it could be opened.
#[derive(Drop)]
struct Source {
    log: Log,
    name: Name,
    file: Option<File>,
}

fn main(rt: HostRuntime) {
    let more = has_argument(&rt, 3);
    if more || !has_argument(&rt, 2) {
        let _ = eprintln!(rt; "usage: aplcmp FIRST SECOND");
    }
    if !more {
        say(&rt, compare_named(&rt));
    }
}

// Whether there is an argument of this number. The program's own name has number 0. (`apsrun` has the same of its own: a public
// function wants a promise, and no contract can say which arguments there are.)
fn has_argument(rt: &HostRuntime, i: usize) -> bool {
    !matches!(rt.arg(i, &mut []), Err(FillError::NotPresent))
}

fn say(rt: &HostRuntime, verdict: Verdict) {
    let mut text = [0; line::LENGTH];
    let length = line::put_line(&mut text, verdict);
    stream::emit(
        &mut rt.stdout(),
        b"aplcmp: stdout",
        &text[..length],
        &mut rt.stderr(),
    );
}

fn compare_named(rt: &HostRuntime) -> Verdict {
    let mut first = Source::open(rt, Log::First, 1);
    let mut second = Source::open(rt, Log::Second, 2);
    compare(rt, &mut first, &mut second)
}

impl Source {
    // The log that the argument of this number names.
    fn open(rt: &HostRuntime, log: Log, i: usize) -> Self {
        let mut bytes = [0; NAME];
        bytes[..BEFORE].copy_from_slice(b"aplcmp: ");
        let (length, file) = match rt.arg(i, &mut bytes[BEFORE..]) {
            Ok(length) => {
                let end = BEFORE + length;
                (end, open_named(rt, &bytes[..end]))
            }
            // The argument is missing, and main has said so.
            Err(FillError::NotPresent) => (0, None),
            Err(FillError::TooLong) => {
                let error = Error::from_raw_os_error(TOO_LONG);
                stream::fail(b"aplcmp: the name of a log", &error, &mut rt.stderr());
                (0, None)
            }
        };
        Source {
            log,
            name: Name { bytes, length },
            file,
        }
    }

    // A log that could not be opened is empty.
    fn read(&mut self, rt: &HostRuntime, buffer: &mut [u8]) -> Result<usize, Failed>
        ensures ok { IfOk result (λ count. IsPrefixLen count buffer.new) }
        ensures err { IfErr result (λ failed. IsPrefixLen failed.count buffer.new) }
    {
        match &mut self.file {
            None => Ok(0),
            Some(file) => stream::fill(file, self.name.as_bytes(), buffer, &mut rt.stderr()),
        }
    }

    // A log whose header cannot be read counts as empty.
    fn read_header(&mut self, rt: &HostRuntime, header: &mut [u8]) -> usize
        ensures { IsPrefixLen result header.new }
    {
        self.read(rt, header).unwrap_or(0)
    }

    // Reads the log to its end, from what lies in the window between `from` and `to`, and leaves at the window's start what the
    // verdict depends on, unless a read fails. Where the window is not full, the log has ended already, and is not read again.
    fn read_rest(
        &mut self,
        rt: &HostRuntime,
        left: &[u8],
        window: &mut [u8],
        from: usize,
        to: usize,
    ) -> Option<usize>
        requires from_le_to { from ≤ to }
        requires to_in_bounds { to ≤ length window.old }
        ensures { IfSome result (λ count. IsPrefixLen count window.new) }
    {
        let mut count = keep(window, from, to);
        if to < window.len() {
            return Some(count);
        }
        for _ in 0..u64::MAX {
            let over = comparison::surplus(left, &window[..count]);
            count = keep(window, over, count);
            count += self.read(rt, &mut window[count..]).ok()?;
            if count < window.len() {
                return Some(count);
            }
        }
        None
    }
}

// Opens the log by its name, which stands behind the program's. The library's paths are text: a name that is none opens nothing.
fn open_named(rt: &HostRuntime, name: &[u8]) -> Option<File>
    requires { 8 ≤ length name.now }
{
    let opened = match from_utf8(&name[BEFORE..]) {
        Ok(path) => File::open(rt, path),
        Err(_) => Err(Error::new(ErrorKind::InvalidFilename, "the name is no UTF-8 text")),
    };
    match opened {
        Ok(file) => Some(file),
        Err(error) => {
            stream::fail(name, &error, &mut rt.stderr());
            None
        }
    }
}

// The headers, and what is behind them.
fn compare(rt: &HostRuntime, first: &mut Source, second: &mut Source) -> Verdict {
    let mut header_1 = [0; Format::HEADER];
    let mut header_2 = [0; Format::HEADER];
    let count_1 = first.read_header(rt, &mut header_1);
    let count_2 = second.read_header(rt, &mut header_2);
    let begun = Comparison::begin(&header_1[..count_1], &header_2[..count_2]);
    match begun {
        Comparison::Decided(verdict) => verdict,
        Comparison::Undecided(_) => compare_records(rt, begun, first, second),
    }
}

// Piece by piece, until a record differs or a log ends. A proved loop has to end, and nothing says that a log does: the loop counts
// its turns, up to a number that no run uses up.
fn compare_records(
    rt: &HostRuntime,
    begun: Comparison,
    first: &mut Source,
    second: &mut Source,
) -> Verdict {
    let mut window_1 = [0; PIECE];
    let mut window_2 = [0; PIECE];
    let mut comparison = begun;
    for _ in 0..u64::MAX {
        let read_1 = first.read(rt, &mut window_1);
        let read_2 = second.read(rt, &mut window_2);
        let count_1 = came(read_1);
        let count_2 = came(read_2);
        let step = comparison.next(&window_1[..count_1], &window_2[..count_2]);
        let taken = step.taken;
        comparison = step.comparison;
        if let Comparison::Decided(verdict) = comparison {
            return verdict;
        }
        // What came before a read that failed has been compared. Where both failed, the log that did so first is named.
        match (read_1, read_2) {
            (Ok(_), Ok(_)) => {}
            (Err(_), Ok(_)) => return Verdict::unreadable(Log::First),
            (Ok(_), Err(_)) => return Verdict::unreadable(Log::Second),
            (Err(_), Err(_)) => return Verdict::unreadable(earlier(count_1, count_2)),
        }
        if count_1 < PIECE {
            let left = &window_1[taken..count_1];
            return end_other(rt, comparison, left, second, &mut window_2, taken, count_2);
        }
        if count_2 < PIECE {
            let left = &window_2[taken..count_2];
            return end_other(rt, comparison, left, first, &mut window_1, taken, count_1);
        }
    }
    // No run comes here.
    Verdict::unreadable(Log::First)
}

// How many bytes came, whether or not a read failed behind them.
fn came(read: Result<usize, Failed>) -> usize
    ensures ok { IfOk read (λ count. result ≡ count) }
    ensures err { IfErr read (λ failed. result ≡ failed.count) }
{
    match read {
        Ok(count) | Err(Failed { count }) => count,
    }
}

// The log of which fewer bytes came, or the first.
fn earlier(count_1: usize, count_2: usize) -> Log {
    if count_2 < count_1 {
        Log::Second
    } else {
        Log::First
    }
}

// One log has ended, with `left` left of it: the other is read to its end, from what lies in its window between `from` and `to`.
fn end_other(
    rt: &HostRuntime,
    comparison: Comparison,
    left: &[u8],
    other: &mut Source,
    window: &mut [u8],
    from: usize,
    to: usize,
) -> Verdict
    requires from_le_to { from ≤ to }
    requires to_in_bounds { to ≤ length window.old }
{
    let Some(count) = other.read_rest(rt, left, window, from, to) else {
        return Verdict::unreadable(other.log);
    };
    match other.log {
        Log::First => comparison.end(&window[..count], left),
        Log::Second => comparison.end(left, &window[..count]),
    }
}

// Moves what lies between `from` and `to` to the start, and answers how much that is. (Here and above two places and no struct: the window
// is lent for one call.)
fn keep(window: &mut [u8], from: usize, to: usize) -> usize
    requires from_le_to { from ≤ to }
    requires to_in_bounds { to ≤ length window.old }
    ensures { IsPrefixLen result window.new }
{
    window.copy_within(from..to, 0);
    to - from
}
