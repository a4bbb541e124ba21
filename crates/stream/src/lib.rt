// Reading and writing, for programs. A call that fails says so on standard error, by the name that it is given; `read_full` alone has
// none, and says nothing. A proved loop has to end, and nothing says that a file does: the loops count their turns, up to a number that
// no run uses up, but for one that fills a buffer.
#![tactic(auto)]

ghost use Rattle.std.specs.Prelude.{◌≤◌, length, IfOk, IfErr};
ghost use Rattle.stream.specs.Counts.{IsPrefixLen};

use std::io::{Cursor, Error, ErrorKind, Read, Write};

// A read failed, behind so many bytes.
#[derive(Clone, Copy, Debug, PartialEq, Eq)]
pub struct Failed {
    pub count: usize,
}

// Reads until the buffer is full or the input ends, and answers how many bytes came: fewer than the buffer holds where the input
// ended. A read may bring fewer bytes than were asked for, and one that a signal interrupts is made again.
pub fn fill<R: Read, E: Write>(
    reader: &mut R,
    name: &[u8],
    buffer: &mut [u8],
    stderr: &mut E,
) -> Result<usize, Failed>
    ensures ok { IfOk result (λ count. IsPrefixLen count buffer.new) }
    ensures err { IfErr result (λ failed. IsPrefixLen failed.count buffer.new) }
{
    let mut count = 0;
    for _ in 0..u64::MAX {
        if buffer.len() <= count {
            return Ok(count);
        }
        match reader.read(&mut buffer[count..]) {
            Ok(0) => return Ok(count),
            Ok(got) => count += got,
            Err(error) if error.kind() == ErrorKind::Interrupted => {}
            Err(error) => {
                fail(name, &error, stderr);
                return Err(Failed { count });
            }
        }
    }
    Err(Failed { count })
}

// Reads until the buffer is full, the input ends or a read fails, an interrupted one too, and says nothing. How many bytes it put at the
// buffer's start: a count of bytes that came, which no `for` has.
pub fn read_full(input: &mut impl Read, buffer: &mut [u8]) -> usize
    ensures { result ≤ length buffer.new }
{
    let mut count = 0;
    while count < buffer.len() {
        match input.read(&mut buffer[count..]) {
            Ok(0) | Err(_) => break,
            Ok(more) => count += more,
        }
    }
    count
}

// Writes the bytes, and answers how many it could: fewer than all where a write failed. A write may take fewer than it was given,
// and one that a signal interrupts is made again.
pub fn emit<W: Write, E: Write>(writer: &mut W, name: &[u8], bytes: &[u8], stderr: &mut E) -> usize
    ensures { result ≤ length bytes.now }
{
    let mut count = 0;
    for _ in 0..u64::MAX {
        if bytes.len() <= count {
            return count;
        }
        match writer.write(&bytes[count..]) {
            Ok(0) => {
                say(name, b"nothing could be written", stderr);
                return count;
            }
            Ok(put) => count += put,
            Err(error) if error.kind() == ErrorKind::Interrupted => {}
            Err(error) => {
                fail(name, &error, stderr);
                return count;
            }
        }
    }
    count
}

// Writes a line to standard error: what failed, as the caller names it, and the system's words for the error. (It promises nothing:
// no contract can say what a stream takes.)
pub fn fail<E: Write>(name: &[u8], error: &Error, stderr: &mut E) {
    let mut room = Cursor::new([0; ROOM]);
    let _ = write!(room, "{error}");
    let length = (room.position() as usize).min(ROOM);
    let text = room.into_inner();
    if error.raw_os_error().is_some() {
        say(name, without_number(&text[..length]), stderr);
    } else {
        say(name, &text[..length], stderr);
    }
}

// Room for an error's text.
const ROOM: usize = 128;

// The text of one of the system's errors ends with its number, as in ` (os error 5)`: what stands before it.
fn without_number(text: &[u8]) -> &[u8] {
    match text.iter().rposition(|byte| *byte == b'(') {
        Some(at) if 0 < at => &text[..at - 1],
        _ => text,
    }
}

// Writes a line to standard error. What cannot be written is left out.
fn say<E: Write>(name: &[u8], words: &[u8], stderr: &mut E) {
    let _ = stderr.write_all(name);
    let _ = stderr.write_all(b": ");
    let _ = stderr.write_all(words);
    let _ = stderr.write_all(b"\n");
}
