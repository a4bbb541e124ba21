// What the program writes. A write that fails is passed over.
use std::fmt::Display;

pub(crate) fn say(rt: &impl Print, what: impl Display + Drop) {
    let _ = rt.print(what);
}

pub(crate) fn say_bytes(rt: &impl Print, text: &[u8]) {
    let _ = rt.write_all(text);
}

pub(crate) fn unknown(rt: &impl Print) {
    say(rt, "  ?\n");
}
