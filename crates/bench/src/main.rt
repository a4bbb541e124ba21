// A million calls on the compiled timer unit or the compiled machine, each on the unit or machine that the one before
// returned, for `tools/bench` to time. The first byte of standard input says which calls. The program writes what they come
// to, so that none can be left out.
#![tactic(auto)]

mod machine;
mod unit;

use stream::read_full;

pub(crate) const CALLS: u64 = 1_000_000;

fn main(rt: HostRuntime) {
    let mut input = [0; 4096];
    read_full(&mut rt.stdin(), &mut input);
    let which = input[0];
    match which {
        b'a'..=b'e' | b'n' => unit::play(&rt, which),
        _ => machine::play(&rt, which),
    }
}

// Writes a number and ends the line. A write that fails is passed over.
pub(crate) fn number(rt: &impl Print, n: u64) {
    let _ = println!(rt; "{n}");
}
