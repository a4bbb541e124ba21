// The line that says what came of a comparison.
ghost use Rattle.std.specs.Prelude.{◌≡◌, ◌++◌, ◌+◌, ◌≤◌, length};
ghost use Rattle.script.specs.Buffer.{wrote};
ghost use Rattle.compare.specs.Line as lines;

use crate::text::Text;
use crate::verdict::{Log, Verdict};
use script::entry::Field;

// Room for every line. The longest is `record 18446744073709551615 pulses 255` with its newline; no log has a timer 255.
pub const LENGTH: usize = 39;

// Puts the verdict's line at the start of the buffer, and answers its length.
#[tactic(auto, unfolding(crate::specs::Line::line))]
pub fn put_line(out: &mut [u8; LENGTH], verdict: Verdict) -> usize
    ensures value { result ≡ length (lines.line verdict) }
    ensures written { out.new ≡ wrote out.old 0 (lines.line verdict) }
    ensures within { result ≤ length out.new }
{
    verdict_text(verdict).put(b"\n").copy_to(out)
}

#[tactic(auto, using(crate::proofs::text::Digits::byte_digits, crate::proofs::text::Digits::long_digits))]
fn verdict_text(verdict: Verdict) -> Text
    ensures text { result ≡ lines.verdict_text verdict }
    ensures within { length result ≤ 38 }
{
    let text = Text::new();
    match verdict {
        Verdict::Refused { log, number } => {
            let text = text.put(b"refused ").put(log_text(log));
            text.put(b" ").put_decimal(number as u64)
        }
        Verdict::Record { number, field } => {
            let text = text.put(b"record ").put_decimal(number);
            put_field(text.put(b" "), field)
        }
        Verdict::Partial(log) => text.put(b"partial ").put(log_text(log)),
        Verdict::Beginning(log) => text.put(b"beginning ").put(log_text(log)),
        Verdict::Equal => text.put(b"equal"),
    }
}

fn log_text(log: Log) -> &'static [u8]
    ensures text { result.now ≡ lines.log_text log }
    ensures within { length result.now ≤ 1 }
{
    match log {
        Log::First => b"1",
        Log::Second => b"2",
    }
}

#[tactic(auto, using(crate::proofs::text::Digits::byte_digits))]
fn put_field(text: Text, field: Field) -> Text
    requires { length text + 10 ≤ 39 }
    ensures put { result ≡ text ++ lines.field_text field }
    ensures within { length result ≤ length text + 10 }
{
    match field {
        Field::Number => text.put(b"number"),
        Field::Emitted => text.put(b"emitted"),
        Field::Levels => text.put(b"levels"),
        Field::Value => text.put(b"value"),
        Field::Cycles => text.put(b"cycles"),
        Field::Pulses(timer) => text.put(b"pulses ").put_decimal(timer as u64),
    }
}
