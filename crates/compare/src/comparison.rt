// A comparison of two logs, which may be longer than memory: it is begun with the first bytes of each and goes on piece by piece.
// What a call does not take of a piece is given again, with more bytes of that log behind it; at the end all that is left of each
// log is given to `end`.
ghost use Rattle.std.specs.Prelude.{◌≡◌, false, ◌+◌, ◌≤◌, min, length, IfNone, IfSome};
ghost use Rattle.script.specs.Format.{number_of};
ghost use Rattle.script.specs.Log.{layout};
ghost use Rattle.compare.specs.Verdict as verdicts;
ghost use Rattle.compare.specs.Comparison as comparisons;
ghost use Rattle.compare.specs.Private as private;
ghost use Rattle.compare.specs.declared.verdict.Log.TheVariants.{Second};
ghost use Rattle.compare.specs.declared.comparison.Comparison.TheVariants.{Undecided};

use crate::verdict::{Log, Verdict};
use script::entry::Field;
use script::format::Reason;
use script::{entry, format};

// What is known so far.
#[derive(Clone, Copy, Debug, PartialEq, Eq)]
pub enum Comparison {
    // So many records of each log are equal. The largest number stands for itself and every larger one.
    Undecided(u64),
    Decided(Verdict),
}

// What is known after a piece of each log, and how many bytes of either were taken.
#[derive(Clone, Copy, Debug, PartialEq, Eq)]
pub struct Step {
    pub comparison: Comparison,
    pub taken: usize,
}

impl Comparison {
    // Begins with the first bytes of each log: as many as a header has, or more, or all where there are fewer. Their headers are
    // judged; what is behind them is not looked at. The pieces begin behind the headers.
    pub fn begin(first: &[u8], second: &[u8]) -> Self
        ensures { result ≡ comparisons.begun first.now second.now }
    {
        match format::judge_log(first) {
            Err(reason) => refused(Log::First, reason),
            Ok(()) => begin_second(second),
        }
    }

    // Compares the whole records that both pieces have. Where they are equal, it takes them, and leaves what is behind them in
    // either piece; where one differs, or the verdict is known already, it takes nothing. (What it takes lies in both pieces: that
    // follows, and is what a caller needs.)
    #[tactic(auto, unfolding(crate::specs::Comparison::next))]
    pub fn next(self, first: &[u8], second: &[u8]) -> Step
        ensures comparison { result.comparison ≡ comparisons.next self first.now second.now }
        ensures taken { result.taken ≡ comparisons.taken self first.now second.now }
        ensures within { (result.taken ≤ length first.now) × (result.taken ≤ length second.now) }
    {
        match self {
            Comparison::Undecided(before) => compare_records(before, first, second),
            Comparison::Decided(_) => Step {
                comparison: self,
                taken: 0,
            },
        }
    }

    // The verdict, from all that is left of each log.
    pub fn end(self, first: &[u8], second: &[u8]) -> Verdict
        ensures { result ≡ comparisons.end self first.now second.now }
    {
        match self.next(first, second).comparison {
            Comparison::Undecided(_) => at_end(first, second),
            Comparison::Decided(verdict) => verdict,
        }
    }
}

fn begin_second(second: &[u8]) -> Comparison
    ensures { result ≡ verdicts.judged (comparisons.refused_as Second) second.now (Undecided 0) }
{
    match format::judge_log(second) {
        Err(reason) => refused(Log::Second, reason),
        Ok(()) => Comparison::Undecided(0),
    }
}

fn refused(which: Log, reason: Reason) -> Comparison
    ensures { result ≡ comparisons.refused_as which (number_of reason) }
{
    Comparison::Decided(Verdict::Refused {
        log: which,
        number: reason.number(),
    })
}

// The whole records that both pieces have, behind so many that are equal.
#[tactic(auto, using(crate::proofs::comparison::Records::records))]
fn compare_records(before: u64, first: &[u8], second: &[u8]) -> Step
    ensures comparison { result.comparison ≡ comparisons.next (Undecided before) first.now second.now }
    ensures taken { result.taken ≡ comparisons.taken (Undecided before) first.now second.now }
{
    let (first, _) = first.as_chunks::<{ entry::LENGTH }>();
    let (second, _) = second.as_chunks::<{ entry::LENGTH }>();
    let count = first.len().min(second.len());
    match differing_record(first, second, count) {
        Some(same) => Step {
            comparison: Comparison::Decided(Verdict::Record {
                number: plus(before, same as u64 + 1),
                field: differing_field(&first[same], &second[same]),
            }),
            taken: 0,
        },
        None => Step {
            comparison: Comparison::Undecided(plus(before, count as u64)),
            taken: entry::LENGTH * count,
        },
    }
}

// A count with more added to it. It stays at the largest number.
fn plus(count: u64, more: u64) -> u64
    ensures { result ≡ min (count + more) comparisons.largest }
{
    count.saturating_add(more)
}

// The first of so many records that differs. (A `zip` of the two, or this loop as a part of its caller's code, takes three to six
// instructions a record more than the twenty-three that it takes.)
#[inline(never)]
fn differing_record(
    first: &[[u8; entry::LENGTH]],
    second: &[[u8; entry::LENGTH]],
    count: usize,
) -> Option<usize>
    requires in_first { count ≤ length first.now }
    requires in_second { count ≤ length second.now }
    ensures none { IfNone result (private.EqualBelow count first.now second.now) }
    ensures some { IfSome result (private.DifferAt count first.now second.now) }
{
    for i in 0..count {
        if first[i] != second[i] {
            return Some(i);
        }
    }
    None
}

// The first field that differs in two records, which are known to differ.
fn differing_field(first: &[u8; entry::LENGTH], second: &[u8; entry::LENGTH]) -> Field
    requires { verdicts.alike first.now second.now ≡ false }
    ensures { private.DiffersIn layout first.now second.now result }
{
    let table = entry::layout();
    let (mut a, mut b) = (&first[..], &second[..]);
    for part in &table {
        if a[..part.width] != b[..part.width] {
            return part.field;
        }
        a = &a[part.width..];
        b = &b[part.width..];
    }
    unreachable!()
}

// The verdict where no record differs, from the lengths of what is left.
fn at_end(first: &[u8], second: &[u8]) -> Verdict
    ensures { result ≡ verdicts.at_end first.now second.now }
{
    if first.len() % entry::LENGTH != 0 {
        return Verdict::Partial(Log::First);
    }
    if second.len() % entry::LENGTH != 0 {
        return Verdict::Partial(Log::Second);
    }
    if first.len() < second.len() {
        return Verdict::Beginning(Log::First);
    }
    if second.len() < first.len() {
        return Verdict::Beginning(Log::Second);
    }
    Verdict::Equal
}

// Where one log has been given to its end, and `left`, less than a record, is all that is left of it: so many bytes of a piece of
// the other may be passed over, for the verdict does not depend on them. One whole record stays, which says that this log is the
// longer one.
pub fn surplus(left: &[u8], piece: &[u8]) -> usize
    ensures value { result ≡ comparisons.surplus left.now piece.now }
    ensures within { result ≤ length piece.now }
{
    if left.len() < entry::LENGTH {
        let whole = piece.len() / entry::LENGTH;
        entry::LENGTH * whole.saturating_sub(1)
    } else {
        0
    }
}
