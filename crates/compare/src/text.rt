// A line in the making: texts and decimal numbers, put one behind the other.
ghost use Rattle.std.specs.Prelude.{ℕ, ◌≡◌, ◌+◌, ◌≤◌, List, [], ◌++◌, length, take};
ghost use Rattle.script.specs.Buffer.{wrote};
ghost use Rattle.script.specs.Text.{decimal};

use crate::line::LENGTH;
use std::marker::Model;

// What is put so far, and room for the rest of a line.
#[derive(Drop)]
pub(crate) struct Text {
    bytes: [u8; LENGTH],
    end: usize,
}

// Clauses see the bytes that are put.
impl Model for Text {
    ghost Value = { List ℕ };

    ghost view = { λ t. take t.end t.bytes };

    ghost invariant = { λ t. t.end ≤ 39 };
}

impl Text {
    pub(crate) fn new() -> Self
        ensures put { result ≡ [] }
        ensures len { length result ≡ 0 }
    {
        Text {
            bytes: [0; LENGTH],
            end: 0,
        }
    }

    pub(crate) fn put(mut self, more: &[u8]) -> Self
        requires { length self + length more.now ≤ 39 }
        ensures put { result ≡ self ++ more.now }
        ensures len { length result ≡ length self + length more.now }
    {
        let from = self.end;
        let end = from + more.len();
        self.bytes[from..end].copy_from_slice(more);
        self.end = end;
        self
    }

    // The digits of a number's tenth come before its last one. (By hand: the library promises the text of a number only in a String, and
    // no heap is used here.)
    #[tactic(auto, using(crate::proofs::text::Digits::digit_by_digit))]
    pub(crate) fn put_decimal(self, n: u64) -> Self
        requires { length self + length (decimal n) ≤ 39 }
        ensures put { result ≡ self ++ decimal n }
        ensures len { length result ≡ length self + length (decimal n) }
    {
        let digit = b'0' + (n % 10) as u8;
        if n < 10 {
            return self.put(&[digit]);
        }
        self.put_decimal(n / 10).put(&[digit])
    }

    // Copies what is put to the start of a buffer, and answers how much that is.
    pub(crate) fn copy_to(&self, out: &mut [u8; LENGTH]) -> usize
        ensures value { result ≡ length self.now }
        ensures written { out.new ≡ wrote out.old 0 self.now }
    {
        let text = &self.bytes[..self.end];
        out[..text.len()].copy_from_slice(text);
        text.len()
    }
}
