// Text of a line, made piece by piece: what `write!` promises leaves open when it succeeds.
ghost use Rattle.std.specs.Prelude.{◌≡◌, ◌≤◌, length};

use crate::digits::hex_digits;
use arrayvec::ArrayString;
use itoa::{Buffer, Integer};
use std::str;

// at most CAP bytes, which lie in the value itself
#[derive(Clone, Copy)]
pub struct Text<const CAP: usize> {
    bytes: ArrayString<CAP>,
    ghost fits: { length bytes.bytes ≤ CAP },
}

// a whole line, or the beginning of one
pub type Line = Text<96>;

impl<const CAP: usize> Text<CAP> {
    ghost use Rattle.std.specs.Prelude.{◌+◌, [], ◌++◌};
    ghost use Rattle.report.specs.Texts.{text, hex_of};

    pub fn new() -> Self
        ensures written { text result ≡ [] }
        ensures long { length (text result) ≡ 0 }
    {
        Text {
            bytes: ArrayString::new(),
        }
    }

    pub fn as_slice(&self) -> &[u8]
        ensures value { result.now ≡ text self.now }
        ensures long { length result.now ≡ length (text self.now) }
    {
        self.bytes.as_str().as_bytes()
    }

    pub(crate) fn as_str(&self) -> &str
        ensures { result.now ≡ text self.now }
    {
        self.bytes.as_str()
    }

    // One piece more behind those so far. (In place: a chain that hands the text on copies it at each piece.)
    pub(crate) fn push(&mut self, more: &str)
        requires { length (text self.old) + length more.now ≤ CAP }
        ensures written { text self.new ≡ text self.old ++ more.now }
        ensures long { length (text self.new) ≡ length (text self.old) + length more.now }
    {
        self.bytes.push_str(more);
    }

    // A number in decimal, with no leading zeros.
    pub(crate) fn push_decimal<I: Integer>(&mut self, n: I)
        requires { length (text self.old) + I.MAX_STR_LEN ≤ CAP }
        ensures written { text self.new ≡ text self.old ++ I.text n }
        ensures short { length (text self.new) ≤ length (text self.old) + I.MAX_STR_LEN }
    {
        self.push(Buffer::new().format(n));
    }

    // 32 bits as 8 hexadecimal digits.
    pub(crate) fn push_hex(&mut self, bits: u32)
        requires { length (text self.old) + 8 ≤ CAP }
        ensures written { text self.new ≡ text self.old ++ hex_of bits }
        ensures long { length (text self.new) ≡ length (text self.old) + 8 }
    {
        self.push(str::from_utf8(&hex_digits(bits)).unwrap());
    }
}
