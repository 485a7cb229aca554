// The text of a fraction.
ghost use Rattle.std.specs.Prelude.{Some, ◌≡◌, ◌+◌, ◌≤◌, ◌++◌, length, take, drop};
ghost use Rattle.cip_rational.specs.NumberText.{fraction_text};

use crate::fraction::Frac;
use itoa::Buffer;
use std::fmt;

// Copies the text into the buffer at that place, and answers where it ends.
fn put(buffer: &mut [u8; 84], at: usize, text: &[u8]) -> usize
    requires { at + length text.now ≤ 84 }
    ensures end { result ≡ at + length text.now }
    ensures text { take result buffer.new ≡ take at buffer.old ++ text.now }
    ensures rest { drop result buffer.new ≡ drop result buffer.old }
{
    let end = at + text.len();
    buffer[at..end].copy_from_slice(text);
    end
}

impl Frac {
    /// Writes the text of the number at the front of the buffer, and answers how many bytes it has. It is `p`, or
    /// `p/q` in lowest terms, with a `-` before a p below 0. The buffer's bytes after the text stay as they were.
    pub fn write_into(&self, buffer: &mut [u8; 84]) -> usize
        ensures within { result ≤ 84 }
        ensures text { take result buffer.new ≡ fraction_text self.now }
        ensures rest { drop result buffer.new ≡ drop result buffer.old }
    {
        let (numerator, denominator) = self.terms();
        let mut digits = Buffer::new();
        let end = put(buffer, 0, digits.format(numerator).as_bytes());
        if denominator == 1 {
            return end;
        }
        let start = put(buffer, end, b"/");
        put(buffer, start, digits.format(denominator).as_bytes())
    }
}

impl fmt::Display for Frac {
    ghost output = { λ x. Some (fraction_text x) };

    fn fmt<W: fmt::Write>(&self, f: &mut fmt::Formatter<W>) -> fmt::Result {
        let (numerator, denominator) = self.terms();
        if denominator == 1 {
            write!(f, "{numerator}")
        } else {
            write!(f, "{numerator}/{denominator}")
        }
    }
}
