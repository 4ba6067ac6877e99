//! Decimal spellings, written into the unused rest of an output.
ghost use Rattle.std.specs.Prelude.{◌≡◌, ◌+◌, ◌≤◌, ◌++◌, length, take, drop};
ghost use Rattle.ports.specs.Spellings.{spelled};

use itoa::Buffer;

/// As many bytes suffice for every number of 32 bits: a sign, ten digits and a line feed.
pub const WIDEST: usize = 12;

/// Writes `n` and a line feed at the front of the rest, and says how many bytes they take.
fn write_decimal(rest: &mut [u8], n: i32) -> usize
    requires { 12 ≤ length rest.old }
    ensures count { result ≡ length (spelled n) }
    ensures short { result ≤ 12 }
    ensures bytes { rest.new ≡ spelled n ++ drop result rest.old }
{
    let mut buffer = Buffer::new();
    let text = buffer.format(n).as_bytes();
    let end = text.len();
    rest[..end].copy_from_slice(text);
    rest[end] = b'\n';
    end + 1
}

/// Bytes of which the first `used` are written.
#[derive(Drop)]
pub struct Output<'o> {
    pub bytes: &'o mut [u8],
    pub used: usize,
}

impl Output<'_> {
    /// Writes `n` and a line feed into the unused rest.
    pub fn put(&mut self, n: i32)
        requires { self.old.used + 12 ≤ length self.old.bytes.now }
        ensures count { self.new.used ≡ self.old.used + length (spelled n) }
        ensures short { self.new.used ≤ self.old.used + 12 }
        ensures bytes { self.new.bytes.now ≡ (take self.old.used self.old.bytes.now ++ spelled n) ++ drop self.new.used self.old.bytes.now }
        ensures lender { self.new.bytes.ghost_name ≡ self.old.bytes.ghost_name }
    {
        let used = self.used;
        let count = write_decimal(&mut self.bytes[used..], n);
        self.used = used + count;
    }
}
