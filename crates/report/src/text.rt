// Text written on a line, from left to right.
ghost use Rattle.std.specs.Prelude.{◌≡◌, ◌∷◌, [], ◌+◌, ◌*◌, ◌<◌, ◌≤◌, length};
ghost use Rattle.report.specs.Text.{glyph as Text·glyph, decimal, hex, Wrote};

// A line that is being written: the bytes lent for it, and the place after those that are written.
#[derive(Drop)]
pub struct Line<'l> {
    pub bytes: &'l mut [u8],
    pub at: usize,
}

// The digit d, of base 10 or 16.
fn glyph(d: u8) -> u8
    requires { d < 16 }
    ensures { result ≡ Text·glyph d }
{
    match d {
        0..=9 => b'0' + d,
        _ => b'A' + (d - 10),
    }
}

impl Line<'_> {
    // The bytes of s.
    pub fn put_bytes(&mut self, s: &[u8])
        requires { self.old.at + length s.now ≤ length self.old.bytes.now }
        ensures { Wrote self.old s.now self.new }
    {
        let end = self.at + s.len();
        self.bytes[self.at..end].copy_from_slice(s);
        self.at = end;
    }

    // The last d digits of n in base 10, or all of them where n has fewer.
    pub fn put_decimal(&mut self, d: usize, n: u64)
        requires { self.old.at + d ≤ length self.old.bytes.now }
        ensures put { Wrote self.old (decimal d n) self.new }
        ensures upper_bound { self.new.at ≤ self.old.at + d }
    {
        if d == 0 {
            return;
        }
        if n >= 10 {
            self.put_decimal(d - 1, n / 10);
        }
        self.put_bytes(&[glyph((n % 10) as u8)]);
    }

    // Two digits for each byte of s.
    pub fn put_hex(&mut self, s: &[u8])
        requires { self.old.at + 2 * length s.now ≤ length self.old.bytes.now }
        ensures { Wrote self.old (hex s.now) self.new }
    {
        for b in s {
            self.put_bytes(&[glyph(*b / 16), glyph(*b % 16)]);
        }
    }
}
