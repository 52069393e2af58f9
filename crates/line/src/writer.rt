// Bytes written one after another into a buffer.
ghost use Rattle.std.specs.Prelude.{[], ◌∷◌, ◌+◌, ◌≤◌, length};
ghost use Rattle.line.specs.Line.{decimal, Written};

// A buffer, and the place in it where the next byte goes.
// Kept: the room that is asked (`Fits`) in each contract, since it is another number in each.
#[derive(Drop)]
pub struct Writer<'a> {
    pub out: &'a mut [u8],
    pub at: usize,
}

impl<'a> Writer<'a> {
    ghost use Rattle.line.specs.Writing.{Fits, Wrote};

    pub fn put_byte(&mut self, b: u8)
        requires { Fits self.old 1 }
        ensures { Wrote self.old self.new (b ∷ []) }
    {
        self.out[self.at] = b;
        self.at += 1;
    }

    pub fn put_bytes(&mut self, s: &[u8])
        requires { Fits self.old (length s.now) }
        ensures { Wrote self.old self.new s.now }
    {
        // Kept: byte by byte, since a copy of a slice is a call of memcpy, and the shift page's archive calls nothing outside.
        for b in s {
            self.put_byte(*b);
        }
    }

    // A number in decimal.
    pub fn put_decimal(&mut self, n: u64)
        requires { Fits self.old (length (decimal n)) }
        ensures { Wrote self.old self.new (decimal n) }
    {
        self.at = put_digits(self.out, self.at, n);
    }
}

// A number in decimal from `at` on; the answer is the place after it.
// Kept: by buffer and place. As a recursion of the writer, the shift page took 4 % more instructions.
#[tactic(auto, using(crate::specs::Laws::decimal_small, crate::specs::Laws::digits_more))]
fn put_digits(out: &mut [u8], at: usize, n: u64) -> usize
    requires { at + length (decimal n) ≤ length out.old }
    ensures { Written out.old out.new at result (decimal n) }
{
    if n < 10 {
        out[at] = b'0' + n as u8;
        at + 1
    } else {
        let last = put_digits(out, at, n / 10);
        out[last] = b'0' + (n % 10) as u8;
        last + 1
    }
}
