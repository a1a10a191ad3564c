// Text in lent bytes, stored one byte after another, as far as they fit.
ghost use Rattle.std.specs.Prelude.{◌≡◌, [], ◌∷◌, map};
ghost use Rattle.lines.specs.Lines.{digit, decimal, line, spaced};
ghost use Rattle.lines.specs.Output.{Writes};

// The lent bytes, and the place of the next one.
#[derive(Drop)]
pub struct Output<'a> {
    bytes: &'a mut [u8],
    at: usize,
}

// The byte of the last decimal digit.
fn digit_of(n: u64) -> u8
    ensures { result ≡ digit n }
{
    b'0' + (n % 10) as u8
}

impl<'a> Output<'a> {
    pub fn new(bytes: &'a mut [u8]) -> Output<'a>
        ensures same_reference { result.bytes.ghost_name ≡ bytes.entry.ghost_name }
        ensures bytes { result.bytes.now ≡ bytes.old }
        ensures start { result.at ≡ 0 }
    {
        Output { bytes, at: 0 }
    }

    // How many bytes are stored.
    pub fn len(&self) -> usize
        ensures { result ≡ self.now.at }
    {
        self.at
    }

    pub fn byte(&mut self, byte: u8)
        ensures { Writes self.old (byte ∷ []) self.new }
    {
        if self.at < self.bytes.len() {
            self.bytes[self.at] = byte;
            self.at += 1;
        }
    }

    pub fn bytes(&mut self, bytes: &[u8])
        ensures { Writes self.old bytes.now self.new }
    {
        for byte in bytes {
            self.byte(*byte);
        }
    }

    // A number in decimal.
    pub fn number(&mut self, n: u64)
        ensures { Writes self.old (decimal n) self.new }
    {
        if n >= 10 {
            self.number(n / 10);
        }
        self.byte(digit_of(n));
    }

    // Each number after a space.
    fn spaced(&mut self, numbers: &[u32])
        ensures { Writes self.old (spaced numbers.now) self.new }
    {
        for n in numbers {
            self.byte(b' ');
            self.number(*n as u64);
        }
    }

    // A line of numbers.
    pub fn line(&mut self, numbers: &[u32])
        ensures { Writes self.old (line (map decimal numbers.now)) self.new }
    {
        if let [first, rest @ ..] = numbers {
            self.number(*first as u64);
            self.spaced(rest);
        }
        self.byte(b'\n');
    }
}
