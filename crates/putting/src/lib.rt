// Bytes put into a lent buffer, and numbers spelled as bytes: decimal numbers and dotted quads. An output holds the buffer and the
// place from which on the next bytes are put. A call puts its bytes there, as far as there is room, and the place is then behind them.
// Each contract says which bytes these are (specs/Spelling) and that every other byte of the buffer stays (specs/Putting), and so
// leaves one outcome only.

#![tactic(auto)]

ghost use Rattle.std.specs.Prelude.{[], ◌∷◌, ◌%◌};
ghost use Rattle.parts.specs.Words.{dot};
ghost use Rattle.putting.specs.Putting.{PutOn};
ghost use Rattle.putting.specs.Spelling.{decimal, quad};

// A lent buffer, and the place in it from which on the next bytes are put.
#[derive(Drop)]
pub struct Output<'a> {
    pub bytes: &'a mut [u8],
    pub at: usize,
}

impl Output<'_> {
    // Puts a byte.
    pub fn put_byte(&mut self, byte: u8)
        ensures { PutOn self.old (byte ∷ []) self.new }
    {
        if self.at < self.bytes.len() {
            self.bytes[self.at] = byte;
            self.at += 1;
        }
    }

    // Puts bytes.
    pub fn put_bytes(&mut self, bytes: &[u8])
        ensures { PutOn self.old bytes.now self.new }
    {
        for byte in bytes {
            self.put_byte(*byte);
        }
    }

    // Puts a decimal number.
    pub fn put_decimal(&mut self, number: u64)
        ensures { PutOn self.old (decimal number) self.new }
    {
        let mut digits = [0u8; 20];
        let count = io::decimal(number, &mut digits);
        self.put_bytes(&digits[..count]);
    }

    // Puts a dotted quad, by division, as `quad` says it.
    pub fn put_quad(&mut self, address: u32)
        ensures { PutOn self.old (quad address) self.new }
    {
        self.put_decimal(u64::from(address / 16777216));
        self.put_octet(address / 65536);
        self.put_octet(address / 256);
        self.put_octet(address);
    }

    // Puts a dot and the last octet of a number.
    fn put_octet(&mut self, number: u32)
        ensures { PutOn self.old (dot ∷ decimal (number % 256)) self.new }
    {
        self.put_byte(b'.');
        self.put_decimal(u64::from(number % 256));
    }
}
