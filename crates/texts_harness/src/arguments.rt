// What a payload says where it stands for numbers: 32-bit numbers one behind the other, each lowest byte first. Bytes that it
// lacks count as 0.

use blocks::{Block, Packet, Span};

// The bytes of a payload that are not taken yet.
#[derive(Drop)]
pub(crate) struct Arguments<'a> {
    pub(crate) rest: &'a [u8],
}

impl<'a> Arguments<'a> {
    // Takes a byte.
    pub(crate) fn byte(&mut self) -> u8 {
        let Some((byte, rest)) = self.rest.split_first() else {
            return 0;
        };
        self.rest = rest;
        *byte
    }

    // Takes a number.
    pub(crate) fn number(&mut self) -> u32 {
        u32::from_le_bytes([self.byte(), self.byte(), self.byte(), self.byte()])
    }

    // Takes a number of 64 bits, the lowest byte first.
    pub(crate) fn long_number(&mut self) -> u64 {
        u64::from_le_bytes([
            self.byte(),
            self.byte(),
            self.byte(),
            self.byte(),
            self.byte(),
            self.byte(),
            self.byte(),
            self.byte(),
        ])
    }

    // Takes a packet's numbers.
    pub(crate) fn packet(&mut self) -> Packet {
        Packet {
            source: self.number(),
            destination: self.number(),
            protocol: self.number(),
            port: self.number(),
        }
    }

    // Takes a block's bounds.
    pub(crate) fn block(&mut self) -> Block {
        Block {
            source: self.span(),
            destination: self.span(),
            protocol: self.span(),
            port: self.span(),
        }
    }

    // Takes a span's bounds.
    fn span(&mut self) -> Span {
        Span {
            low: self.number(),
            high: self.number(),
        }
    }
}
