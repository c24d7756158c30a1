// Spans, blocks and packets as values that a program can hold, and the calls over one block: whether it holds a packet,
// whether it lies inside another, and narrowing in one field. Bounds and numbers have 32 bits, so those of the small
// fields can be past the largest; every call answers for every value all the same. Each contract says that the answer is
// what `meaning` defines for the lists that the values stand for (specs/Vocabulary), and so leaves one answer only.

#![tactic(auto)]

ghost use Rattle.std.specs.Prelude.{◌&&◌, ◌≡◌, leb};
ghost use Rattle.meaning.specs.Buffers.{bounds};
ghost use Rattle.meaning.specs.Blocks.{within, holds, inside, widest};
ghost use Rattle.meaning.specs.Fields.{fields, lowest};
ghost use Rattle.meaning.specs.Form.{block_in_form, packet_in_form};
ghost use Rattle.blocks.specs.Inner.{rising, SharedIn, narrowed_or};
ghost use Rattle.blocks.specs.Vocabulary.{span_of, block_of, packet_of, NarrowedIn};

// The fields of a packet.
pub const FIELDS: usize = 4;

// The numbers of a block: two bounds for each field.
pub const BOUNDS: usize = 2 * FIELDS;

// The numbers from low to high, both included; none if low is above high.
#[derive(Clone, Copy, PartialEq, Eq)]
pub struct Span {
    pub low: u32,
    pub high: u32,
}

// A span for each field.
#[derive(Clone, Copy, PartialEq, Eq)]
pub struct Block {
    pub source: Span,
    pub destination: Span,
    pub protocol: Span,
    pub port: Span,
}

// A number for each field.
#[derive(Clone, Copy, PartialEq, Eq)]
pub struct Packet {
    pub source: u32,
    pub destination: u32,
    pub protocol: u32,
    pub port: u32,
}

// What narrowing hands back: the block, and whether numbers were shared. Where none were, the block is as it was.
// No `Option`: `NarrowedIn` promises the block in both cases, so that one narrowing may follow another.
#[derive(Clone, Copy, PartialEq, Eq)]
pub struct Narrowed {
    pub block: Block,
    pub shared: bool,
}

impl Packet {
    // The lowest packet, all zeros.
    pub const LOWEST: Packet = Packet {
        source: 0,
        destination: 0,
        protocol: 0,
        port: 0,
    };

    // The constant as a call, so that a contract can say of it what its name says.
    pub fn lowest() -> Packet
        ensures { packet_of result ≡ lowest fields }
    {
        Packet::LOWEST
    }

    // Whether the packet is in form: no number past its field's largest.
    pub fn in_form(self) -> bool
        ensures { result ≡ packet_in_form fields (packet_of self) }
    {
        Block::WIDEST.holds(self)
    }
}

impl From<[u32; FIELDS]> for Packet {
    ghost from_gives = { λ numbers packet. packet_of packet ≡ numbers };

    // The packet with these numbers, in the order of the fields.
    fn from(numbers: [u32; FIELDS]) -> Packet {
        let [source, destination, protocol, port] = numbers;
        Packet {
            source,
            destination,
            protocol,
            port,
        }
    }
}

impl From<[u32; BOUNDS]> for Block {
    ghost from_gives = { λ numbers block. bounds (block_of block) ≡ numbers };

    // The block with these bounds, a low and a high one for each field.
    #[tactic(auto, unfolding(meaning::specs::Buffers::bounds))]
    fn from(numbers: [u32; BOUNDS]) -> Block {
        let [
            source_low,
            source_high,
            destination_low,
            destination_high,
            protocol_low,
            protocol_high,
            port_low,
            port_high,
        ] = numbers;
        Block {
            source: Span {
                low: source_low,
                high: source_high,
            },
            destination: Span {
                low: destination_low,
                high: destination_high,
            },
            protocol: Span {
                low: protocol_low,
                high: protocol_high,
            },
            port: Span {
                low: port_low,
                high: port_high,
            },
        }
    }
}

impl From<Block> for [u32; BOUNDS] {
    ghost from_gives = { λ block numbers. numbers ≡ bounds (block_of block) };

    // The low and the high bound of each field, in the order of the fields.
    #[tactic(auto, unfolding(meaning::specs::Buffers::bounds))]
    fn from(block: Block) -> [u32; BOUNDS] {
        [
            block.source.low,
            block.source.high,
            block.destination.low,
            block.destination.high,
            block.protocol.low,
            block.protocol.high,
            block.port.low,
            block.port.high,
        ]
    }
}

#[tactic(auto, unfolding(meaning::specs::Blocks::narrow, meaning::specs::Blocks::narrows, meaning::specs::Blocks::narrow_span))]
impl Block {
    // The widest block, open in all four fields.
    pub const WIDEST: Block = Block {
        source: Span {
            low: 0,
            high: 4294967295,
        },
        destination: Span {
            low: 0,
            high: 4294967295,
        },
        protocol: Span { low: 0, high: 255 },
        port: Span {
            low: 0,
            high: 65535,
        },
    };

    // The constant as a call, so that a contract can say of it what its name says.
    pub fn widest() -> Block
        ensures { block_of result ≡ widest fields }
    {
        Block::WIDEST
    }

    // Whether the block holds the packet: each span its number.
    #[tactic(auto, unfolding(meaning::specs::Blocks::holds))]
    pub fn holds(self, packet: Packet) -> bool
        ensures { result ≡ holds (block_of self) (packet_of packet) }
    {
        self.source.holds(packet.source)
            && self.destination.holds(packet.destination)
            && self.protocol.holds(packet.protocol)
            && self.port.holds(packet.port)
    }

    // Whether the block lies inside the other, bound by bound.
    #[tactic(auto, unfolding(meaning::specs::Blocks::inside))]
    pub fn inside(self, other: Block) -> bool
        ensures { result ≡ inside (block_of self) (block_of other) }
    {
        self.source.inside(other.source)
            && self.destination.inside(other.destination)
            && self.protocol.inside(other.protocol)
            && self.port.inside(other.port)
    }

    // Whether the block is in form: no low above its high, no number past its field's largest.
    pub fn in_form(self) -> bool
        ensures { result ≡ block_in_form fields (block_of self) }
    {
        self.rising() && self.inside(Block::WIDEST)
    }

    // The block with its sources narrowed to those that it shares with the bounds; the other fields stay. One narrowing
    // may follow another: `b.narrow_source(s).block.narrow_port(p).block`. A call for each field, with one body below: `NarrowedIn` has the
    // field, and callers name these four calls.
    pub fn narrow_source(self, bounds: Span) -> Narrowed
        ensures { NarrowedIn 0 bounds self result }
    {
        let shared = self.source.shared(bounds);
        self.narrowed(shared.map(|span| Block {
            source: span,
            ..self
        }))
    }

    // The same for its destinations.
    pub fn narrow_destination(self, bounds: Span) -> Narrowed
        ensures { NarrowedIn 1 bounds self result }
    {
        let shared = self.destination.shared(bounds);
        self.narrowed(shared.map(|span| Block {
            destination: span,
            ..self
        }))
    }

    // The same for its protocols.
    pub fn narrow_protocol(self, bounds: Span) -> Narrowed
        ensures { NarrowedIn 2 bounds self result }
    {
        let shared = self.protocol.shared(bounds);
        self.narrowed(shared.map(|span| Block {
            protocol: span,
            ..self
        }))
    }

    // The same for its ports.
    pub fn narrow_port(self, bounds: Span) -> Narrowed
        ensures { NarrowedIn 3 bounds self result }
    {
        let shared = self.port.shared(bounds);
        self.narrowed(shared.map(|span| Block { port: span, ..self }))
    }

    // What narrowing hands back, of the block with the numbers shared, if there are any.
    fn narrowed(self, shared: Option<Block>) -> Narrowed
        ensures { result ≡ narrowed_or self shared }
    {
        Narrowed {
            block: shared.unwrap_or(self),
            shared: shared.is_some(),
        }
    }

    // Whether no low is above its high.
    #[tactic(auto, unfolding(crate::specs::Inner::rising))]
    fn rising(self) -> bool
        ensures { result ≡ rising (block_of self) }
    {
        self.source.low <= self.source.high
            && self.destination.low <= self.destination.high
            && self.protocol.low <= self.protocol.high
            && self.port.low <= self.port.high
    }
}

impl Span {
    // Whether the span holds the number.
    #[tactic(auto, unfolding(meaning::specs::Blocks::within))]
    fn holds(self, number: u32) -> bool
        ensures { result ≡ within (span_of self) number }
    {
        self.low <= number && number <= self.high
    }

    // Whether both bounds lie between the other's.
    fn inside(self, other: Span) -> bool
        ensures { result ≡ (leb other.low self.low && leb self.high other.high) }
    {
        other.low <= self.low && self.high <= other.high
    }

    // The numbers shared with the bounds, if there are any.
    #[tactic(auto, unfolding(meaning::specs::Blocks::shares))]
    fn shared(self, bounds: Span) -> Option<Span>
        ensures { SharedIn (span_of self) (span_of bounds) result }
    {
        let low = self.low.max(bounds.low);
        let high = self.high.min(bounds.high);
        if low <= high {
            Some(Span { low, high })
        } else {
            None
        }
    }
}
