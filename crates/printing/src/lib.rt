// Each kind of line that the program prints, as bytes put on an output: from its place on, as far as there is room. Each contract says
// which bytes these are (specs/Lines); that the place is then behind them and every other byte of the buffer stays, and so one outcome
// is left, is what `putting` says of every text that is put.

#![tactic(auto)]

ghost use Rattle.std.specs.Prelude.{◌≡◌, [], ◌∷◌, map};
ghost use Rattle.blocks.specs.Vocabulary.{block_of, packet_of};
ghost use Rattle.sets.specs.Vocabulary.{label_of};
ghost use Rattle.putting.specs.Putting.{PutOn};
ghost use Rattle.printing.specs.Inner.{PutFields, spelled};
ghost use Rattle.printing.specs.Lines.{line, word, verdict_line, blocks_line, block_line, refused_line, unreadable_line};

use blocks::{Block, Packet};
use putting::Output;
use sets::Label;

// A field of a line, by how it is spelled.
#[derive(Clone, Copy)]
enum Field<'a> {
    Word(&'a [u8]),
    Address(u32),
    Number(u32),
    Total(u64),
}

// Puts the verdict's line. A directive is a number and no `Option`: `verdict_line` spells it as it is given, 0 too.
pub fn put_verdict(
    output: &mut Output,
    label: Label,
    accept_directive: u32,
    deny_directive: u32,
    packet: Packet,
)
    ensures { PutOn output.old (verdict_line (record { label = label_of label; accept_directive = accept_directive; deny_directive = deny_directive; packet = packet_of packet })) output.new }
{
    if label == Label::Good {
        return put_line(output, b"verdict", &[Field::Word(b"conforms")]);
    }
    let fields = [
        Field::Word(word(label)),
        Field::Number(label.rule()),
        Field::Number(accept_directive),
        Field::Number(deny_directive),
        Field::Address(packet.source),
        Field::Address(packet.destination),
        Field::Number(packet.protocol),
        Field::Number(packet.port),
    ];
    put_line(output, b"verdict", &fields)
}

// Puts the line that tells how many blocks there are.
#[tactic(auto, unfolding(crate::specs::Lines::blocks_line))]
pub fn put_total(output: &mut Output, total: u64)
    ensures { PutOn output.old (blocks_line total) output.new }
{
    put_line(output, b"blocks", &[Field::Total(total)])
}

// Puts a block's line. Kind and rule are any two numbers, as they stand in a row of the listing.
#[tactic(auto, unfolding(crate::specs::Lines::block_line))]
pub fn put_block(output: &mut Output, kind: u32, rule: u32, block: Block)
    ensures { PutOn output.old (block_line kind rule (block_of block)) output.new }
{
    let fields = [
        Field::Number(kind),
        Field::Number(rule),
        Field::Address(block.source.low),
        Field::Address(block.source.high),
        Field::Address(block.destination.low),
        Field::Address(block.destination.high),
        Field::Number(block.protocol.low),
        Field::Number(block.protocol.high),
        Field::Number(block.port.low),
        Field::Number(block.port.high),
    ];
    put_line(output, b"block", &fields)
}

// Puts the line for a file that is refused: the refusal's number, line and field, and so any three numbers.
#[tactic(auto, unfolding(crate::specs::Lines::refused_line))]
pub fn put_refused(output: &mut Output, name: &[u8], number: u32, line: u32, field: u32)
    ensures { PutOn output.old (refused_line name.now (record { number = number; line = line; field = field })) output.new }
{
    let fields = [
        Field::Word(name),
        Field::Number(number),
        Field::Number(line),
        Field::Number(field),
    ];
    put_line(output, b"refused", &fields)
}

// Puts the line for a file that cannot be read.
#[tactic(auto, unfolding(crate::specs::Lines::unreadable_line))]
pub fn put_unreadable(output: &mut Output, name: &[u8])
    ensures { PutOn output.old (unreadable_line name.now) output.new }
{
    put_line(output, b"unreadable", &[Field::Word(name)])
}

// Puts a line: its first field, the others with a space before each, and the byte that ends it.
fn put_line(output: &mut Output, first: &[u8], fields: &[Field])
    ensures { PutOn output.old (line first.now (map spelled fields.now)) output.new }
{
    output.put_bytes(first);
    put_fields(output, fields);
    output.put_byte(b'\n');
}

// Puts fields.
fn put_fields(output: &mut Output, fields: &[Field])
    ensures { PutFields output.old (map spelled fields.now) output.new }
{
    for field in fields {
        put_field(output, *field);
    }
}

// Puts a space and a field.
fn put_field(output: &mut Output, field: Field)
    ensures { PutFields output.old (spelled field.entry ∷ []) output.new }
{
    output.put_byte(b' ');
    match field {
        Field::Word(word) => output.put_bytes(word),
        Field::Address(address) => output.put_quad(address),
        Field::Number(number) => output.put_decimal(u64::from(number)),
        Field::Total(total) => output.put_decimal(total),
    }
}

// The word of a label.
fn word(label: Label) -> &'static [u8]
    ensures { result.now ≡ word (label_of label) }
{
    match label {
        Label::Good => b"conforms",
        Label::Conflict => b"conflict",
        Label::Wrong(_) => b"wrong",
        Label::Unasked(_) => b"unasked",
        Label::UnmetAccept => b"unmet-accept",
        Label::UnmetDeny => b"unmet-deny",
    }
}
