// What a line and its fields say, in both texts: whether it is skipped, its first word, the action, the block, and what a
// rule and a directive have in common.
// A field that is refused is told by the reason and its place in the line, the first from the left. The contracts say
// that each answer is what specs/ defines for the bytes, for every line.

#![tactic(auto)]

ghost use Rattle.std.specs.Prelude.{◌≡◌, get_or};
ghost use Rattle.records.specs.Services.{protocol_of, port_of};
ghost use Rattle.records.specs.Readers.{check, port_reader, readers, refused};
ghost use Rattle.records.specs.Records.{skipped, named, read_action, read_block, read_record};

use blocks::{BOUNDS, Block, FIELDS, Span};
use numbers::Unfit;
use parts::TAB;
use sets::{Action, Reason, Refusal};

// The fields of a `rule` or an `ask` line: its word and its action, and those of a block.
const RECORD_FIELDS: usize = 2 + FIELDS;

// Why a line is refused, and at which of its fields, counted from 1; 0 is the line as a whole, as in a `Refusal`.
#[derive(Clone, Copy, PartialEq, Eq)]
pub struct FieldRefusal {
    pub reason: Reason,
    pub field: u32,
}

impl FieldRefusal {
    // The refusal of a line as a whole.
    pub fn of_line(reason: Reason) -> FieldRefusal
        ensures { result ≡ refused reason 0 }
    {
        FieldRefusal { reason, field: 0 }
    }

    // The refusal in a text, at the line with this number.
    pub fn at_line(self, line: u32) -> Refusal
        ensures { result ≡ record { reason = self.reason; line = line; field = self.field } }
    {
        Refusal {
            reason: self.reason,
            line,
            field: self.field,
        }
    }
}

// What a rule and a directive have in common. A third type beside both: a reader does not know yet which it is.
#[derive(Clone, Copy)]
pub struct Record {
    pub action: Action,
    pub block: Block,
}

// Whether a line is skipped: it is empty, or starts with `#`.
pub fn is_skipped(line: &[u8]) -> bool
    ensures { result ≡ skipped line.now }
{
    match line {
        [] => true,
        [first, ..] => *first == b'#',
    }
}

// Whether the first field of a line is the word.
#[tactic(auto, using(parts::proofs::Parting::shown_bytes))]
pub fn is_named(line: &[u8], word: &[u8]) -> bool
    ensures { result ≡ named word.now line.now }
{
    parts::same(parts::field(line, 1), word)
}

// The action in a line's second field.
#[tactic(auto, using(parts::proofs::Parting::shown_bytes), unfolding(crate::specs::Records::read_action))]
pub fn read_action(line: &[u8]) -> Option<Action>
    ensures { result ≡ read_action line.now }
{
    // Words are compared, here and below, and not matched: an arm of a `match` tells a proof the bytes one by one, and no equation.
    let action = parts::field(line, 2);
    if parts::same(action, b"accept") {
        return Some(Action::Accept);
    }
    if parts::same(action, b"deny") {
        return Some(Action::Deny);
    }
    None
}

// A protocol field.
#[tactic(auto, unfolding(crate::specs::Services::protocol_of))]
fn protocol(text: &[u8]) -> Result<Span, Unfit>
    ensures { result ≡ protocol_of text.now }
{
    if parts::same(text, b"tcp") {
        return Ok(Span { low: 6, high: 6 });
    }
    if parts::same(text, b"udp") {
        return Ok(Span { low: 17, high: 17 });
    }
    if parts::same(text, b"icmp") {
        return Ok(Span { low: 1, high: 1 });
    }
    numbers::interval(text, Block::WIDEST.protocol.high)
}

// A port field.
#[tactic(auto, unfolding(crate::specs::Services::port_of))]
fn port(text: &[u8]) -> Result<Span, Unfit>
    ensures { result ≡ port_of text.now }
{
    numbers::interval(text, Block::WIDEST.port.high)
}

// Bounds, or the reason for which they are refused.
fn check(unread: Reason, unfit: Reason, bounds: Result<Span, Unfit>) -> Result<Span, Reason>
    ensures { result ≡ check unread unfit bounds }
{
    bounds.map_err(|fault| match fault {
        Unfit::Unread => unread,
        Unfit::NoSpan => unfit,
    })
}

// A field of a block by its reader; the fields of a block are counted from 0, and past the last one a port is read. By number:
// `readers` has them in this order.
fn read_field(field: usize, text: &[u8]) -> Result<Span, Reason>
    ensures { result ≡ get_or readers field port_reader text.now }
{
    match field {
        0 | 1 => check(
            Reason::AddressUnread,
            Reason::AddressUnfit,
            addresses::address(text),
        ),
        2 => check(Reason::ProtocolUnread, Reason::RangeFalls, protocol(text)),
        _ => check(Reason::PortUnread, Reason::RangeFalls, port(text)),
    }
}

// The block in the fields from k on, or the first of them that is refused. The fields are counted, since the laws of reading one field
// more (`read_more`, `read_stop` in proofs/Fieldwise) are about the count.
pub fn read_block(line: &[u8], k: u8) -> Result<Block, FieldRefusal>
    ensures { result ≡ read_block line.now k }
{
    let first = usize::from(k);
    let mut bounds: [u32; BOUNDS] = [0; BOUNDS];
    for i in 0..FIELDS {
        let n = first + i;
        match read_field(i, parts::field(line, n)) {
            Ok(span) => {
                bounds[2 * i] = span.low;
                bounds[2 * i + 1] = span.high;
            }
            Err(reason) => {
                let field = n as u32;
                return Err(FieldRefusal { reason, field });
            }
        }
    }
    Ok(Block::from(bounds))
}

// What a rule and a directive have in common, in a line whose word and action stand before the block; full tells that there is no room
// for one more.
#[tactic(auto, unfolding(crate::specs::Records::read_record))]
pub fn read_record(line: &[u8], full: bool) -> Result<Record, FieldRefusal>
    ensures { result ≡ read_record full line.now }
{
    if parts::count(line, TAB) != RECORD_FIELDS {
        return Err(FieldRefusal::of_line(Reason::FieldCount));
    }
    if full {
        return Err(FieldRefusal::of_line(Reason::Full));
    }
    let action = read_action(line).ok_or(FieldRefusal {
        reason: Reason::ActionUnread,
        field: 2,
    })?;
    let block = read_block(line, 3)?;
    Ok(Record { action, block })
}
