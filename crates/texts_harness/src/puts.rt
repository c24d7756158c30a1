// The calls of `putting` and then of `printing`, with arguments from a payload.

use crate::arguments::Arguments;
use putting::Output;
use sets::Label;

// The call with this number, in the order of their sources; the start if there is none. A request names a call by its number, and
// this is the one place where it is read, so an enum of the calls would be no plainer.
pub(crate) fn put(call: usize, output: &mut [u8], start: usize, payload: &[u8]) -> usize {
    let mut arguments = Arguments { rest: payload };
    let mut output = Output {
        bytes: output,
        at: start,
    };
    match call {
        0 => output.put_byte(arguments.byte()),
        1 => output.put_bytes(payload),
        2 => output.put_decimal(arguments.long_number()),
        3 => output.put_quad(arguments.number()),
        4 => put_verdict(&mut output, arguments),
        5 => printing::put_total(&mut output, arguments.long_number()),
        6 => put_block(&mut output, arguments),
        7 => put_refused(&mut output, arguments),
        8 => printing::put_unreadable(&mut output, payload),
        _ => {}
    }
    output.at
}

// The arguments are kind, rule, the two directives and the packet.
fn put_verdict(output: &mut Output, mut arguments: Arguments<'_>) {
    let label = label(arguments.number(), arguments.number());
    let accept = arguments.number();
    let deny = arguments.number();
    let packet = arguments.packet();
    printing::put_verdict(output, label, accept, deny, packet)
}

// The label of a kind modulo 6, with this rule if it has one. No `From`: both types are of other crates.
fn label(kind: u32, rule: u32) -> Label {
    match kind % 6 {
        0 => Label::Good,
        1 => Label::Conflict,
        2 => Label::Wrong(rule),
        3 => Label::Unasked(rule),
        4 => Label::UnmetAccept,
        _ => Label::UnmetDeny,
    }
}

// The arguments are kind, rule and eight bounds.
fn put_block(output: &mut Output, mut arguments: Arguments<'_>) {
    let kind = arguments.number();
    let rule = arguments.number();
    let block = arguments.block();
    printing::put_block(output, kind, rule, block)
}

// The arguments are number, line and field, then the name.
fn put_refused(output: &mut Output, mut arguments: Arguments<'_>) {
    let number = arguments.number();
    let line = arguments.number();
    let field = arguments.number();
    printing::put_refused(output, arguments.rest, number, line, field)
}
