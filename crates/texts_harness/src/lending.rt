// Buffers that are lent to the calls that put bytes. A buffer is the front of an array whose bytes tell whether they were
// changed; those behind it are not lent and must stay.

use crate::puts;
use crate::requests::Texts;

// The most bytes that a report is lent, and how many there are with those behind.
const MOST_ROOM: usize = 4096;

pub(crate) const REPORT_BYTES: usize = 4160;

// The bytes that a put is lent, and how many there are with those behind.
const PUT_ROOM: usize = 200;

pub(crate) const PUT_BYTES: usize = 216;

// The place that a report gives, lent the first bytes, at most so many. The rules can be read if `readable` is odd, the policy if
// half of it is: a request tells both by one number.
pub(crate) fn report(
    readable: usize,
    room: usize,
    texts: Texts<'_>,
    bytes: &mut [u8; REPORT_BYTES],
) -> usize {
    let room = room.min(MOST_ROOM);
    let rules = (readable % 2 == 1).then_some(texts.rules);
    let policy = (readable / 2 % 2 == 1).then_some(texts.policy);
    report::report(rules, policy, &mut bytes[..room])
}

// The place that a call of `puts` gives, lent the first bytes.
pub(crate) fn put(call: usize, start: usize, payload: &[u8], bytes: &mut [u8; PUT_BYTES]) -> usize {
    puts::put(call, &mut bytes[..PUT_ROOM], start, payload)
}

// The array before it is lent: the lowest eight bits of 7 * i + 1 at each place i.
pub(crate) fn marked<const N: usize>() -> [u8; N] {
    let mut bytes = [0; N];
    let mut mark = 1u8;
    for byte in bytes.as_mut_slice() {
        *byte = mark;
        mark = mark.wrapping_add(7);
    }
    bytes
}
