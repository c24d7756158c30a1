// A test harness that makes the calls that read texts and those that print reachable from outside. It reads requests from
// standard input, makes the call that each asks for, and writes what the call gave to standard output. It ends at the first
// request that it cannot read, as it does at the end of the input. A read or a write that fails ends it too, with that error. An
// independent program writes requests and its answers to them, with which `oracle/harnesses` compares what is answered here; they
// are not kept. The functions are proved safe and ending for every input, not more.

#![tactic(auto)]

mod answer;
mod answers;
mod arguments;
mod input;
mod lending;
mod puts;
mod requests;
mod set_records;
mod shown;

use answers::Answers;
use input::Stream;
use requests::Request;
use std::io;
use std::io::Result;

// How many bytes are held at most, of the input and of an answer.
const ROOM: usize = 131_072;

// More requests than an input has; a bound, so that the program ends for every input.
const MOST_REQUESTS: usize = 1_000_000;

// Answers the requests on standard input in order.
fn main(rt: HostRuntime) -> Result<()> {
    let mut unread = [0; ROOM];
    let mut answer = [0; ROOM];
    let mut input = Stream::new(rt.reader(), &mut unread);
    let mut answers = Answers::new(io::writer(&rt), &mut answer);
    for _ in 0..MOST_REQUESTS {
        input.refill()?;
        let Some((request, rest)) = Request::read(input.unread()) else {
            return Ok(());
        };
        answers.answer(request)?;
        let left = rest.len();
        input.keep(left);
    }
    Ok(())
}
