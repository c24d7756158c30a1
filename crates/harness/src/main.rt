// A test harness that makes the library's calls reachable from outside. It reads requests from standard input, one a line,
// makes the call that each asks for, and writes what the call gave to standard output. It ends where it finds no whole line, at
// the end of the input or at a line of more than 1,024 bytes that its buffer cuts off; and after a million lines. A read or a write
// that fails ends it too, with that error. An independent program writes requests and its answers to them, with which
// `oracle/harnesses` compares what is answered here; they are not kept. The functions are proved safe and ending for every input,
// not more.

#![tactic(auto)]

mod input;
mod lending;
mod output;
mod requests;
mod sessions;
mod shown;

use input::Requests;
use output::Output;
use sessions::Session;
use std::io;
use std::io::Result;

// More lines than an input has; a bound, so that the program ends for every input.
const MOST_LINES: usize = 1_000_000;

// Answers the requests on standard input in order, each on the sets as those before it left them.
fn main(rt: HostRuntime) -> Result<()> {
    let requests = Requests::new(rt.reader());
    let mut session = Session::new(Output::new(io::writer(&rt)));
    for request in requests.take(MOST_LINES) {
        session.answer(request?)?;
    }
    Ok(())
}
