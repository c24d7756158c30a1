// The answers. An answer is a line of words and numbers, parted by one space; behind some, bytes and one more byte 10.

ghost use Rattle.std.specs.Prelude.{◌≤◌, length};

use crate::answer::Answer;
use crate::lending;
use crate::requests::{Request, Texts};
use crate::set_records::filled;
use crate::shown::Shown;
use lookup::Which;
use sets::{MOST_DIRECTIVES, MOST_EXCEPTIONS, MOST_RULES, Policy, Refusal, Rules};
use std::fmt::Write;
use std::{fmt, io};

// The most times that a text is read.
const MOST_TIMES: usize = 1_000_000;

// Where answers are written, and the one that is made.
#[derive(Drop)]
pub(crate) struct Answers<'a, W> {
    output: W,
    answer: Answer<'a>,
}

impl<'a, W: io::Write> Answers<'a, W> {
    // No answer yet. Each is made in the buffer.
    pub(crate) fn new(output: W, buffer: &'a mut [u8]) -> Answers<'a, W> {
        Answers {
            output,
            answer: Answer::new(buffer),
        }
    }

    // Makes the call that a request asks for, and writes what it gave, all at once.
    pub(crate) fn answer(&mut self, request: Request<'_>) -> io::Result<()> {
        self.answer.clear();
        self.tell(request)?;
        self.output.write_all(self.answer.bytes())
    }

    // What the call that a request asks for gave.
    fn tell(&mut self, request: Request<'_>) -> fmt::Result {
        match request {
            Request::Rules { times, text } => self.tell_rules(read_often(text, times)),
            Request::Policy { text } => self.tell_policy(policy_text::read_policy(text)),
            Request::Field { number, line } => self.tell_bytes("field", parts::field(line, number)),
            Request::Line {
                which,
                number,
                texts,
            } => self.tell_line(which, number, texts),
            Request::Report {
                readable,
                room,
                texts,
            } => self.tell_report(readable, room, texts),
            Request::Put {
                call,
                start,
                payload,
            } => self.tell_put(call, start, payload),
        }
    }

    // The refusal, the count, the rules, and how many records past the count are not zeros. Beside a refusal stands the empty set.
    fn tell_rules(&mut self, read: Result<Rules, Refusal>) -> fmt::Result {
        let rules = read.unwrap_or(Rules::EMPTY);
        let (told, past) = rules.records.split_at(rules.count.min(MOST_RULES));
        writeln!(
            self.answer,
            "rules{} {}{} past {}",
            Shown(&read),
            rules.count,
            Shown(told),
            filled(past)
        )
    }

    // The same of a policy, with two counts.
    fn tell_policy(&mut self, read: Result<Policy, Refusal>) -> fmt::Result {
        let policy = read.unwrap_or(Policy::EMPTY);
        let directive_count = policy.directive_count.min(MOST_DIRECTIVES);
        let exception_count = policy.exception_count.min(MOST_EXCEPTIONS);
        let (directives, directives_past) = policy.directives.split_at(directive_count);
        let (exceptions, exceptions_past) = policy.exceptions.split_at(exception_count);
        writeln!(
            self.answer,
            "policy{} {} {}{}{} past {}",
            Shown(&read),
            policy.directive_count,
            policy.exception_count,
            Shown(directives),
            Shown(exceptions),
            filled(directives_past) + filled(exceptions_past)
        )
    }

    // The line of the record with this number in one of the texts.
    fn tell_line(&mut self, which: Which, number: usize, texts: Texts<'_>) -> fmt::Result {
        let line = lookup::record_line(texts.rules, texts.policy, which, number);
        self.tell_bytes("line", line)
    }

    // The place that the report gave, and the array after it.
    fn tell_report(&mut self, readable: usize, room: usize, texts: Texts<'_>) -> fmt::Result {
        let mut bytes = lending::marked();
        let place = lending::report(readable, room, texts, &mut bytes);
        self.tell_array("report", place, &bytes)
    }

    // The place that a call of `puts` gave, and the array after it.
    fn tell_put(&mut self, call: usize, start: usize, payload: &[u8]) -> fmt::Result {
        let mut bytes = lending::marked();
        let place = lending::put(call, start, payload, &mut bytes);
        self.tell_array("put", place, &bytes)
    }

    // How many bytes there are, and on the next line these.
    fn tell_bytes(&mut self, word: &str, bytes: &[u8]) -> fmt::Result {
        self.tell_array(word, bytes.len(), bytes)
    }

    // A number, and on the next line bytes.
    fn tell_array(&mut self, word: &str, number: usize, bytes: &[u8]) -> fmt::Result {
        writeln!(self.answer, "{word} {number}")?;
        self.answer.put_bytes(bytes);
        self.answer.put_bytes(b"\n");
        Ok(())
    }
}

// The last of so many readings of a rule text, and of one at least. How much a turn reads depends on what the turn before
// gave, though that is always the same; so no turn can be left out when the program is compiled.
fn read_often(text: &[u8], times: usize) -> Result<Rules, Refusal> {
    let first = rule_text::read_rules(text);
    let mut read = first;
    for _ in 1..times.min(MOST_TIMES) {
        let length = length_if(text, read.is_ok() == first.is_ok());
        read = rule_text::read_rules(&text[..length]);
    }
    read
}

// The length of a text if this holds, else 0.
fn length_if(text: &[u8], holds: bool) -> usize
    ensures { result ≤ length text.now }
{
    if holds { text.len() } else { 0 }
}
