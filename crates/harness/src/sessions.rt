// The sets as requests make them, and the answers. An answer is a line of words and numbers, parted by one space.

use crate::lending;
use crate::output::Output;
use crate::requests::Request;
use crate::shown::Shown;
use blocks::{Block, Packet, Span};
use sets::{Action, Directive, Exception, Label, Policy, Rule, Rules};
use std::fmt::Write as _;
use std::{fmt, io};

// The sets as the requests left them, and where answers are made.
#[derive(Drop)]
pub(crate) struct Session<W> {
    rules: Rules,
    policy: Policy,
    output: Output<W>,
}

impl<W: io::Write> Session<W> {
    // Empty sets.
    pub(crate) fn new(output: Output<W>) -> Session<W> {
        Session {
            rules: Rules::EMPTY,
            policy: Policy::EMPTY,
            output,
        }
    }

    // Changes the sets or writes an answer, as a request asks.
    pub(crate) fn answer(&mut self, request: Request) -> io::Result<()> {
        self.make_answer(request)?;
        self.output.send()
    }

    // Changes the sets or makes an answer. No error comes: the output takes each text.
    fn make_answer(&mut self, request: Request) -> fmt::Result {
        match request {
            Request::Nothing => {}
            Request::NewRules { count } => self.new_rules(count),
            Request::SetRule { number, rule } => self.set_rule(number, rule),
            Request::NewPolicy {
                directives,
                exceptions,
            } => self.new_policy(directives, exceptions),
            Request::SetDirective { number, directive } => self.set_directive(number, directive),
            Request::SetException { number, exception } => self.set_exception(number, exception),
            Request::Form(packet) => self.tell_form(packet)?,
            Request::Sets => self.tell_sets()?,
            Request::Label(packet) => self.tell_label(packet)?,
            Request::At(packet) => self.tell_at(packet)?,
            Request::Verdict => self.tell_verdict()?,
            Request::Listing { lent } => self.tell_listing(lent)?,
            Request::InForm(block) => self.tell_flag("block", block.in_form())?,
            Request::Holds(block, packet) => self.tell_flag("holds", block.holds(packet))?,
            Request::Inside(block, other) => self.tell_flag("inside", block.inside(other))?,
            Request::Narrow {
                field,
                bounds,
                block,
            } => self.tell_narrow(field, bounds, block)?,
            Request::Chain { bounds, block } => self.tell_chain(bounds, block)?,
            Request::Widest => self.tell_widest()?,
        }
        Ok(())
    }

    // The empty rules with this count.
    fn new_rules(&mut self, count: usize) {
        self.rules = Rules {
            count,
            ..Rules::empty()
        };
    }

    // The empty policy with these counts.
    fn new_policy(&mut self, directives: usize, exceptions: usize) {
        self.policy = Policy {
            directive_count: directives,
            exception_count: exceptions,
            ..Policy::empty()
        };
    }

    // Writes the record of this number, if the rules have a place for it.
    fn set_rule(&mut self, number: u32, rule: Rule) {
        if let Some(record) = record_mut(&mut self.rules.records, number) {
            *record = rule;
        }
    }

    // The same for the directives.
    fn set_directive(&mut self, number: u32, directive: Directive) {
        if let Some(record) = record_mut(&mut self.policy.directives, number) {
            *record = directive;
        }
    }

    // The same for the exceptions.
    fn set_exception(&mut self, number: u32, exception: Exception) {
        if let Some(record) = record_mut(&mut self.policy.exceptions, number) {
            *record = exception;
        }
    }

    // What is refused of the rules, the policy and the packet, each alone, then of all; and whether the packet is in form.
    fn tell_form(&mut self, packet: Packet) -> fmt::Result {
        writeln!(
            self.output,
            "form{}{}{}{} {}",
            Shown(&form::refuse_rules(self.rules)),
            Shown(&form::refuse_policy(self.policy)),
            Shown(&form::refuse_packet(packet)),
            Shown(&form::refuse_label(self.rules, self.policy, packet)),
            u32::from(packet.in_form())
        )
    }

    // What is refused of the rules and the policy together.
    fn tell_sets(&mut self) -> fmt::Result {
        let refused = form::refuse_sets(self.rules, self.policy);
        writeln!(self.output, "sets{}", Shown(&refused))
    }

    // The refusal, and the kind and rule of the packet's label.
    fn tell_label(&mut self, packet: Packet) -> fmt::Result {
        let labelled = labels::label(self.rules, self.policy, packet);
        writeln!(
            self.output,
            "label{}{}",
            Shown(&labelled),
            Shown(labelled.unwrap_or(Label::Good))
        )
    }

    // The deciding rule with its number, zeros if there is none, and the lowest directives that ask for accept and for deny.
    fn tell_at(&mut self, packet: Packet) -> fmt::Result {
        writeln!(
            self.output,
            "at{}{}{}",
            Shown(labels::deciding(self.rules, packet)),
            Shown(labels::lowest_asking(self.policy, Action::Accept, packet)),
            Shown(labels::lowest_asking(self.policy, Action::Deny, packet))
        )
    }

    // The refusal, the kind and rule of the verdict, the lowest directives that ask for accept and for deny, and the packet.
    fn tell_verdict(&mut self) -> fmt::Result {
        let judged = faults::verdict(self.rules, self.policy);
        writeln!(
            self.output,
            "verdict{}{}",
            Shown(&judged),
            Shown(judged.unwrap_or(None))
        )
    }

    // The refusal and the total of the listing with a buffer of so many numbers lent, then these numbers and the ten behind them.
    fn tell_listing(&mut self, lent: usize) -> fmt::Result {
        let lent = lent.min(lending::MOST_LENT);
        let mut numbers = [0; lending::MOST_TOLD];
        let listed = lending::list(self.rules, self.policy, lent, &mut numbers);
        let told = &numbers[..lent + lending::BEHIND];
        writeln!(
            self.output,
            "listing{} {}{}",
            Shown(&listed),
            listed.unwrap_or(0),
            Shown(told)
        )
    }

    // A word, and whether what it says is so.
    fn tell_flag(&mut self, word: &str, flag: bool) -> fmt::Result {
        writeln!(self.output, "{word} {}", u32::from(flag))
    }

    // Whether narrowing in the field shared numbers, and the block handed back. A request names the field by its number, from 1.
    fn tell_narrow(&mut self, field: u32, bounds: Span, block: Block) -> fmt::Result {
        let narrowed = match field {
            1 => block.narrow_source(bounds),
            2 => block.narrow_destination(bounds),
            3 => block.narrow_protocol(bounds),
            _ => block.narrow_port(bounds),
        };
        writeln!(
            self.output,
            "narrow {}{}",
            u32::from(narrowed.shared),
            Shown(narrowed.block)
        )
    }

    // The same for the four fields one after another, each on the block that the one before handed back.
    fn tell_chain(&mut self, bounds: Block, block: Block) -> fmt::Result {
        let source = block.narrow_source(bounds.source);
        let destination = source.block.narrow_destination(bounds.destination);
        let protocol = destination.block.narrow_protocol(bounds.protocol);
        let port = protocol.block.narrow_port(bounds.port);
        writeln!(
            self.output,
            "chain {} {} {} {}{}",
            u32::from(source.shared),
            u32::from(destination.shared),
            u32::from(protocol.shared),
            u32::from(port.shared),
            Shown(port.block)
        )
    }

    // The widest block and the lowest packet.
    fn tell_widest(&mut self) -> fmt::Result {
        let lowest = Packet::lowest();
        writeln!(
            self.output,
            "widest{} lowest{}",
            Shown(Block::widest()),
            Shown(lowest)
        )
    }
}

// The record of this number, counted from 1; none for 0 and for a number past the last place.
fn record_mut<T>(records: &mut [T], number: u32) -> Option<&mut T> {
    let place = (number as usize).checked_sub(1)?;
    records.get_mut(place)
}
