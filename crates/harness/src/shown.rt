// Values as they are printed: their numbers, a space before each.

use blocks::{BOUNDS, Block, Packet};
use findings::Finding;
use labels::Decided;
use sets::{Action, Label, Refusal, ZERO_BLOCK};
use std::fmt;

// A value to be printed.
#[derive(Clone, Copy)]
pub(crate) struct Shown<T>(pub(crate) T);

impl fmt::Display for Shown<&[u32]> {
    fn fmt<W: fmt::Write>(&self, f: &mut fmt::Formatter<W>) -> fmt::Result {
        for number in self.0 {
            write!(f, " {number}")?;
        }
        Ok(())
    }
}

// A block's eight bounds.
impl fmt::Display for Shown<Block> {
    fn fmt<W: fmt::Write>(&self, f: &mut fmt::Formatter<W>) -> fmt::Result {
        let bounds: [u32; BOUNDS] = self.0.into();
        write!(f, "{}", Shown(bounds.as_slice()))
    }
}

// A packet's four numbers.
impl fmt::Display for Shown<Packet> {
    fn fmt<W: fmt::Write>(&self, f: &mut fmt::Formatter<W>) -> fmt::Result {
        let packet = self.0;
        write!(
            f,
            " {} {} {} {}",
            packet.source, packet.destination, packet.protocol, packet.port
        )
    }
}

// 0 for deny, 1 for accept.
impl fmt::Display for Shown<Action> {
    fn fmt<W: fmt::Write>(&self, f: &mut fmt::Formatter<W>) -> fmt::Result {
        match self.0 {
            Action::Deny => write!(f, " 0"),
            Action::Accept => write!(f, " 1"),
        }
    }
}

// A label's kind and rule.
impl fmt::Display for Shown<Label> {
    fn fmt<W: fmt::Write>(&self, f: &mut fmt::Formatter<W>) -> fmt::Result {
        write!(f, " {} {}", self.0.kind(), self.0.rule())
    }
}

// What is refused: number, line and field; zeros if nothing is.
impl<T> fmt::Display for Shown<&Result<T, Refusal>> {
    fn fmt<W: fmt::Write>(&self, f: &mut fmt::Formatter<W>) -> fmt::Result {
        match self.0 {
            Ok(_) => write!(f, " 0 0 0"),
            Err(refusal) => {
                let number = refusal.reason.number();
                write!(f, " {number} {} {}", refusal.line, refusal.field)
            }
        }
    }
}

// The deciding rule's number, action and block; zeros if there is none.
impl fmt::Display for Shown<Option<Decided>> {
    fn fmt<W: fmt::Write>(&self, f: &mut fmt::Formatter<W>) -> fmt::Result {
        match self.0 {
            Some(Decided { number, rule }) => {
                write!(f, " {number}{}{}", Shown(rule.action), Shown(rule.block))
            }
            None => write!(f, " 0{}{}", Shown(Action::Deny), Shown(ZERO_BLOCK)),
        }
    }
}

// A directive's number; 0 if there is none, as an answer tells it.
impl fmt::Display for Shown<Option<u32>> {
    fn fmt<W: fmt::Write>(&self, f: &mut fmt::Formatter<W>) -> fmt::Result {
        write!(f, " {}", self.0.unwrap_or(0))
    }
}

// The label, the lowest directives that ask for accept and for deny, and the packet; all zeros if the table conforms.
impl fmt::Display for Shown<Option<Finding>> {
    fn fmt<W: fmt::Write>(&self, f: &mut fmt::Formatter<W>) -> fmt::Result {
        let found = self.0.unwrap_or(Finding {
            label: Label::Good,
            accept_directive: None,
            deny_directive: None,
            packet: Packet::LOWEST,
        });
        write!(
            f,
            "{}{}{}{}",
            Shown(found.label),
            Shown(found.accept_directive),
            Shown(found.deny_directive),
            Shown(found.packet)
        )
    }
}
