// Requests as values. A request is a line of a letter and decimal numbers below 2^32, one space before each. Empty lines
// and lines that start with `#` are requests too, for nothing.

use blocks::{Block, Packet, Span};
use sets::{Action, Directive, Exception, Rule};

// What a line asks for. A record is named by its number, counted from 1.
#[derive(Clone, Copy)]
pub(crate) enum Request {
    // No `Option` round the request: an empty line is one too, and is taken like any other.
    Nothing,
    NewRules {
        count: usize,
    },
    SetRule {
        number: u32,
        rule: Rule,
    },
    NewPolicy {
        directives: usize,
        exceptions: usize,
    },
    SetDirective {
        number: u32,
        directive: Directive,
    },
    SetException {
        number: u32,
        exception: Exception,
    },
    Form(Packet),
    Sets,
    Label(Packet),
    At(Packet),
    Verdict,
    Listing {
        lent: usize,
    },
    InForm(Block),
    Holds(Block, Packet),
    Inside(Block, Block),
    Narrow {
        field: u32,
        bounds: Span,
        block: Block,
    },
    Chain {
        bounds: Block,
        block: Block,
    },
    Widest,
}

impl Request {
    // The request on a line: its first byte is a letter, and the numbers stand from its third byte on.
    pub(crate) fn read(line: &[u8]) -> Request {
        let Some((letter, rest)) = line.split_first() else {
            return Request::Nothing;
        };
        let mut numbers = Numbers::new(rest);
        match letter {
            b'R' => Request::NewRules {
                count: numbers.count(),
            },
            b'r' => numbers.set_rule(),
            b'P' => Request::NewPolicy {
                directives: numbers.count(),
                exceptions: numbers.count(),
            },
            b'd' => numbers.set_directive(),
            b'e' => numbers.set_exception(),
            b'f' => Request::Form(numbers.packet()),
            b's' => Request::Sets,
            b'l' => Request::Label(numbers.packet()),
            b'a' => Request::At(numbers.packet()),
            b'v' => Request::Verdict,
            b'g' => Request::Listing {
                lent: numbers.count(),
            },
            b'b' => Request::InForm(numbers.block()),
            b'h' => Request::Holds(numbers.block(), numbers.packet()),
            b'i' => Request::Inside(numbers.block(), numbers.block()),
            b'n' => numbers.narrow(),
            b'c' => Request::Chain {
                bounds: numbers.block(),
                block: numbers.block(),
            },
            b'w' => Request::Widest,
            _ => Request::Nothing,
        }
    }
}

// The numbers of a line that are not taken yet. Those that are lacking are 0.
#[derive(Drop)]
struct Numbers<'a> {
    rest: &'a [u8],
}

impl<'a> Numbers<'a> {
    // The numbers behind a letter, the first from the second byte on.
    fn new(rest: &'a [u8]) -> Numbers<'a> {
        Numbers {
            rest: rest.get(1..).unwrap_or(b""),
        }
    }

    // Takes a number: up to the next space, modulo 2^32. A byte that is no digit leaves it as it is.
    fn number(&mut self) -> u32 {
        let rest = self.rest;
        let end = rest.iter().position(|byte| *byte == b' ');
        self.rest = match end {
            Some(end) => &rest[end + 1..],
            None => b"",
        };
        rest[..end.unwrap_or(rest.len())]
            .iter()
            .fold(0, |number, byte| longer(number, *byte))
    }

    // Takes a number that is a count.
    fn count(&mut self) -> usize {
        self.number() as usize
    }

    // Takes an action: deny for 0, accept for any other number. No `From`: both types are of other crates.
    fn action(&mut self) -> Action {
        match self.number() {
            0 => Action::Deny,
            _ => Action::Accept,
        }
    }

    // Takes a span's two bounds.
    fn span(&mut self) -> Span {
        Span {
            low: self.number(),
            high: self.number(),
        }
    }

    // Takes a block's eight bounds.
    fn block(&mut self) -> Block {
        Block {
            source: self.span(),
            destination: self.span(),
            protocol: self.span(),
            port: self.span(),
        }
    }

    // Takes a packet's four numbers.
    fn packet(&mut self) -> Packet {
        Packet {
            source: self.number(),
            destination: self.number(),
            protocol: self.number(),
            port: self.number(),
        }
    }

    // `r number action block`.
    fn set_rule(&mut self) -> Request {
        Request::SetRule {
            number: self.number(),
            rule: Rule {
                action: self.action(),
                block: self.block(),
            },
        }
    }

    // `d number action block`.
    fn set_directive(&mut self) -> Request {
        Request::SetDirective {
            number: self.number(),
            directive: Directive {
                action: self.action(),
                block: self.block(),
            },
        }
    }

    // `e number directive block`.
    fn set_exception(&mut self) -> Request {
        Request::SetException {
            number: self.number(),
            exception: Exception {
                directive: self.number(),
                block: self.block(),
            },
        }
    }

    // `n field bounds block`.
    fn narrow(&mut self) -> Request {
        Request::Narrow {
            field: self.number(),
            bounds: self.span(),
            block: self.block(),
        }
    }
}

// A number with one digit more, modulo 2^32. A byte that is no digit leaves it as it is.
fn longer(number: u32, byte: u8) -> u32 {
    match byte {
        b'0'..=b'9' => number.wrapping_mul(10).wrapping_add(u32::from(byte - b'0')),
        _ => number,
    }
}
