// Requests as values. A request is a header and a payload of bytes behind it. The header is a letter and decimal numbers below
// 2^64, one space before each, ended by byte 10. The letter says which numbers there are; the last ones are lengths.

use lookup::Which;

const MOST_PAYLOAD: usize = 65_536;

// More bytes than a request has: beside its payload a letter, four times a space and 20 digits, and the end byte.
pub(crate) const MOST_BYTES: usize = 65_664;

// What a header asks for, with its payload.
#[derive(Clone, Copy)]
pub(crate) enum Request<'a> {
    Rules {
        times: usize,
        text: &'a [u8],
    },
    Policy {
        text: &'a [u8],
    },
    Field {
        number: usize,
        line: &'a [u8],
    },
    Line {
        which: Which,
        number: usize,
        texts: Texts<'a>,
    },
    Report {
        readable: usize,
        room: usize,
        texts: Texts<'a>,
    },
    Put {
        call: usize,
        start: usize,
        payload: &'a [u8],
    },
}

// A rule text and a policy text.
#[derive(Clone, Copy)]
pub(crate) struct Texts<'a> {
    pub(crate) rules: &'a [u8],
    pub(crate) policy: &'a [u8],
}

impl<'a> Request<'a> {
    // The request that the input starts with, and what is behind it; none if there is no whole request.
    pub(crate) fn read(input: &'a [u8]) -> Option<(Request<'a>, &'a [u8])> {
        let (letter, rest) = input.split_first()?;
        let mut cursor = Cursor { rest };
        let request = match letter {
            b'R' => Request::Rules {
                times: 1,
                text: cursor.text()?,
            },
            b'T' => Request::Rules {
                times: cursor.number()?,
                text: cursor.text()?,
            },
            b'P' => Request::Policy {
                text: cursor.text()?,
            },
            b'F' => Request::Field {
                number: cursor.number()?,
                line: cursor.text()?,
            },
            b'L' => cursor.line()?,
            b'O' => cursor.report()?,
            b'V' => cursor.put()?,
            _ => return None,
        };
        Some((request, cursor.rest))
    }
}

// The bytes of a request that are not taken yet.
#[derive(Drop)]
struct Cursor<'a> {
    rest: &'a [u8],
}

impl<'a> Cursor<'a> {
    // Takes a space and a number. There is none if the input ends with its digits.
    fn number(&mut self) -> Option<usize> {
        let rest = self.rest.strip_prefix(b" ")?;
        let end = rest.iter().position(|byte| !byte.is_ascii_digit())?;
        let (digits, rest) = rest.split_at_checked(end)?;
        self.rest = rest;
        str::from_utf8(digits).ok()?.parse().ok()
    }

    // Takes the header's end and a payload of so many bytes.
    fn payload(&mut self, length: usize) -> Option<&'a [u8]> {
        let rest = self.rest.strip_prefix(b"\n")?;
        if MOST_PAYLOAD < length {
            return None;
        }
        let (payload, rest) = rest.split_at_checked(length)?;
        self.rest = rest;
        Some(payload)
    }

    // `length`, with so many bytes.
    fn text(&mut self) -> Option<&'a [u8]> {
        let length = self.number()?;
        self.payload(length)
    }

    // `length length`, with a rule text and a policy text.
    fn texts(&mut self) -> Option<Texts<'a>> {
        let length = self.number()?;
        let other_length = self.number()?;
        let payload = self.payload(length.checked_add(other_length)?)?;
        let (rules, policy) = payload.split_at_checked(length)?;
        Some(Texts { rules, policy })
    }

    // `which number length length`, with both texts: which is 0 for the rule text, else the policy text is meant.
    fn line(&mut self) -> Option<Request<'a>> {
        let which = match self.number()? {
            0 => Which::Rules,
            _ => Which::Policy,
        };
        Some(Request::Line {
            which,
            number: self.number()?,
            texts: self.texts()?,
        })
    }

    // `readable room length length`, with both texts.
    fn report(&mut self) -> Option<Request<'a>> {
        Some(Request::Report {
            readable: self.number()?,
            room: self.number()?,
            texts: self.texts()?,
        })
    }

    // `call start length`, with a payload of arguments.
    fn put(&mut self) -> Option<Request<'a>> {
        Some(Request::Put {
            call: self.number()?,
            start: self.number()?,
            payload: self.text()?,
        })
    }
}
