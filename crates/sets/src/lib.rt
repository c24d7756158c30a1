// Rules and policies as values that a program can hold, labels and refusals. A set has a record for each place up to its limit
// and a count; records past the count are not looked at. specs/Vocabulary says what each value stands for in `meaning`, specs/Empty
// what the empty sets are, and each contract says the answer in those words, and so leaves one answer only.

#![tactic(auto)]

ghost use Rattle.std.specs.Prelude.{◌≡◌};
ghost use Rattle.meaning.specs.Labels.{kind, rule};
ghost use Rattle.sets.specs.Vocabulary.{reason_number, label_of};
ghost use Rattle.sets.specs.Empty.{empty_rules, empty_policy};

use blocks::{Block, Span};

// The limits of the sets.
pub const MOST_RULES: usize = 64;

pub const MOST_DIRECTIVES: usize = 32;

pub const MOST_EXCEPTIONS: usize = 64;

// What a rule does, and what a directive asks for. Deny stands first: it is the zero record's action.
#[derive(Clone, Copy, PartialEq, Eq)]
pub enum Action {
    Deny,
    Accept,
}

#[derive(Clone, Copy)]
pub struct Rule {
    pub action: Action,
    pub block: Block,
}

// A rule table: its rules are numbered from 1 and stand in the records from 0 on. A count beside the records and no `Vec`, here and in
// `Policy`: memory is fixed, and a caller's count may be past the records, which is refused.
#[derive(Clone, Copy)]
pub struct Rules {
    pub count: usize,
    pub records: [Rule; MOST_RULES],
}

// A directive without its exceptions. A type of its own, though a rule has the same fields: no directive is taken for a rule.
#[derive(Clone, Copy)]
pub struct Directive {
    pub action: Action,
    pub block: Block,
}

// An exception of the directive with this number, counted from 1. 0 names none; a caller may write it, and it is out of form.
#[derive(Clone, Copy)]
pub struct Exception {
    pub directive: u32,
    pub block: Block,
}

// A policy. The rules stand apart from it: a call on one of the two takes that one, and a count of either may be past its limit.
#[derive(Clone, Copy)]
pub struct Policy {
    pub directive_count: usize,
    pub directives: [Directive; MOST_DIRECTIVES],
    pub exception_count: usize,
    pub exceptions: [Exception; MOST_EXCEPTIONS],
}

// A packet's label. Wrong and Unasked carry the number of the deciding rule.
#[derive(Clone, Copy, PartialEq, Eq)]
pub enum Label {
    Good,
    Conflict,
    Wrong(u32),
    Unasked(u32),
    UnmetAccept,
    UnmetDeny,
}

// What is refused, numbered from 1 in this order.
#[derive(Clone, Copy, PartialEq, Eq)]
pub enum Reason {
    TooLong,
    Unended,
    UnknownWord,
    FieldCount,
    ActionUnread,
    AddressUnread,
    AddressUnfit,
    ProtocolUnread,
    PortUnread,
    RangeFalls,
    NoDirective,
    OutsideDirective,
    Full,
    OutOfForm,
}

// Why a call gave no answer, and where: a line and a field, each 0 where none is named. Out of form are the rules at line 1,
// the policy at line 2, the packet at line 3. Zeros and no `Option`: `refusal_of` gives the three numbers that are printed.
#[derive(Clone, Copy, PartialEq, Eq)]
pub struct Refusal {
    pub reason: Reason,
    pub line: u32,
    pub field: u32,
}

// The block of a zero record.
pub const ZERO_BLOCK: Block = Block {
    source: Span { low: 0, high: 0 },
    destination: Span { low: 0, high: 0 },
    protocol: Span { low: 0, high: 0 },
    port: Span { low: 0, high: 0 },
};

impl Rules {
    // The empty table, all records zero.
    pub const EMPTY: Rules = Rules {
        count: 0,
        records: [Rule {
            action: Action::Deny,
            block: ZERO_BLOCK,
        }; MOST_RULES],
    };

    // The constant as a call, so that a contract can say of it what its name says.
    pub fn empty() -> Rules
        ensures { result ≡ empty_rules }
    {
        Rules::EMPTY
    }
}

impl Policy {
    // The empty policy, all records zero.
    pub const EMPTY: Policy = Policy {
        directive_count: 0,
        directives: [Directive {
            action: Action::Deny,
            block: ZERO_BLOCK,
        }; MOST_DIRECTIVES],
        exception_count: 0,
        exceptions: [Exception {
            directive: 0,
            block: ZERO_BLOCK,
        }; MOST_EXCEPTIONS],
    };

    // The constant as a call, so that a contract can say of it what its name says.
    pub fn empty() -> Policy
        ensures { result ≡ empty_policy }
    {
        Policy::EMPTY
    }
}

impl Reason {
    // The number of the refusal, written out: `reason_number` has the table.
    pub fn number(self) -> u32
        ensures { result ≡ reason_number self }
    {
        match self {
            Reason::TooLong => 1,
            Reason::Unended => 2,
            Reason::UnknownWord => 3,
            Reason::FieldCount => 4,
            Reason::ActionUnread => 5,
            Reason::AddressUnread => 6,
            Reason::AddressUnfit => 7,
            Reason::ProtocolUnread => 8,
            Reason::PortUnread => 9,
            Reason::RangeFalls => 10,
            Reason::NoDirective => 11,
            Reason::OutsideDirective => 12,
            Reason::Full => 13,
            Reason::OutOfForm => 14,
        }
    }
}

impl Label {
    // The number of the label's kind: the table of kinds numbers them, and `kind` says it.
    pub fn kind(self) -> u32
        ensures { result ≡ kind (label_of self) }
    {
        match self {
            Label::Good => 0,
            Label::Conflict => 1,
            Label::Wrong(_) => 2,
            Label::Unasked(_) => 3,
            Label::UnmetAccept => 4,
            Label::UnmetDeny => 5,
        }
    }

    // The number of the rule in the label, or 0, as the table of kinds has it.
    pub fn rule(self) -> u32
        ensures { result ≡ rule (label_of self) }
    {
        match self {
            Label::Good => 0,
            Label::Conflict => 0,
            Label::Wrong(n) => n,
            Label::Unasked(n) => n,
            Label::UnmetAccept => 0,
            Label::UnmetDeny => 0,
        }
    }
}
