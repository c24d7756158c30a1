// Cells: what is left of the rules, directives and exceptions from strip to strip, the label that this gives, and whether two
// such sets give the same labels everywhere below a field. It works on masks and strips by number and knows no address. The
// words of a walk and the counts of strips are lent; `layout` says what stands where. `alike` is written once for all fields and stops
// at the first cell with another label.

#![tactic(auto)]

ghost use Rattle.std.specs.Prelude.{◌≡◌, ℕ, ◌+◌, ◌*◌, ◌≤◌, ◌<◌, length};
ghost use Rattle.meaning.specs.Sizes.{front_words};
ghost use Rattle.sets.specs.Vocabulary.{label_of};
ghost use Rattle.cells.specs.Cells.{chart_of, Formed, asked_by, left_label, spot, left_at, Same, Tells, Nothing};

use layout::{
    ACCEPTING_DIRECTIVES, ACCEPTING_RULES, FIRST_MASK, MASK_KINDS, MOST_STRIPS, OF_ACCEPTING,
    OF_DENYING, OF_EACH,
};
use sets::Label;

// The rules, directives and exceptions that are left, a binary digit for each. Digits and no lists: no heap, and a walk takes the common
// part at every strip.
#[derive(Clone, Copy, PartialEq, Eq)]
pub struct Left {
    pub rules: u64,
    pub directives: u64,
    pub exceptions: u64,
}

impl Left {
    // Nothing is left.
    pub const NONE: Left = Left {
        rules: 0,
        directives: 0,
        exceptions: 0,
    };

    // Whether nothing is left.
    pub fn is_nothing(self) -> bool
        ensures { Tells result (Nothing self) }
    {
        self == Left::NONE
    }
}

// What a walk looks at: the words, and each field's number of strips. No invariant: `left_at` and `label` answer for words that are not
// `Formed`, too.
#[derive(Clone, Copy)]
pub struct Chart<'a> {
    pub words: &'a [u64],
    pub counts: &'a [usize],
}

impl Chart<'_> {
    // Whether a and b give every cell below the field the same label.
    pub fn alike(&self, field: usize, a: Left, b: Left) -> bool
        requires field_in_bounds { field ≤ length self.now.counts.now }
        requires formed { Formed (chart_of self.now) }
        ensures { Tells result (Same (chart_of self.now) field a b) }
    {
        if a == b {
            return true;
        }
        if field == self.counts.len() {
            return self.label(a) == self.label(b);
        }
        // No strip yet: two that are both empty are alike, so this pair passes over no strip that counts.
        let mut before = (Left::NONE, Left::NONE);
        for strip in 0..self.counts[field] {
            let here = (self.left_at(field, strip, a), self.left_at(field, strip, b));
            if here == before {
                continue;
            }
            if !self.alike(field + 1, here.0, here.1) {
                return false;
            }
            before = here;
        }
        true
    }

    // What is left of the sets at a strip of a field.
    #[tactic(auto, unfolding(crate::specs::Cells::left_at))]
    pub fn left_at(&self, field: usize, strip: usize, left: Left) -> Left
        requires { spot field strip + 2 < length self.now.words.now }
        ensures { result ≡ left_at self.now.words.now field strip left }
    {
        let at = MASK_KINDS * (field * MOST_STRIPS + strip) + FIRST_MASK;
        Left {
            rules: left.rules & self.words[at],
            directives: left.directives & self.words[at + 1],
            exceptions: left.exceptions & self.words[at + 2],
        }
    }

    // The label that these rules, directives and exceptions give, by the rows of the table of kinds.
    #[tactic(auto, using(crate::proofs::Labels::rows), unfolding(crate::specs::Cells::left_label))]
    pub fn label(&self, left: Left) -> Label
        requires { front_words ≤ length self.now.words.now }
        ensures { label_of result ≡ left_label self.now.words.now left }
    {
        let own = left.directives & self.words[ACCEPTING_DIRECTIVES];
        let accept = self.asked(left.exceptions, self.words[OF_DENYING], own);
        let deny = self.asked(
            left.exceptions,
            self.words[OF_ACCEPTING],
            left.directives ^ own,
        );
        let first = left.rules.trailing_zeros();
        let accepts = first == (left.rules & self.words[ACCEPTING_RULES]).trailing_zeros();
        let rule = first + 1;
        match (accept, deny) {
            (true, true) => Label::Conflict,
            (true, false) if left.rules == 0 => Label::UnmetAccept,
            (true, false) if accepts => Label::Good,
            (true, false) => Label::Wrong(rule),
            (false, true) if left.rules == 0 => Label::UnmetDeny,
            (false, true) if accepts => Label::Wrong(rule),
            (false, true) => Label::Good,
            (false, false) if left.rules == 0 => Label::Good,
            (false, false) => Label::Unasked(rule),
        }
    }

    // Whether an action is asked for: by one of these exceptions, if one belongs to a directive that asks for the opposite, or by one
    // of these directives of its own, if one has none of the exceptions.
    #[tactic(auto, using(crate::proofs::Freeing::freeing))]
    fn asked(&self, exceptions: u64, turning: u64, own: u64) -> bool
        requires { front_words ≤ length self.now.words.now }
        ensures { result ≡ asked_by self.now.words.now exceptions turning own }
    {
        if exceptions & turning != 0 {
            return true;
        }
        // The binary digits of a mask, the lowest first: no list that a `for` could go over.
        let mut rest = own;
        while rest != 0 {
            let first = rest.trailing_zeros() as usize;
            if exceptions & self.words[OF_EACH + first] == 0 {
                return true;
            }
            rest &= rest - 1;
        }
        false
    }
}
