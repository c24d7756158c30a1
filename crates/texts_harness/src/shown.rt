// Values as they are printed: their numbers, a space before each.

use sets::Refusal;
use std::fmt;

// A value to be printed.
#[derive(Clone, Copy)]
pub(crate) struct Shown<T>(pub(crate) T);

impl<const N: usize> fmt::Display for Shown<[u32; N]> {
    fn fmt<W: fmt::Write>(&self, f: &mut fmt::Formatter<W>) -> fmt::Result {
        for number in self.0.as_slice() {
            write!(f, " {number}")?;
        }
        Ok(())
    }
}

// What is refused: number, line and field; zeros if nothing is.
impl<T> fmt::Display for Shown<&Result<T, Refusal>> {
    fn fmt<W: fmt::Write>(&self, f: &mut fmt::Formatter<W>) -> fmt::Result {
        match self.0 {
            Ok(_) => write!(f, " 0 0 0"),
            Err(refusal) => {
                let number = refusal.reason.number();
                write!(f, " {number} {} {}", refusal.line, refusal.field)
            }
        }
    }
}
