// How many answers were compared, and how many differ.

use std::fmt;

#[derive(Clone, Copy, Default)]
pub struct Tally {
    compared: u64,
    differ: u64,
}

impl Tally {
    // The tally with one answer more.
    pub fn counted(self, same: bool) -> Tally {
        Tally {
            compared: self.compared.wrapping_add(1),
            differ: self.differ.wrapping_add(u64::from(!same)),
        }
    }
}

impl fmt::Display for Tally {
    fn fmt<W: fmt::Write>(&self, f: &mut fmt::Formatter<W>) -> fmt::Result {
        write!(f, "compared {} differ {}", self.compared, self.differ)
    }
}
