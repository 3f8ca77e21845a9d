// Every cause for which a call of the library is refused.
#![tactic(auto)]

ghost use Rattle.std.specs.Prelude.{◌≡◌, ◌++◌, Some, codes, decimal};
ghost use Rattle.refusal.specs.Number.{number_of};

use std::error::Error;
use std::fmt;

#[derive(Clone, Copy, PartialEq, Eq, Debug)]
pub enum Refusal {
    // a capacity above the limit
    Capacity,
    // a table shorter than its capacity
    ShortTable,
    // an id that is absent
    Absent,
    // two unequal natives asserted equal
    Unequal,
    // more constants, witnesses, nodes or assertions than the worksheet has room for
    Constants,
    Witnesses,
    Nodes,
    Assertions,
    // a row or column index, or a padded size, past the limit
    Beyond,
    // the table of cells is full
    CellsFull,
    // the matrix is no circuit's: its width is not 1 + c + 3n
    Width,
    // a list's length is wrong
    Length,
}

impl Refusal {
    // The number by which the cause is documented; no call takes or answers it in the cause's place.
    pub fn number(self) -> u8
        ensures { result ≡ number_of self }
    {
        match self {
            Refusal::Capacity => 1,
            Refusal::ShortTable => 2,
            Refusal::Absent => 3,
            Refusal::Unequal => 4,
            Refusal::Constants => 5,
            Refusal::Witnesses => 6,
            Refusal::Nodes => 7,
            Refusal::Assertions => 8,
            Refusal::Beyond => 15,
            Refusal::CellsFull => 16,
            Refusal::Width => 17,
            Refusal::Length => 18,
        }
    }
}

impl fmt::Display for Refusal {
    ghost output = { λ e. Some (codes "refused with " ++ decimal (number_of e)) };

    fn fmt<W: fmt::Write>(&self, f: &mut fmt::Formatter<W>) -> fmt::Result {
        let number = self.number();
        write!(f, "refused with {number}")
    }
}

impl Error for Refusal {}
