// Why an interval or a constraint could not be made.
ghost use Rattle.std.specs.Prelude.{◌≡◌, Some};
ghost use Rattle.tube.specs.Faults.{number_of, words};

use std::error::Error;
use std::fmt;

// Each stands at the number by which it is reported.
#[derive(Clone, Copy, Debug, Eq, PartialEq)]
pub enum MakingFault {
    // A cell above 511, the last that a tube can have.
    CellBeyondTube = 1,
    // Two of the constraint's cells are the same one.
    EqualCells = 2,
    // A value beyond its limits, or ends out of order.
    BadValue = 3,
}

impl MakingFault {
    // The number by which the fault is reported.
    pub fn number(self) -> u8
        ensures { result ≡ number_of self }
    {
        self as u8
    }

    // The fault in words.
    pub fn words(self) -> &'static str
        ensures { result.now ≡ words self }
    {
        match self {
            MakingFault::CellBeyondTube => "a cell above 511",
            MakingFault::EqualCells => "two equal cells",
            MakingFault::BadValue => "a value beyond its limits, or ends out of order",
        }
    }
}

impl fmt::Display for MakingFault {
    ghost output = { λ e. Some (words e) };

    fn fmt<W: fmt::Write>(&self, f: &mut fmt::Formatter<W>) -> fmt::Result {
        f.write_str(self.words())
    }
}

impl Error for MakingFault {}
