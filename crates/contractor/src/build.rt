// Why a contractor could not be built.
ghost use Rattle.std.specs.Prelude.{◌≡◌, Some};
ghost use Rattle.contractor.specs.Builds.{number_of, words};

use std::error::Error;
use std::fmt;

// Each stands at the number by which it is reported.
#[derive(Clone, Copy, Debug, Eq, PartialEq)]
pub enum BuildRefusal {
    // Not from 1 to 1,000 rounds.
    RoundsOutOfRange = 4,
    // A net that holds as many records as it can, asked to hold one more.
    NetFull = 5,
}

impl BuildRefusal {
    // The number by which the refusal is reported.
    pub fn number(self) -> u8
        ensures { result ≡ number_of self }
    {
        self as u8
    }
}

impl fmt::Display for BuildRefusal {
    ghost output = { λ e. Some (words e) };

    fn fmt<W: fmt::Write>(&self, f: &mut fmt::Formatter<W>) -> fmt::Result {
        f.write_str(match self {
            BuildRefusal::RoundsOutOfRange => "not from 1 to 1,000 rounds",
            BuildRefusal::NetFull => "no room in the net",
        })
    }
}

impl Error for BuildRefusal {}
