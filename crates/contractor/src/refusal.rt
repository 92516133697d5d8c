// Why a use of a contractor is refused.
ghost use Rattle.std.specs.Prelude.{◌≡◌, Some};
ghost use Rattle.contractor.specs.Refusals.{number_of, words};

use std::error::Error;
use std::fmt;

// The most layers that a contractor is used with.
pub const MAX_LAYERS: u8 = 16;

// The most calls that a contractor is used with.
pub const MAX_CALLS: u64 = 1_000_000_000;

// Each stands at the number by which it is reported.
#[derive(Clone, Copy, Debug, Eq, PartialEq)]
pub enum UseRefusal {
    // The table is no tube, or has fewer cells than the contractor needs.
    NotATube = 7,
    // The contractor stands more than 16 layers high.
    TooHigh = 8,
    // The contractor may make more than 1,000,000,000 calls.
    TooCostly = 9,
}

impl UseRefusal {
    // The number by which the refusal is reported.
    pub fn number(self) -> u8
        ensures { result ≡ number_of self }
    {
        self as u8
    }
}

impl fmt::Display for UseRefusal {
    ghost output = { λ e. Some (words e) };

    fn fmt<W: fmt::Write>(&self, f: &mut fmt::Formatter<W>) -> fmt::Result {
        f.write_str(match self {
            UseRefusal::NotATube => "no tube, or fewer cells than the contractor needs",
            UseRefusal::TooHigh => "more than 16 layers",
            UseRefusal::TooCostly => "more than 1,000,000,000 calls",
        })
    }
}

impl Error for UseRefusal {}
