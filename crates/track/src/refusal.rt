// Why a call on a track is refused.
ghost use Rattle.std.specs.Prelude.{◌≡◌, Some};
ghost use Rattle.track.specs.Refusals.{number_of, words, of_use};

use contractor::UseRefusal;
use std::error::Error;
use std::fmt;

#[derive(Clone, Copy, Debug, Eq, PartialEq)]
pub enum TrackRefusal {
    // The table is no tube, or has fewer cells than the contractor needs.
    NotATube = 7,
    // The contractor stands more than 16 layers high.
    TooHigh = 8,
    // The contractor may make more than 1,000,000,000 calls.
    TooCostly = 9,
    // A table has another length than the track's first.
    WrongLength = 10,
    // An allowance outside 1 to 1,000,000,000,000.
    BadAllowance = 11,
    // The calls charged plus the contractor's ceiling pass the allowance.
    OverAllowance = 12,
}

impl TrackRefusal {
    // The number by which the refusal is reported.
    pub fn number(self) -> u8
        ensures { result ≡ number_of self }
    {
        self as u8
    }

    // The refusal in words.
    pub fn words(self) -> &'static str
        ensures { result.now ≡ words self }
    {
        match self {
            TrackRefusal::NotATube => "no tube, or fewer cells than the contractor needs",
            TrackRefusal::TooHigh => "a contractor more than 16 layers high",
            TrackRefusal::TooCostly => "a contractor that may make more than 1,000,000,000 calls",
            TrackRefusal::WrongLength => "a table of another length than the track's first",
            TrackRefusal::BadAllowance => "an allowance outside 1 to 1,000,000,000,000",
            TrackRefusal::OverAllowance =>
                "the calls charged and the contractor's ceiling pass the allowance",
        }
    }
}

impl fmt::Display for TrackRefusal {
    ghost output = { λ e. Some (words e) };

    fn fmt<W: fmt::Write>(&self, f: &mut fmt::Formatter<W>) -> fmt::Result {
        f.write_str(self.words())
    }
}

impl Error for TrackRefusal {}

// Cases of its own and not a UseRefusal inside: a first table that is no tube is refused with no use.
impl From<UseRefusal> for TrackRefusal {
    ghost from_gives = { λ e r. r ≡ of_use e };

    fn from(refusal: UseRefusal) -> Self {
        match refusal {
            UseRefusal::NotATube => TrackRefusal::NotATube,
            UseRefusal::TooHigh => TrackRefusal::TooHigh,
            UseRefusal::TooCostly => TrackRefusal::TooCostly,
        }
    }
}
