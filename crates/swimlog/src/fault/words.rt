// The faults of a swim log in words.
ghost use Rattle.std.specs.Prelude.{Some};
ghost use Rattle.swimlog.specs.Words.{field_words, record_words, bad_record_words, log_words};

use super::{BadRecord, FieldFault, LogFault, RecordFault};
use std::error::Error;
use std::fmt;

impl fmt::Display for FieldFault {
    ghost output = { λ e. Some (field_words e) };

    fn fmt<W: fmt::Write>(&self, f: &mut fmt::Formatter<W>) -> fmt::Result {
        match self {
            FieldFault::CutOff => f.write_str("the bytes end before the field does"),
        }
    }
}

impl fmt::Display for RecordFault {
    ghost output = { λ e. Some (record_words e) };

    fn fmt<W: fmt::Write>(&self, f: &mut fmt::Formatter<W>) -> fmt::Result {
        match self {
            RecordFault::CutOff => f.write_str("the bytes end before the record does"),
            RecordFault::UnknownKind => f.write_str("no such kind, or an axis that its kind lacks"),
            RecordFault::BadPlace => {
                f.write_str("a gate or a slice too large, or an unused field that is not 0")
            }
            RecordFault::BadValue(fault) => write!(f, "{fault}"),
        }
    }
}

impl fmt::Display for BadRecord {
    ghost output = { λ b. Some (bad_record_words b) };

    fn fmt<W: fmt::Write>(&self, f: &mut fmt::Formatter<W>) -> fmt::Result {
        write!(f, "record {}: {}", self.index, self.fault)
    }
}

impl fmt::Display for LogFault {
    ghost output = { λ e. Some (log_words e) };

    fn fmt<W: fmt::Write>(&self, f: &mut fmt::Formatter<W>) -> fmt::Result {
        match self {
            LogFault::BadSizes => {
                f.write_str("fewer than four bytes, or a size outside its limits")
            }
            LogFault::BadLength => {
                f.write_str("another length than the number of records asks for")
            }
            LogFault::InRecord(bad) => write!(f, "{bad}"),
        }
    }
}

impl Error for FieldFault {}

impl Error for RecordFault {}

impl Error for BadRecord {}

impl Error for LogFault {}
