// Why a swim log is refused: a fault of a field, of a record or of the whole log, each kept inside the next.
ghost use Rattle.std.specs.Prelude.{◌≡◌};
ghost use Rattle.swimlog.specs.Faults.{record_number, record_inner, log_number, log_record, log_inner};
ghost use Rattle.swimlog.specs.declared.fault.LogFault.TheVariants.{BadSizes, InRecord};
ghost use Rattle.swimlog.specs.declared.fault.RecordFault.TheVariants.{CutOff, BadValue};

use tube::MakingFault;

mod words;

#[derive(Clone, Copy, Debug, Eq, PartialEq)]
pub enum FieldFault {
    // The bytes end before the field does.
    CutOff,
}

#[derive(Clone, Copy, Debug, Eq, PartialEq)]
pub enum RecordFault {
    // The bytes end before the record does.
    CutOff,
    // A kind that there is not, or an axis that its kind lacks.
    UnknownKind,
    // A gate or a slice too large, or an unused field that is not 0.
    BadPlace,
    // The constraint could not be made from the record's values.
    BadValue(MakingFault),
}

// A record's fault, with the record that has it.
#[derive(Clone, Copy, Debug, Eq, PartialEq)]
pub struct BadRecord {
    pub index: u16,
    pub fault: RecordFault,
}

#[derive(Clone, Copy, Debug, Eq, PartialEq)]
pub enum LogFault {
    // Fewer than four bytes, or a size outside its limits.
    BadSizes,
    // Another length than the number of records asks for.
    BadLength,
    InRecord(BadRecord),
}

impl From<FieldFault> for RecordFault {
    ghost from_gives = { λ _ r. r ≡ CutOff };

    fn from(_fault: FieldFault) -> RecordFault {
        RecordFault::CutOff
    }
}

impl From<MakingFault> for RecordFault {
    ghost from_gives = { λ e r. r ≡ BadValue e };

    fn from(fault: MakingFault) -> RecordFault {
        RecordFault::BadValue(fault)
    }
}

// Outside the records a log has no fields but its sizes.
impl From<FieldFault> for LogFault {
    ghost from_gives = { λ _ r. r ≡ BadSizes };

    fn from(_fault: FieldFault) -> LogFault {
        LogFault::BadSizes
    }
}

impl From<BadRecord> for LogFault {
    ghost from_gives = { λ e r. r ≡ InRecord e };

    fn from(bad: BadRecord) -> LogFault {
        LogFault::InRecord(bad)
    }
}

// Here and below the answers are numbers, with 0 for none, and no Options: numbers are what the report prints, and it prints 0 where there is none.
impl RecordFault {
    // The number by which the fault is reported. Not a discriminant: a bad value has the constraint's own fault inside.
    pub fn number(self) -> u8
        ensures { result ≡ record_number self }
    {
        match self {
            RecordFault::CutOff => 14,
            RecordFault::UnknownKind => 15,
            RecordFault::BadPlace => 16,
            RecordFault::BadValue(_) => 17,
        }
    }

    // The number of the constraint's own fault, or 0.
    pub fn inner(self) -> u8
        ensures { result ≡ record_inner self }
    {
        match self {
            RecordFault::BadValue(fault) => fault.number(),
            _ => 0,
        }
    }
}

// The same holds here: a record's fault is inside.
impl LogFault {
    pub fn number(self) -> u8
        ensures { result ≡ log_number self }
    {
        match self {
            LogFault::BadSizes => 13,
            LogFault::BadLength => 14,
            LogFault::InRecord(bad) => bad.fault.number(),
        }
    }

    // The record that is to blame, counted from 0, or 0 where it is the whole log.
    pub fn record(self) -> u16
        ensures { result ≡ log_record self }
    {
        match self {
            LogFault::InRecord(bad) => bad.index,
            _ => 0,
        }
    }

    pub fn inner(self) -> u8
        ensures { result ≡ log_inner self }
    {
        match self {
            LogFault::InRecord(bad) => bad.fault.inner(),
            _ => 0,
        }
    }
}
