// A whole swim log: its sizes, its length, then record by record, each head with its own body.
ghost use Rattle.std.specs.Prelude.{◌≡◌, ◌<◌, length, IfErr, None, Some, Ok, MatchResult};
ghost use Rattle.std.specs.Result.{result_err};
ghost use Rattle.swimlog.specs.Format.{log_length};
ghost use Rattle.swimlog.specs.Logs.{record_of, record_in, in_record, log_fault, numbered, Sized, ReadSizes, Checked, Blames};
ghost use Rattle.swimlog.specs.Records.{Reads};

use crate::fault::{BadRecord, LogFault, RecordFault};
use crate::field::two_bytes;
use crate::record::read_record;
use crate::sizes::Sizes;
use constraint::Constraint;

// A log with its sizes, and of the length that they ask for.
#[derive(Clone, Copy)]
pub(crate) struct Log<'a> {
    bytes: &'a [u8],
    sizes: Sizes,
    ghost sized: { Sized bytes.now sizes },
    ghost whole: { length bytes.now ≡ log_length sizes.records },
}

fn read_sizes(bytes: &[u8]) -> Result<Sizes, LogFault>
    ensures { ReadSizes bytes.now result }
{
    let gates = two_bytes(bytes, 0)?;
    let records = two_bytes(bytes, 2)?;
    Sizes::new(gates, records).ok_or(LogFault::BadSizes)
}

// What reading a record answered, with the record's place in the log beside its fault.
fn numbered(index: u16, read: Result<Constraint, RecordFault>) -> Result<Constraint, BadRecord>
    ensures { result ≡ numbered index read }
{
    read.map_err(|fault| BadRecord { index, fault })
}

impl<'a> Log<'a> {
    // Looks at the sizes and at the length, and at no record.
    fn new(bytes: &'a [u8]) -> Result<Log<'a>, LogFault>
        ensures { MatchResult result (λ log. log.bytes.now ≡ bytes.now) (λ e. log_fault bytes.now ≡ Some e) }
    {
        let sizes = read_sizes(bytes)?;
        if bytes.len() != sizes.log_length() {
            return Err(LogFault::BadLength);
        }
        Ok(Log { bytes, sizes })
    }

    // A log that is not refused. Nothing is written before this has looked at every byte.
    pub(crate) fn checked(bytes: &'a [u8]) -> Result<Log<'a>, LogFault>
        ensures { MatchResult result (λ log. (log.bytes.now ≡ bytes.now) × (log_fault bytes.now ≡ None)) (λ e. log_fault bytes.now ≡ Some e) }
    {
        let log = Log::new(bytes)?;
        log.check()?;
        Ok(log)
    }

    pub(crate) fn bytes(&self) -> &'a [u8]
        ensures { result.now ≡ self.now.bytes.now }
    {
        self.bytes
    }

    pub(crate) fn sizes(&self) -> Sizes
        ensures { result ≡ self.now.sizes }
    {
        self.sizes
    }

    fn check_record(&self, index: u16) -> Result<(), LogFault>
        ensures { result_err result ≡ in_record index (record_in self.now.bytes.now self.now.sizes.gates self.now.sizes.records index) }
    {
        numbered(index, read_record(self, index))?;
        Ok(())
    }

    fn check(&self) -> Result<(), LogFault>
        ensures { result_err result ≡ log_fault self.now.bytes.now }
    {
        for index in 0..self.sizes.records() {
            self.check_record(index)?;
        }
        Ok(())
    }

    // The constraint of a record of a log that is not refused.
    pub(crate) fn constraint(&self, index: u16) -> Constraint
        requires sound { log_fault self.now.bytes.now ≡ None }
        requires within { index < self.now.sizes.records }
        ensures { Reads (record_of self.now.bytes.now self.now.sizes.gates self.now.sizes.records index) (Ok result) }
    {
        read_record(self, index).unwrap()
    }
}

// Whether a log can be read, and its sizes if so.
pub fn check_log(bytes: &[u8]) -> Result<Sizes, LogFault>
    ensures checked { Checked bytes.now result }
    ensures blames { IfErr result (Blames bytes.now) }
{
    let log = Log::checked(bytes)?;
    Ok(log.sizes)
}
