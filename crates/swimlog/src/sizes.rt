// The sizes of a swim log, within their limits.
ghost use Rattle.std.specs.Prelude.{◌≡◌, true, false, Some, None};
ghost use Rattle.swimlog.specs.Limits.{are_sizes, cells_of};

// The most gates that a swim has.
pub const MAX_GATES: u16 = 128;

// The most records that a log has.
pub const MAX_RECORDS: u16 = 256;

#[derive(Clone, Copy, Debug, Eq, PartialEq)]
pub struct Sizes {
    gates: u16,
    records: u16,
    ghost limited: { are_sizes gates records ≡ true },
}

impl Sizes {
    pub fn new(gates: u16, records: u16) -> Option<Sizes>
        ensures { elim result [ Some s ↦ (are_sizes gates records ≡ true) × (s.gates ≡ gates) × (s.records ≡ records) | None ↦ are_sizes gates records ≡ false ] }
    {
        if 1 <= gates && gates <= MAX_GATES && records <= MAX_RECORDS {
            Some(Sizes { gates, records })
        } else {
            None
        }
    }

    pub fn gates(self) -> u16
        ensures { result ≡ self.gates }
    {
        self.gates
    }

    pub fn records(self) -> u16
        ensures { result ≡ self.records }
    {
        self.records
    }

    // How many cells the tube of such a swim has.
    pub fn cells(self) -> usize
        ensures { result ≡ cells_of self.gates }
    {
        4 * self.gates as usize - 2
    }
}
