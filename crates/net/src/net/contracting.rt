// What a net does as a contractor.
ghost use Rattle.net.specs.Records.{net_value};
ghost use Rattle.net.specs.Holding.{net_value_keeps};

use super::Net;
use crate::run::{greatest_need, run};
use contractor::{Answer, Contractor};
use tube::Row;

impl Contractor for Net {
    ghost value = { net_value };

    ghost keeps = { λ n. net_value_keeps n };

    fn need(&self) -> usize {
        greatest_need(self.records())
    }

    fn height(&self) -> u8 {
        1
    }

    fn ceiling(&self) -> u64 {
        self.count as u64 * u64::from(self.rounds.get())
    }

    fn narrow(&mut self, tube: &mut [Row]) -> Answer {
        let allowance = self.ceiling();
        run(self.records(), allowance, tube)
    }
}
