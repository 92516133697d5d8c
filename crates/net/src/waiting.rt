// The records that wait to be used, in the order in which they will be.
ghost use Rattle.std.specs.Prelude.{◌≡◌, ◌<◌, ◌≤◌};
ghost use Rattle.net.specs.Nets.{positions, rest_mark, most_records};
ghost use Rattle.net.specs.Queues.{Taken, joined_by};

use crate::net::MAX_RECORDS;
use contractor::Mark;
use std::marker::Model;

// A ring of positions in the net's list, and a mark for each record that stands in it.
// No heap and fixed memory, so both are arrays as long as the largest net: the ring of the kit has a heap.
#[derive(Drop)]
pub(crate) struct Waiting {
    ring: [u16; MAX_RECORDS],
    marks: [bool; MAX_RECORDS],
    head: usize,
    count: usize,
}

// A clause sees the positions that wait, the first one first.
impl Model for Waiting {
    ghost use Rattle.std.specs.Prelude.{ℕ, List};

    ghost Value = { List ℕ };

    ghost use Rattle.net.specs.Queues.{queue_of, Queued};

    ghost view = { queue_of };

    ghost invariant = { Queued };
}

impl Waiting {
    // The first so many records wait, in list order.
    pub(crate) fn all(count: usize) -> Self
        requires { count ≤ most_records }
        ensures { result ≡ positions 0 count }
    {
        let mut ring = [0u16; MAX_RECORDS];
        let mut marks = [false; MAX_RECORDS];
        marks[..count].fill(true);
        for (i, place) in ring[..count].iter_mut().enumerate() {
            *place = i as u16;
        }
        Waiting {
            ring,
            marks,
            head: 0,
            count,
        }
    }

    // How a run is told that ends here.
    pub(crate) fn mark(&self) -> Mark
        ensures { result ≡ rest_mark self.now }
    {
        if self.count == 0 {
            Mark::Settled
        } else {
            Mark::Stopped
        }
    }

    // Takes off the first.
    pub(crate) fn take_first(&mut self) -> Option<u16>
        ensures { Taken self.old result self.new }
    {
        if self.count == 0 {
            return None;
        }
        let first = self.ring[self.head];
        self.head = (self.head + 1) % MAX_RECORDS;
        self.count -= 1;
        self.marks[first as usize] = false;
        Some(first)
    }

    // Lets a record join the end, unless it waits already.
    pub(crate) fn join(&mut self, position: u16)
        requires { position < most_records }
        ensures { self.new ≡ joined_by position self.old }
    {
        if self.marks[position as usize] {
            return;
        }
        let end = (self.head + self.count) % MAX_RECORDS;
        self.count += 1;
        self.ring[end] = position;
        self.marks[position as usize] = true;
    }
}
