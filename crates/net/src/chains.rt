// For each cell the chain of the records that mention it, in list order.
ghost use Rattle.std.specs.Prelude.{◌≡◌, ◌+◌, ◌<◌, ◌≤◌, true, [], ◌++◌, length, IfSome, slice_index_or};
ghost use Rattle.std.specs.List.{AllByRecursion};
ghost use Rattle.tube.specs.Tubes.{most_cells};
ghost use Rattle.net.specs.Chains.{after, counted};
ghost use Rattle.net.specs.Links.{slots, InTable, stands, passed};
ghost use Rattle.net.specs.Nets.{among, joining, most_records};

use crate::net::MAX_RECORDS;
use crate::waiting::Waiting;
use constraint::Constraint;
use std::marker::Model;
use tube::MAX_CELLS;

// A cell that a record mentions, and the next record that mentions it.
#[derive(Clone, Copy)]
struct Link {
    cell: u16,
    next: u16,
}

// Each record has three slots. Where a chain ends, the number of records stands, and no Option: the least of three cursors is then a plain minimum.
// No heap and fixed memory, so the chains are positions in arrays, and their length stands beside them.
#[derive(Drop)]
pub(crate) struct Chains {
    // Not the u16 that it is read as: tried, and a start then loads from one of two places, and a use takes 204 instructions in place of 178.
    count: usize,
    heads: [u16; MAX_CELLS],
    mentions: [[Link; 3]; MAX_RECORDS],
}

// A clause sees the cells that each record mentions.
impl Model for Chains {
    ghost use Rattle.std.specs.Prelude.{ℕ, List};

    ghost Value = { List (List ℕ) };

    ghost use Rattle.net.specs.Links.{slots_of, Chained};

    ghost view = { slots_of };

    ghost invariant = { λ ch. Chained (slots_of ch) ch };
}

// A place on the chain of a cell, or its end.
#[derive(Clone, Copy)]
struct Cursor {
    cell: u16,
    at: u16,
}

impl Chains {
    pub(crate) fn of(records: &[Constraint]) -> Self
        requires { length records.now ≤ most_records }
        ensures { result ≡ slots records.now }
    {
        let count = records.len();
        let mut heads = [count as u16; MAX_CELLS];
        let mut mentions = [[Link { cell: 0, next: 0 }; 3]; MAX_RECORDS];
        // From the last record to the first, so that the heads are always those of the records seen.
        // By position, and not by an enumerate() turned round: a bug in the order is then planted by a word, and refused for the order alone.
        for i in (0..count).rev() {
            // Three slots, spelled out: a loop over them would need an invariant of its own.
            let [a, b, c] = records[i].cells();
            mentions[i] = [
                Link {
                    cell: a,
                    next: heads[a as usize],
                },
                Link {
                    cell: b,
                    next: heads[b as usize],
                },
                Link {
                    cell: c,
                    next: heads[c as usize],
                },
            ];
            heads[a as usize] = i as u16;
            heads[b as usize] = i as u16;
            heads[c as usize] = i as u16;
        }
        Chains {
            count,
            heads,
            mentions,
        }
    }

    // A cursor at the first record that mentions a cell, or at the end where there is no cell.
    fn start(&self, cell: Option<u16>) -> Cursor
        requires { IfSome cell (λ c. c < most_cells) }
        ensures { result ≡ stands self.now cell 0 }
    {
        match cell {
            Some(cell) => Cursor {
                cell,
                at: self.heads[cell as usize],
            },
            None => Cursor {
                cell: 0,
                at: self.count as u16,
            },
        }
    }

    // The next record that mentions a cell, after one that does.
    fn following(&self, position: u16, cell: u16) -> u16
        requires within { position < length self.now }
        requires mentioned { among cell (slice_index_or self.now position []) ≡ true }
        ensures { result ≡ after self.now cell (position + 1) }
    {
        let [first, second, third] = self.mentions[position as usize];
        if first.cell == cell {
            first.next
        } else if second.cell == cell {
            second.next
        } else {
            third.next
        }
    }

    // The cursor once a position is passed, at which it stands or which lies before it.
    fn pass(&self, cursor: Cursor, position: u16) -> Cursor
        requires within { position < length self.now }
        requires mentioned { cursor.at ≡ position → among cursor.cell (slice_index_or self.now position []) ≡ true }
        ensures { result ≡ passed self.now cursor position }
    {
        // The position first: LLVM then goes on with it, which is an index already. The other way round a use takes 180 instructions in place of 178.
        if position == cursor.at {
            Cursor {
                at: self.following(position, cursor.cell),
                ..cursor
            }
        } else {
            cursor
        }
    }

    // Lets each record that mentions a narrower cell join those that wait, in list order.
    pub(crate) fn wake(&self, waiting: &mut Waiting, narrower: [Option<u16>; 3])
        requires { AllByRecursion InTable narrower }
        ensures { waiting.new ≡ waiting.old ++ joining self.now 0 waiting.old (λ c. among c (counted narrower)) }
    {
        // A walk along three chains at once, which counts nothing.
        let [a, b, c] = narrower;
        let mut first = self.start(a);
        let mut second = self.start(b);
        let mut third = self.start(c);
        let mut next = first.at.min(second.at).min(third.at);
        let end = self.count as u16;
        while next < end {
            waiting.join(next);
            first = self.pass(first, next);
            second = self.pass(second, next);
            third = self.pass(third, next);
            next = first.at.min(second.at).min(third.at);
        }
    }
}
