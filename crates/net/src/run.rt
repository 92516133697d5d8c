// The run of a net: its records are used until none waits, one empties, or the allowance is used.
ghost use Rattle.std.specs.Prelude.{◌≡◌, ◌≤◌, true, map, length};
ghost use Rattle.tube.specs.Tubes.{is_tube, cell};
ghost use Rattle.contractor.specs.Contractors.{Accepted};
ghost use Rattle.contractor.specs.Layers.{leaving};
ghost use Rattle.constraint.specs.Kinds.{constraint_value};
ghost use Rattle.net.specs.Links.{Three};
ghost use Rattle.net.specs.Nets.{greatest_need, if_other, positions, spun, most_records};
ghost use Rattle.net.specs.Records.{parts};
ghost use Rattle.net.specs.Uses.{UseOf};

use crate::chains::Chains;
use crate::waiting::Waiting;
use constraint::Constraint;
use contractor::{Answer, Contractor, Mark, Verdict};
use tube::Row;

// The digit that a fault's path gets on its way up.
const DIGIT: u64 = 5;

// What a use of a record did: its verdict, and slot by slot those of the record's cells that it made narrower.
#[derive(Clone, Copy)]
struct Use {
    verdict: Verdict,
    narrower: [Option<u16>; 3],
}

// The most cells that any of some records needs.
pub(crate) fn greatest_need(records: &[Constraint]) -> usize
    ensures { result ≡ greatest_need (parts records.now) }
{
    let mut need = 0;
    for constraint in records {
        need = constraint.need().max(need);
    }
    need
}

// The rows of three cells. Spelled out: a map leaves two goals, that each cell may be looked up and what comes of it, for three lookups.
fn rows_at(tube: &[Row], cells: [u16; 3]) -> [Row; 3]
    requires { Three (length tube.now) cells }
    ensures { result ≡ map (cell tube.now) cells }
{
    let [a, b, c] = cells;
    [tube[a as usize], tube[b as usize], tube[c as usize]]
}

// A cell, if its rows before and after are not the same.
fn if_other(cell: u16, before: Row, after: Row) -> Option<u16>
    ensures { result ≡ if_other cell before after }
{
    (before != after).then_some(cell)
}

// Uses a constraint on a tube, and compares the cells that it mentions.
fn use_on(constraint: Constraint, tube: &mut [Row]) -> Use
    requires { Accepted (constraint_value constraint) tube.old }
    ensures { UseOf constraint tube.old tube.new result }
{
    let mut used = constraint;
    let cells = constraint.cells();
    let before = rows_at(tube, cells);
    let answer = used.narrow(tube);
    let after = rows_at(tube, cells);
    Use {
        verdict: answer.verdict,
        narrower: [
            if_other(cells[0], before[0], after[0]),
            if_other(cells[1], before[1], after[1]),
            if_other(cells[2], before[2], after[2]),
        ],
    }
}

// Uses the records on a tube, at most so many times.
pub(crate) fn run(records: &[Constraint], allowance: u64, tube: &mut [Row]) -> Answer
    requires few { length records.now ≤ most_records }
    requires tube { is_tube tube.old ≡ true }
    requires need { greatest_need (parts records.now) ≤ length tube.old }
    ensures { leaving result tube.new ≡ spun (parts records.now) allowance (positions 0 (length records.now)) tube.old 0 }
{
    let chains = Chains::of(records);
    let mut waiting = Waiting::all(records.len());
    for calls in 0..allowance {
        let Some(position) = waiting.take_first() else {
            return Answer::kept(Mark::Settled, calls);
        };
        let used = use_on(records[position as usize], tube);
        match used.verdict {
            Verdict::Kept(_) => chains.wake(&mut waiting, used.narrower),
            Verdict::Empty(fault) => return Answer::empty(fault.passed_up(DIGIT), calls + 1),
        }
    }
    Answer::kept(waiting.mark(), allowance)
}
