// A benchmark: a full net of 510 records along a swim of 171 gates, used again and again on a fresh tube. It prints how many uses its records made;
// a clock outside tells how long that took.
#![tactic(auto)]

use constraint::{Bound, Constraint, Step};
use contractor::{Contractor, Rounds};
use net::Net;
use tube::Row;

// Positions first, and then the steps between them.
const GATES: usize = 171;

const CELLS: usize = 2 * GATES - 1;

const TURNS: u32 = 2_000;

fn fill(net: &mut Net) -> anyhow::Result<()> {
    for k in 0..GATES - 1 {
        net.push(Constraint::Step(Step::new(0, k, GATES + k, k + 1)?))?;
    }
    for k in 0..GATES - 1 {
        net.push(Constraint::Bound(Bound::new(1, GATES + k, 900, 1100)?))?;
    }
    for k in 0..GATES - 1 {
        net.push(Constraint::Bound(Bound::new(2, k, 0, 200_000)?))?;
    }
    Ok(())
}

fn main(rt: HostRuntime) -> anyhow::Result<()> {
    let mut net = Net::new(Rounds::new(32)?);
    fill(&mut net)?;
    let mut uses = 0u64;
    for _ in 0..TURNS {
        let mut tube = [Row::WIDEST; CELLS];
        if let Ok(answer) = net.contract(&mut tube) {
            uses = uses.saturating_add(answer.calls);
        }
    }
    let records = net.len();
    println!(rt; "{records} records made {uses} uses in {TURNS} turns")?;
    Ok(())
}
