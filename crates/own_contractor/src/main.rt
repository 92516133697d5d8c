// A contractor of one's own, written outside the library and piled with the library's contractors under its layers.
#![tactic(auto)]

use constraint::{Bound, Constraint, Step};
use contractor::{Both, Contractor, Either, Repeat, Rounds, Verdict};
use net::Net;
use tube::Row;

mod at_most;

use at_most::AtMost;

fn main(rt: HostRuntime) -> anyhow::Result<()> {
    show(&rt)
}

fn show(rt: &HostRuntime) -> anyhow::Result<()> {
    rt.println(
        "Cells: 0 the robot at gate 0, 1 its step, 2 the robot at gate 1, 3 the diver at gate 1.",
    )?;
    let mut tube = [span(0, 10), span(0, 100), span(0, 500), span(20, 90)];
    let mut behind_diver = AtMost::new(1, 2, 3)?;
    use_it(
        rt,
        "the robot stays behind the diver",
        &mut behind_diver,
        &mut tube,
    )?;
    let rounds = Rounds::new(5)?;
    let mut moves = Net::new(rounds);
    moves.push(Constraint::Step(Step::new(2, 0, 1, 2)?))?;
    moves.push(Constraint::Bound(Bound::new(6, 1, 0, 65)?))?;
    let either_time = Either {
        first: Bound::new(3, 3, 30, 40)?,
        second: Bound::new(4, 3, 60, 70)?,
    };
    let together = Both {
        first: moves,
        second: Both {
            first: behind_diver,
            second: either_time,
        },
    };
    let mut pile = Repeat {
        rounds,
        part: together,
    };
    use_it(
        rt,
        "five rounds of a net of its moves, of staying behind, and of one of two sightings of the diver",
        &mut pile,
        &mut tube,
    )?;
    let mut overtaken = Both {
        first: Bound::new(5, 2, 75, 90)?,
        second: behind_diver,
    };
    use_it(
        rt,
        "a fix that puts the robot ahead of the diver",
        &mut overtaken,
        &mut tube,
    )
}

// A row in few words.
fn span(low: i32, high: i32) -> Row {
    Row { low, high }
}

fn use_it<C: Contractor>(
    rt: &HostRuntime,
    says: &str,
    contractor: &mut C,
    tube: &mut [Row],
) -> anyhow::Result<()> {
    let need = contractor.need();
    let height = contractor.height();
    let ceiling = contractor.ceiling();
    println!(rt; "\n{says}: needs {need} cells, height {height}, at most {ceiling} calls")?;
    match contractor.contract(tube) {
        Ok(answer) => {
            let calls = answer.calls;
            match answer.verdict {
                Verdict::Kept(mark) => println!(rt; "  kept, {mark}, {calls} calls")?,
                Verdict::Empty(fault) => {
                    let number = fault.number;
                    let cause = fault.cause;
                    let cell = fault.cell;
                    let path = fault.path;
                    println!(rt;
                        "  empty: constraint {number}, cause {cause}, at cell {cell}, path {path}, {calls} calls"
                    )?;
                }
            }
        }
        Err(refusal) => {
            let number = refusal.number();
            println!(rt; "  refused {number}")?;
        }
    }
    for (cell, row) in tube.iter().enumerate() {
        println!(rt; "  cell {cell}: {row}")?;
    }
    Ok(())
}
