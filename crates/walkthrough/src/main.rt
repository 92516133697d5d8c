// A tour of the library for a reader who has never seen it: a short swim along a quay wall, narrowed by hand.
#![tactic(auto)]

use constraint::Bound;
use contractor::{Answer, Contractor, Verdict};
use tube::Row;

mod pile;
mod proposals;
mod swim;

use swim::{ANYWHERE, CELLS, Record, cell_name};

fn main(rt: HostRuntime) -> anyhow::Result<()> {
    tour(&rt)
}

fn tour(rt: &HostRuntime) -> anyhow::Result<()> {
    rt.println("A robot swims past three gates along a quay wall. Nothing is known of it yet:")?;
    let mut tube = [ANYWHERE; CELLS];
    show_tube(rt, &tube)?;
    let records = swim::records(rt.alloc())?;
    let calls = narrow_in_turns(rt, &records, &mut tube)?;
    println!(rt;
        "\nThe tube that is left after {calls} calls. It holds every path that obeys the records:"
    )?;
    show_tube(rt, &tube)?;
    let mut fresh = [ANYWHERE; CELLS];
    pile::show(rt, &records, &mut fresh)?;
    show_tube(rt, &fresh)?;
    show_refusals(rt, &mut tube)?;
    show_contradiction(rt, &mut tube)?;
    let mut work = [ANYWHERE; CELLS];
    proposals::show(rt, &mut tube, &mut work)
}

fn show_tube(rt: &HostRuntime, tube: &[Row]) -> anyhow::Result<()> {
    for (cell, row) in tube.iter().enumerate() {
        let name = cell_name(cell);
        println!(rt; "  {name}: {row}")?;
    }
    Ok(())
}

// Uses each record in turn until a whole turn changes no cell, and answers the calls made.
fn narrow_in_turns(rt: &HostRuntime, records: &[Record], tube: &mut [Row]) -> anyhow::Result<u64> {
    let mut calls = 0u64;
    for turn in 1..100u32 {
        println!(rt; "\nTurn {turn}.")?;
        let (made, changed) = narrow_once(rt, records, tube)?;
        calls = calls.saturating_add(made);
        if !changed {
            rt.println("No cell changed in this turn, so no record has more to say.")?;
            break;
        }
    }
    Ok(calls)
}

// Uses each record once: the calls made, and whether any cell changed, which says nothing of the calls.
fn narrow_once(
    rt: &HostRuntime,
    records: &[Record],
    tube: &mut [Row],
) -> anyhow::Result<(u64, bool)> {
    let mut calls = 0u64;
    let mut changed = false;
    for record in records {
        println!(rt; "  {}:", record.says)?;
        let before = tube.to_vec(rt.alloc())?;
        let mut constraint = record.constraint;
        match constraint.contract(tube) {
            Ok(answer) => {
                changed = show_changes(rt, &before, tube)? || changed;
                show_answer(rt, answer)?;
                calls = calls.saturating_add(answer.calls);
            }
            Err(refusal) => {
                let number = refusal.number();
                println!(rt; "    refused {number}")?;
            }
        }
    }
    Ok((calls, changed))
}

fn show_changes(rt: &HostRuntime, before: &[Row], after: &[Row]) -> anyhow::Result<bool> {
    for (cell, (old, new)) in before.iter().zip(after.iter()).enumerate() {
        if *old != *new {
            let name = cell_name(cell);
            println!(rt; "    {name}: {old} becomes {new}")?;
        }
    }
    let changed = *before != *after;
    if !changed {
        rt.println("    no cell changes")?;
    }
    Ok(changed)
}

fn show_answer(rt: &HostRuntime, answer: Answer) -> anyhow::Result<()> {
    let calls = answer.calls;
    match answer.verdict {
        Verdict::Kept(mark) => println!(rt; "    kept, {mark}, calls {calls}")?,
        Verdict::Empty(fault) => {
            let number = fault.number;
            let cause = fault.cause;
            let name = cell_name(fault.cell);
            println!(rt;
                "    empty: constraint {number}, cause {cause}, nothing is left at {name}"
            )?;
        }
    }
    Ok(())
}

fn show_refusals(rt: &HostRuntime, tube: &mut [Row]) -> anyhow::Result<()> {
    rt.println(
        "\nA constraint that makes no sense is refused when it is made. A bound from 5 down to 3:",
    )?;
    match Bound::new(11, 0, 5, 3) {
        Ok(_) => rt.println("    made")?,
        Err(fault) => {
            let number = fault.number();
            let words = fault.words();
            println!(rt; "    refused {number}: {words}")?;
        }
    }
    rt.println(
        "A use that makes no sense is refused too, and the tube stays as it was. A bound on cell 20 of our 10:",
    )?;
    match Bound::new(12, 20, 0, 9)?.contract(tube) {
        Ok(answer) => show_answer(rt, answer)?,
        Err(refusal) => {
            let number = refusal.number();
            println!(rt;
                "    refused {number}: the table is no tube, or has fewer cells than the bound needs"
            )?;
        }
    }
    Ok(())
}

fn show_contradiction(rt: &HostRuntime, tube: &mut [Row]) -> anyhow::Result<()> {
    rt.println("\nA diver saw the robot at gate 2, and wrote down an x from 7000 to 7100:")?;
    let answer = Bound::new(13, 2, 7000, 7100)?.contract(tube)?;
    show_answer(rt, answer)?;
    rt.println(
        "No path obeys the records and the diver's note together: one of them is wrong. The tube is untouched:",
    )?;
    show_tube(rt, tube)
}
