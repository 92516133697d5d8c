// The same swim by one pile: rounds over a composition of two nets, which does by itself what the tour did by hand.
use crate::swim::Record;
use contractor::{Both, Contractor, Repeat, Rounds};
use net::Net;
use tube::Row;

// How many of the records stand in the first net: the steps and the bounds. The range stands in the second.
const FIRST: usize = 10;

pub(crate) fn show(rt: &HostRuntime, records: &[Record], tube: &mut [Row]) -> anyhow::Result<()> {
    let rounds = Rounds::new(32)?;
    let mut first = Net::new(rounds);
    let mut second = Net::new(rounds);
    for record in records.iter().take(FIRST) {
        first.push(record.constraint)?;
    }
    for record in records.iter().skip(FIRST) {
        second.push(record.constraint)?;
    }
    let mut pile = Repeat {
        rounds: Rounds::new(8)?,
        part: Both { first, second },
    };
    let need = pile.need();
    let height = pile.height();
    let ceiling = pile.ceiling();
    rt.println(
        "\nThe same by one pile: at most 8 rounds over two nets, one with the steps and the bounds, one with the range.",
    )?;
    println!(rt; "It needs {need} cells, has height {height}, and makes at most {ceiling} calls.")?;
    match pile.contract(tube) {
        Ok(answer) => crate::show_answer(rt, answer)?,
        Err(refusal) => {
            let number = refusal.number();
            println!(rt; "    refused {number}")?;
        }
    }
    Ok(())
}
