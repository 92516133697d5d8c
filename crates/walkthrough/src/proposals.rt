// The tour of a track: proposals that are committed, withdrawn, and emptied and closed.
use constraint::Bound;
use track::{Proposal, Refused, Rest, TrackRefusal, Used, make};
use tube::Row;

// The calls that the tour allows itself.
const ALLOWANCE: u64 = 4;

// What became of a proposal. It was spent before this is told: none can be forgotten.
#[derive(Clone, Copy)]
enum Ending {
    Committed,
    Withdrawn,
    Closed { number: u16, cell: usize },
    Refused(TrackRefusal),
}

pub(crate) fn show(
    rt: &HostRuntime,
    committed: &mut [Row],
    work: &mut [Row],
) -> anyhow::Result<()> {
    println!(rt;
        "\nThe same tube on a track, with an allowance of {ALLOWANCE} calls. A proposal is narrowed in a table of its own."
    )?;
    let rest = make(committed, ALLOWANCE)?;
    let charged = rest.charged();
    println!(rt; "make: at rest, {charged} calls charged")?;
    let rest = go(
        rt,
        rest,
        Bound::new(20, 1, 2960, 3040)?,
        commit,
        committed,
        work,
    )?;
    let rest = go(
        rt,
        rest,
        Bound::new(21, 1, 2990, 2995)?,
        withdraw,
        committed,
        work,
    )?;
    let rest = go(
        rt,
        rest,
        Bound::new(22, 1, 4000, 4100)?,
        commit,
        committed,
        work,
    )?;
    let rest = go(
        rt,
        rest,
        Bound::new(23, 1, 2980, 3020)?,
        commit,
        committed,
        work,
    )?;
    let rest = go(
        rt,
        rest,
        Bound::new(24, 1, 3000, 3010)?,
        commit,
        committed,
        work,
    )?;
    let charged = rest.charged();
    println!(rt;
        "In all {charged} calls were charged, for proposals that were committed and for others."
    )?;
    Ok(())
}

// One proposal from its opening to its end, told call by call. The two tables are lent to each call, as the library asks, so no struct holds them.
fn go<E: FnOnce(Proposal, &mut [Row], &[Row]) -> (Rest, Ending)>(
    rt: &HostRuntime,
    rest: Rest,
    bound: Bound,
    end: E,
    committed: &mut [Row],
    work: &mut [Row],
) -> anyhow::Result<Rest>
    requires { E.IsAlwaysCallable end }
{
    let before = rest.charged();
    let (rest, ending) = propose(rest, bound, end, committed, work);
    let after = rest.charged();
    println!(rt; "propose: proposing, {before} calls charged")?;
    match ending {
        Ending::Committed => {
            println!(rt; "  use a bound: kept, still proposing, {after} calls charged")?;
            println!(rt; "  commit: at rest, {after} calls charged")?;
        }
        Ending::Withdrawn => {
            println!(rt; "  use a bound: kept, still proposing, {after} calls charged")?;
            println!(rt;
                "  withdraw: at rest, {after} calls charged; the committed table is as it was"
            )?;
        }
        Ending::Closed { number, cell } => {
            println!(rt;
                "  use a bound: emptied by constraint {number} at cell {cell}, {after} calls charged"
            )?;
            println!(rt;
                "  close: at rest, {after} calls charged; the committed table is as it was"
            )?;
        }
        Ending::Refused(refusal) => {
            let number = refusal.number();
            println!(rt;
                "  use a bound: refused {number}, still proposing, {after} calls charged"
            )?;
            println!(rt; "  withdraw: at rest, {after} calls charged")?;
        }
    }
    Ok(rest)
}

// Uses a bound on a new proposal. One that is kept comes to its end by the step that is handed in.
fn propose<E: FnOnce(Proposal, &mut [Row], &[Row]) -> (Rest, Ending)>(
    rest: Rest,
    mut bound: Bound,
    end: E,
    committed: &mut [Row],
    work: &mut [Row],
) -> (Rest, Ending)
    requires { E.IsAlwaysCallable end }
{
    match rest.propose(committed, work) {
        Err(Refused { standing, refusal }) => (standing, Ending::Refused(refusal)),
        Ok(proposal) => match proposal.apply(&mut bound, work) {
            Err(refused) => give_up(refused),
            Ok(Used::Emptied(emptied)) => {
                let (fault, rest) = emptied.close();
                (
                    rest,
                    Ending::Closed {
                        number: fault.number,
                        cell: fault.cell,
                    },
                )
            }
            Ok(Used::Kept(proposal, _)) => end(proposal, committed, work),
        },
    }
}

fn commit(proposal: Proposal, committed: &mut [Row], work: &[Row]) -> (Rest, Ending) {
    match proposal.commit(committed, work) {
        Ok(rest) => (rest, Ending::Committed),
        Err(refused) => give_up(refused),
    }
}

fn withdraw(proposal: Proposal, _committed: &mut [Row], _work: &[Row]) -> (Rest, Ending) {
    (proposal.withdraw(), Ending::Withdrawn)
}

// What was refused on a proposal is told, and the proposal withdrawn.
fn give_up(refused: Refused<Proposal>) -> (Rest, Ending) {
    let Refused { standing, refusal } = refused;
    (standing.withdraw(), Ending::Refused(refusal))
}
