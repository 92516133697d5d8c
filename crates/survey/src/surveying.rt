// From the bytes of a log to its report: what the log says is narrowed on a tube of which nothing is known yet.
ghost use Rattle.std.specs.Prelude.{◌≡◌, true, replicate, None};
ghost use Rattle.tube.specs.Tubes.{most_cells};
ghost use Rattle.contractor.specs.Contractors.{Fair};
ghost use Rattle.contractor.specs.Counts.{is_count};
ghost use Rattle.contractor.specs.RoundCounts.{count_of};
ghost use Rattle.survey.specs.Surveys.{widest, first_tube, Reported, Surveyed};
ghost use Rattle.survey.specs.Swims.{Worth};
ghost use Rattle.survey.specs.Tracks.{first_refusal};

use crate::tracked::use_on_track;
use contractor::{Answer, Both, Contractor, Repeat, Rounds, Verdict};
use net::Net;
use swimlog::{Report, Sizes, read_log};
use tube::{MAX_CELLS, Row};

// How many rounds each of the nets may take, and the pile over both.
const NET_ROUNDS: u32 = 32;

const PILE_ROUNDS: u32 = 8;

fn rounds(count: u32) -> Rounds
    requires { is_count count ≡ true }
    ensures { count_of result ≡ count }
{
    Rounds::new(count).unwrap()
}

// A table with as many rows as any tube, all as wide as can be.
fn widest_table() -> [Row; MAX_CELLS]
    ensures { result ≡ replicate most_cells widest }
{
    [Row::WIDEST; MAX_CELLS]
}

// What a contractor makes of a tube of which nothing is known.
fn report_by<C: Contractor>(contractor: &mut C, sizes: Sizes) -> Report
    requires { first_refusal (C.value contractor.old) (first_tube sizes.gates) ≡ None }
    ensures reported { Reported (C.value contractor.old) sizes result }
    ensures fair { Fair (C.value contractor.old) (first_tube sizes.gates) ((C.value contractor.old).narrowed (first_tube sizes.gates)) }
{
    let mut tube = widest_table();
    let Answer { verdict, calls } = use_on_track(contractor, &mut tube[0..sizes.cells()]);
    match verdict {
        Verdict::Kept(mark) => Report::Kept {
            calls,
            mark,
            sizes,
            tube,
        },
        Verdict::Empty(fault) => Report::Empty { fault, calls },
    }
}

// Reads a log and reports what it says of the swim.
pub fn survey(bytes: &[u8]) -> Report
    ensures report { Surveyed bytes.now result }
    ensures worth { Worth bytes.now result }
{
    let mut pile = Repeat {
        rounds: rounds(PILE_ROUNDS),
        part: Both {
            first: Net::new(rounds(NET_ROUNDS)),
            second: Net::new(rounds(NET_ROUNDS)),
        },
    };
    match read_log(bytes, &mut pile.part.first, &mut pile.part.second) {
        Ok(sizes) => report_by(&mut pile, sizes),
        Err(fault) => Report::Refused(fault),
    }
}
