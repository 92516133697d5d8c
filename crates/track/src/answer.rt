// What the calls of a track answer.
use crate::refusal::TrackRefusal;
use crate::standing::{Emptied, Proposal};
use contractor::Mark;

// A refused call hands the standing back as it was. One with a proposal in it can't be dropped either.
#[derive(Drop)]
pub struct Refused<S> {
    pub standing: S,
    pub refusal: TrackRefusal,
}

// What a use that is not refused answers. The calls are charged to the standing that it hands back.
pub enum Used {
    // The work table is narrowed, and may hold trajectories.
    Kept(Proposal, Mark),
    // It holds none.
    Emptied(Emptied),
}
