// An emptied proposal can only be closed.
ghost use Rattle.track.specs.Standings.{Closing};

use crate::standing::{Emptied, Rest};
use contractor::Fault;

impl Emptied {
    // Hands out why nothing was left, and rests. No table is written.
    pub fn close(self) -> (Fault, Rest)
        ensures { Closing self result.0 result.1 }
    {
        let Emptied { account, fault } = self;
        (fault, Rest { account })
    }
}
