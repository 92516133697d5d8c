// A net of records that are used again as long as the cells that they mention become narrower.
#![tactic(auto)]

ghost use Rattle.net.specs.Nets.{NetsKeep};
ghost use Rattle.net.specs.Piles.{PilesKeep};

mod chains;
mod examples;
mod net;
mod run;
mod waiting;

pub use examples::examples_hold;
pub use net::{MAX_RECORDS, Net};

// Whatever records a net has, if each keeps the meaning of a contractor, so does the net.
pub fn nets_keep()
    ensures { NetsKeep }
{}

// However contractors that keep the meaning are piled under the layers, the pile's value is the one worked out, and it keeps the meaning.
pub fn piles_keep()
    ensures { PilesKeep }
{}
