// The layers: contractors made of contractors.
ghost use Rattle.std.specs.Prelude.{◌≡◌, ◌+◌, ◌≤◌, max, true, length};
ghost use Rattle.contractor.specs.Answers.{Placed};
ghost use Rattle.contractor.specs.Contractors.{Accepted};
ghost use Rattle.contractor.specs.Layers.{above, capped, either_stopped, leaving};
ghost use Rattle.contractor.specs.Refusals.{most_layers, most_calls};
ghost use Rattle.tube.specs.Tubes.{is_tube};

use crate::answer::{Answer, Mark};
use crate::contractor::Contractor;
use crate::refusal::{MAX_CALLS, MAX_LAYERS};
use tube::Row;

mod both;
mod either;
mod repeat;
mod rounds;

pub use both::Both;
pub use either::Either;
pub use repeat::Repeat;
pub use rounds::Rounds;

// Uses a part that is not refused, and says what is owed of every use: the tube is left a tube, and the answer's numbers stay small.
fn use_part<C: Contractor>(part: &mut C, tube: &mut [Row]) -> Answer
    requires { Accepted (C.value part.old) tube.old }
    ensures same { C.value part.new ≡ C.value part.old }
    ensures answer { leaving result tube.new ≡ (C.value part.old).narrowed tube.old }
    ensures left { is_tube tube.new ≡ true }
    ensures few { result.calls ≤ most_calls }
    ensures placed { Placed most_layers (length tube.old) result.verdict }
{
    part.narrow(tube)
}

// The height of a layer over parts of this height.
fn height_above(height: u8) -> u8
    ensures { result ≡ above height }
{
    height.min(MAX_LAYERS) + 1
}

// A ceiling as it is told: past the limit it does not matter by how much.
fn capped_calls(calls: u64) -> u64
    ensures { result ≡ capped calls }
{
    calls.min(MAX_CALLS + 1)
}

// The figures of a layer over two parts, whatever it does with them.
fn need_over<A: Contractor, B: Contractor>(first: &A, second: &B) -> usize
    ensures { result ≡ max (A.value first.now).need (B.value second.now).need }
{
    first.need().max(second.need())
}

fn height_over<A: Contractor, B: Contractor>(first: &A, second: &B) -> u8
    ensures { result ≡ above (max (A.value first.now).height (B.value second.now).height) }
{
    height_above(first.height().max(second.height()))
}

fn ceiling_over<A: Contractor, B: Contractor>(first: &A, second: &B) -> u64
    ensures { result ≡ capped ((A.value first.now).ceiling + (B.value second.now).ceiling) }
{
    capped_calls(first.ceiling() + second.ceiling())
}

// The mark of two uses that are both kept.
fn either_stopped(first: Mark, second: Mark) -> Mark
    ensures { result ≡ either_stopped first second }
{
    first.max(second)
}
