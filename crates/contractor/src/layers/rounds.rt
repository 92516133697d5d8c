// How many rounds a contractor may take: from 1 to 1,000, and its type says so.
ghost use Rattle.std.specs.Prelude.{◌≡◌, true};
ghost use Rattle.contractor.specs.Counts.{is_count};

mod operations;

#[derive(Clone, Copy, Debug, PartialEq)]
pub struct Rounds {
    count: u32,
    ghost counted: { is_count count ≡ true },
}
