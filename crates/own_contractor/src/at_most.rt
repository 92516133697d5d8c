// One cell is at most another: the robot never passes the diver who swims ahead of it.
ghost use Rattle.std.specs.Prelude.{◌≡◌, true};
ghost use Rattle.own_contractor.specs.Orders.{are_order_cells};

mod contracting;

// Cell `behind` is at most cell `ahead`.
#[derive(Clone, Copy, Debug, Drop, Eq, PartialEq)]
pub struct AtMost {
    number: u16,
    behind: usize,
    ahead: usize,
    ghost placed: { are_order_cells behind ahead ≡ true },
}
