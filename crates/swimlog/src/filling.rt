// The two nets that a log fills: one gets the steps and the bounds, the other the ranges.
ghost use Rattle.std.specs.Prelude.{◌≡◌, ◌+◌, ◌-◌, ◌<◌, ◌≤◌, [], ◌∷◌, length, None, Ok};
ghost use Rattle.net.specs.Nets.{most_records};
ghost use Rattle.net.specs.Records.{records};
ghost use Rattle.swimlog.specs.Fillings.{said_of, axis_steps, to_first, to_second, added, Grown, Filled};
ghost use Rattle.swimlog.specs.Logs.{log_fault};

use crate::fault::LogFault;
use crate::kind::Axis;
use crate::log::Log;
use crate::sizes::Sizes;
use constraint::Constraint;
use net::Net;

// One more record in a net that has room for it.
fn add(net: &mut Net, constraint: Constraint)
    requires { length (records net.old) < most_records }
    ensures { Grown (said_of constraint ∷ []) net.old net.new }
{
    net.push(constraint).unwrap();
}

// The steps of all slices on one axis.
fn add_steps(net: &mut Net, sizes: Sizes, axis: Axis)
    requires { length (records net.old) + sizes.gates ≤ most_records }
    ensures { Grown (axis_steps sizes.gates axis (sizes.gates - 1)) net.old net.new }
{
    for slice in 0..sizes.gates() - 1 {
        add(net, sizes.slice_step(axis, slice));
    }
}

// A record's constraint, to the net that it belongs to. The nets stay two parameters: a struct of both would be made for these calls alone, and each has its own facts.
fn add_record(constraint: Constraint, one: &mut Net, two: &mut Net)
    requires one { length (records one.old) < most_records }
    requires two { length (records two.old) < most_records }
    ensures one { Grown (to_first (Ok (said_of constraint))) one.old one.new }
    ensures two { Grown (to_second (Ok (said_of constraint))) two.old two.new }
{
    match constraint {
        Constraint::Bound(_) | Constraint::Step(_) => add(one, constraint),
        Constraint::Range(_) => add(two, constraint),
    }
}

// The records of a log that was checked.
fn add_records(log: &Log, one: &mut Net, two: &mut Net)
    requires sound { log_fault log.now.bytes.now ≡ None }
    requires one { length (records one.old) + log.now.sizes.records ≤ most_records }
    requires two { length (records two.old) + log.now.sizes.records ≤ most_records }
    ensures one { Grown (added to_first log.now.bytes.now log.now.sizes.gates log.now.sizes.records log.now.sizes.records) one.old one.new }
    ensures two { Grown (added to_second log.now.bytes.now log.now.sizes.gates log.now.sizes.records log.now.sizes.records) two.old two.new }
{
    for index in 0..log.sizes().records() {
        add_record(log.constraint(index), one, two);
    }
}

// Replaces the records of two nets by those of a log. A log that is refused leaves both as they were.
pub fn read_log(bytes: &[u8], one: &mut Net, two: &mut Net) -> Result<Sizes, LogFault>
    ensures { Filled bytes.now one.old two.old one.new two.new result }
{
    let log = Log::checked(bytes)?;
    let sizes = log.sizes();
    one.clear();
    two.clear();
    add_steps(one, sizes, Axis::X);
    add_steps(one, sizes, Axis::Y);
    add_records(&log, one, two);
    Ok(sizes)
}
