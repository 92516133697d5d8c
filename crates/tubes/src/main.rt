// Reads a swim log from standard input and writes its report to standard output.
#![tactic(auto)]

use std::io;
use std::io::{Read, Write};
use survey::{input_limit, write_survey};

fn main(rt: HostRuntime) -> io::Result<()> {
    let mut log = Vec::new(rt.alloc());
    // What stands after the first bytes of an input that is too long changes nothing, so that an endless one ends.
    rt.stdin().take(input_limit() as u64).read_to_end(&mut log)?;
    let mut report = Vec::new(rt.alloc());
    write_survey(log.as_slice(), &mut report)?;
    rt.stdout().write_all(report.as_slice())
}
