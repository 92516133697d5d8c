// Reads many logs from one file and prints the report of each.
#![tactic(auto)]

ghost use Rattle.std.specs.Prelude.{◌≡◌, ◌+◌, true, false, take, drop, Some, None};
ghost use Rattle.corpus.specs.Packs.{length_bytes, first_length, has_first};

use anyhow::anyhow;
use std::fs;
use std::io::Write;
use survey::write_survey;

// The first log of a file, and what stands after it.
fn first_log(bytes: &[u8]) -> Option<(&[u8], &[u8])>
    ensures { elim result [ Some x ↦ (has_first bytes.now ≡ true) × (x.0.now ≡ take (first_length bytes.now) (drop length_bytes bytes.now)) × (x.1.now ≡ drop (length_bytes + first_length bytes.now) bytes.now) | None ↦ has_first bytes.now ≡ false ] }
{
    let (length, rest) = bytes.split_first_chunk()?;
    rest.split_at_checked(u32::from_le_bytes(*length) as usize)
}

fn main(rt: HostRuntime) -> anyhow::Result<()> {
    let logs = fs::read(&rt, "logs")?;
    let mut reports = Vec::new(rt.alloc());
    let mut rest = logs.as_slice();
    while let Some((log, after)) = first_log(rest) {
        write_survey(log, &mut reports)?;
        rest = after;
    }
    if !rest.is_empty() {
        return Err(anyhow!("the last log is cut off"));
    }
    rt.stdout().write_all(reports.as_slice())?;
    Ok(())
}
