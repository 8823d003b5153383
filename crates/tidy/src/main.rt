// Writes the case of two files as two new files; the stored run is case A, with quotes and without its last line ends.
#![tactic(auto)]

use anyhow::Result;

fn main(rt: HostRuntime) -> Result<()> {
    plan_command::tidy(&rt)?;
    Ok(())
}
