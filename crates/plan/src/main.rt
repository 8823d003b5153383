// Plans the two files of the current folder; the stored run is case A.
#![tactic(auto)]

use anyhow::Result;

fn main(rt: HostRuntime) -> Result<()> {
    plan_command::run(&rt)?;
    Ok(())
}
