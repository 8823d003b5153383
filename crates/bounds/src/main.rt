// Which splits of the three files of the current folder can be the cheapest; the stored run is case A with its last entry between 20 and 21.
#![tactic(auto)]

use anyhow::Result;

fn main(rt: HostRuntime) -> Result<()> {
    bounds_command::run(&rt)?;
    Ok(())
}
