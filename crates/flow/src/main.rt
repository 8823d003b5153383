// The cheapest flow of the network, the arc and the table that the arguments name; the stored run is the example with two plants, a depot and two terminals.
#![tactic(auto)]

use anyhow::Result;

fn main(rt: HostRuntime) -> Result<()> {
    flow_command::run(&rt)?;
    Ok(())
}
