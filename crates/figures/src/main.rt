// Runs the worked figures through the code, and prints what it tells beside what is expected.
#![tactic(auto)]

mod example;
mod failed;
mod portfolio;
mod sizes;
mod strays;
mod table;
mod told;

use crate::example::whole_example;
use crate::failed::Failed;
use crate::sizes::sizes;
use crate::strays::strays;
use crate::table::proved_figures;

fn main(rt: HostRuntime) -> Result<(), Failed> {
    println!(rt;
        "figures proved under the definitions: {}",
        proved_figures()
    )?;
    whole_example(&rt)?;
    strays(&rt)?;
    sizes(&rt)?;
    Ok(())
}
