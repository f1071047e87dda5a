//! The ends of the cores of a run.
ghost use Rattle.std.specs.Prelude.{IfOk};
ghost use Rattle.gr_machine.specs.Machines.{Machine};
ghost use Rattle.gr_world.specs.Worlds.{AreCores, AreEnds, AreEndsOf, AreOfOneRun, HaveAllMet};

use gr_core::Core;
use gr_machine::CoreEnds;
use std::alloc::{AllocError, Global};

/// The ends of these cores, in their order.
fn ends_of<'a>(alloc: Global, cores: Vec<Core<'a>>) -> Result<CoreEnds, AllocError>
    ensures { IfOk result (λ ends. AreEndsOf cores.entry.items ends) }
{
    let mut ends = CoreEnds::new(alloc);
    for core in cores {
        ends.push(core.finish())?;
    }
    Ok(ends)
}

/// The ends of the cores of one run, of which each two have met, in the order of their numbers.
pub fn finish<'a>(alloc: Global, cores: Vec<Core<'a>>) -> Result<CoreEnds, AllocError>
    requires cores { AreOfOneRun cores.items }
    requires met { HaveAllMet cores.items }
    ensures each { IfOk result (λ ends. AreEndsOf cores.entry.items ends) }
    ensures ends { IfOk result (λ ends.
        (machine : Machine) → AreCores machine cores.entry.items → AreEnds machine ends) }
{
    let ends = ends_of(alloc, cores)?;
    Ok(ends)
}
