//! What the objects hold at the end of a run.
ghost use Rattle.std.specs.Prelude.{IfOk};
ghost use Rattle.gr_code.specs.Shapes.{shapes_of};
ghost use Rattle.gr_report.specs.Gathered.{AreGathered};
ghost use Rattle.gr_history.specs.Agreeing.{HoldPlain};

use crate::laws::runs_agree;
use gr_code::Code;
use gr_core::Core;
use gr_memory::Contents;
use std::alloc::{AllocError, Global};

/// What the objects hold by the cores, each object in the order of the program. Where the cores have ended a run, it
/// is what the objects hold in the plain memory after its history, though messages may still be under way.
pub fn contents<'a>(
    alloc: Global,
    code: &Code<'a>,
    cores: &[Core<'a>],
) -> Result<Contents, AllocError>
    ensures gathered { IfOk result (AreGathered cores.now 0 (shapes_of code.now.program)) }
    ensures plain { IfOk result (HoldPlain code.now.program cores.now) }
{
    let held = gr_report::contents(alloc, code, cores)?;
    runs_agree();
    Ok(held)
}
