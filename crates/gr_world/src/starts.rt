//! The cores of a run before the first event.
ghost use Rattle.std.specs.Prelude.{IfOk};
ghost use Rattle.gr_machine.specs.Machines.{machine_of};
ghost use Rattle.gr_posts.specs.Posts.{IsSetup};
ghost use Rattle.gr_world.specs.Worlds.{AreCores, AreOpened};

use gr_code::Code;
use gr_core::Core;
use gr_machine::Setup;
use gr_mail::mailboxes;
use std::alloc::{AllocError, Global};

/// The cores of a run before their first event, in the order of their numbers. It is an error where the program has too
/// many words for a run.
pub fn start<'a>(
    alloc: Global,
    setup: Setup,
    code: &'a Code<'a>,
) -> Result<Vec<Core<'a>>, AllocError>
    requires { IsSetup setup }
    ensures cores { IfOk result (λ cores. AreCores (machine_of setup code.now.program) cores.items) }
    ensures opened { IfOk result (λ cores. AreOpened cores.items) }
{
    let mails = mailboxes(alloc, setup.cores)?;
    let mut cores = Vec::new(alloc);
    for mail in mails {
        let core = Core::start(alloc, setup, cores.len() as u64, code, mail)?;
        cores.push(core)?;
    }
    Ok(cores)
}
