//! Each event of a core, at its rings.
ghost use Rattle.std.specs.Prelude.{◌≡◌, IfOk, OnOk, true};
ghost use Rattle.gr_machine.specs.Enabled.{enabled};
ghost use Rattle.gr_machine.specs.declared.event.Event.TheVariants as event;
ghost use Rattle.gr_mail.specs.Rings.{SameRings};
ghost use Rattle.gr_serves.specs.Heaps.{KnowsHeap};
ghost use Rattle.gr_core.specs.CoreView.{Carries, run_in};
ghost use Rattle.gr_core.specs.Mails.{NoneForgotten, SameKnownUnless, WaitsUnless};
ghost use Rattle.gr_core.specs.Runs.{IsRun, MadeOr};

use crate::running::Running;
use gr_machine::Event;
use gr_mail::{Mail, Sent};
use gr_reduce::Reducers;
use std::alloc::AllocError;

/// Takes the next packet of another core; false, and nothing has changed, where none is known to be there.
#[tactic(auto, using(crate::proofs::Carrying::carried, crate::proofs::Keeping::keeps))]
fn take(mail: &mut Mail, running: &mut Running, from: u64) -> Result<bool, AllocError>
    requires enabled { let s = (run_in running.old).seen in
        enabled s.machine s.me s.core (event.Take from) ≡ true }
    requires carries { Carries mail.old (run_in running.old) }
    ensures made { IfOk result (λ done.
        MadeOr (run_in running.old) (event.Take from) (run_in running.new) done) }
    ensures waits { IfOk result (λ done. WaitsUnless done mail.old (event.Take from)) }
    ensures carries { OnOk result (Carries mail.new (run_in running.new)) }
    ensures rings { OnOk result (SameRings mail.old mail.new) }
    ensures kept { OnOk result (NoneForgotten mail.old mail.new) }
    ensures same { IfOk result (λ done. SameKnownUnless done mail.old mail.new) }
{
    let found = mail.take(from);
    match found {
        None => Ok(false),
        Some(packet) => {
            running.take(from, packet)?;
            Ok(true)
        }
    }
}

/// Ships a packet to another core; false, and nothing has changed, where no room for it is known.
#[tactic(auto, using(crate::proofs::Carrying::carried, crate::proofs::Keeping::keeps))]
fn ship(mail: &mut Mail, running: &mut Running, dest: u64) -> Result<bool, AllocError>
    requires enabled { let s = (run_in running.old).seen in
        enabled s.machine s.me s.core (event.Ship dest) ≡ true }
    requires carries { Carries mail.old (run_in running.old) }
    ensures made { IfOk result (λ done.
        MadeOr (run_in running.old) (event.Ship dest) (run_in running.new) done) }
    ensures waits { IfOk result (λ done. WaitsUnless done mail.old (event.Ship dest)) }
    ensures carries { OnOk result (Carries mail.new (run_in running.new)) }
    ensures rings { OnOk result (SameRings mail.old mail.new) }
    ensures kept { OnOk result (NoneForgotten mail.old mail.new) }
    ensures same { IfOk result (λ done. SameKnownUnless done mail.old mail.new) }
{
    let packet = running.pack(dest)?;
    let kept = packet.copy()?;
    match mail.send(dest, packet) {
        Sent::Back { packet: _ } => Ok(false),
        Sent::Taken => {
            running.ship(dest, kept)?;
            Ok(true)
        }
    }
}

/// Makes an event that the core may make; false, and nothing has changed, where no packet to be taken is known, or no
/// room for one that is to be shipped.
#[tactic(auto, using(crate::proofs::Carrying::inner_carried, crate::proofs::Keeping::all_kept))]
pub fn make(
    mail: &mut Mail,
    running: &mut Running,
    event: Event,
    reducers: &Reducers,
) -> Result<bool, AllocError>
    requires enabled { let s = (run_in running.old).seen in
        enabled s.machine s.me s.core event ≡ true }
    requires heap { KnowsHeap (run_in running.old).seen }
    requires carries { Carries mail.old (run_in running.old) }
    ensures made { IfOk result (λ done.
        MadeOr (run_in running.old) event (run_in running.new) done) }
    ensures waits { IfOk result (λ done. WaitsUnless done mail.old event) }
    ensures carries { OnOk result (Carries mail.new (run_in running.new)) }
    ensures rings { OnOk result (SameRings mail.old mail.new) }
    ensures kept { OnOk result (NoneForgotten mail.old mail.new) }
    ensures same { IfOk result (λ done. SameKnownUnless done mail.old mail.new) }
{
    match event {
        Event::Take { from } => take(mail, running, from),
        Event::Ship { dest } => ship(mail, running, dest),
        Event::Serve => {
            running.serve(reducers)?;
            Ok(true)
        }
        Event::Run => {
            running.run()?;
            Ok(true)
        }
        Event::Close { object } => {
            running.close(object, reducers)?;
            Ok(true)
        }
        Event::Steal { victim } => {
            running.steal(victim)?;
            Ok(true)
        }
    }
}
