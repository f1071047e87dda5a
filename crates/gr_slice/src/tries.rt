//! The events that a core tries, one after another, until it makes one.
ghost use Rattle.std.specs.Prelude.{◌≡◌, IfOk, false};
ghost use Rattle.gr_core.specs.Cores.{mail_of, run_of};
ghost use Rattle.gr_slice.specs.declared.tries.Kind.TheVariants as kind;
ghost use Rattle.gr_slice.specs.Slices.{HasStopped};
ghost use Rattle.gr_slice.specs.TryWords.{CanMakeNone, HasNoUrgent, HasNoWork, MayTry, Tried, count_of, event_of};

use gr_core::{Core, Stepped};
use gr_machine::Event;
use gr_reduce::Reducers;
use gr_syntax::HEAP;
use std::alloc::AllocError;

/// The events of one kind, by the number of a core or of an object.
#[derive(Clone, Copy)]
enum Kind {
    Serve,
    Take,
    Run,
    Close,
    Ship,
    Steal,
}

impl Kind {
    /// The event with this number. There is one `Serve` alone, and one `Run`.
    fn event(self, number: u64) -> Event
        ensures { result ≡ event_of self number }
    {
        match self {
            Kind::Serve => Event::Serve,
            Kind::Take => Event::Take { from: number },
            Kind::Run => Event::Run,
            Kind::Close => Event::Close { object: number },
            Kind::Ship => Event::Ship { dest: number },
            Kind::Steal => Event::Steal { victim: number },
        }
    }

    /// How many events there are of the kind, on so many cores.
    fn count(self, cores: u64) -> u64
        ensures { result ≡ count_of self cores }
    {
        match self {
            Kind::Serve | Kind::Run => 1,
            Kind::Close => HEAP + 1,
            Kind::Take | Kind::Ship | Kind::Steal => cores,
        }
    }
}

/// Makes the first event of a kind that the core can make.
#[tactic(auto, using(crate::proofs::Staying::attempts))]
fn first_of<'a>(core: Core<'a>, kind: Kind, reducers: &Reducers) -> Result<Stepped<'a>, AllocError>
    requires { MayTry core kind }
    ensures tried { IfOk result (λ stepped. Tried stepped.done core.entry stepped.core) }
    ensures none { IfOk result (λ stepped. stepped.done ≡ false → CanMakeNone kind core.entry) }
{
    let count = kind.count(core.cores());
    let mut core = core;
    'numbers: for number in 0..count {
        let event = kind.event(number);
        if core.enabled(event) {
            let tried = core.step(event, reducers)?;
            if tried.done {
                return Ok(tried);
            }
            core = tried.core;
        }
    }
    Ok(Stepped { core, done: false })
}

/// Ships the first full packet that there is room for.
#[tactic(auto, using(crate::proofs::Staying::attempts))]
fn ship_full<'a>(core: Core<'a>, reducers: &Reducers) -> Result<Stepped<'a>, AllocError>
    ensures { IfOk result (λ stepped. Tried stepped.done core.entry stepped.core) }
{
    let count = core.cores();
    let mut core = core;
    'dests: for dest in 0..count {
        let event = Event::Ship { dest };
        if core.full(dest) && core.enabled(event) {
            let shipped = core.step(event, reducers)?;
            if shipped.done {
                return Ok(shipped);
            }
            core = shipped.core;
        }
    }
    Ok(Stepped { core, done: false })
}

/// Serves a message, or ships a full packet, or takes one.
fn do_urgent<'a>(core: Core<'a>, reducers: &Reducers) -> Result<Stepped<'a>, AllocError>
    ensures tried { IfOk result (λ stepped. Tried stepped.done core.entry stepped.core) }
    ensures none { IfOk result (λ stepped. stepped.done ≡ false → HasNoUrgent core.entry) }
{
    let served = first_of(core, Kind::Serve, reducers)?;
    if served.done {
        return Ok(served);
    }
    let shipped = ship_full(served.core, reducers)?;
    if shipped.done {
        return Ok(shipped);
    }
    let taken = first_of(shipped.core, Kind::Take, reducers)?;
    Ok(taken)
}

/// Lets a task act or takes up a unit, or closes an object, or ships any packet.
fn do_work<'a>(core: Core<'a>, reducers: &Reducers) -> Result<Stepped<'a>, AllocError>
    ensures tried { IfOk result (λ stepped. Tried stepped.done core.entry stepped.core) }
    ensures none { IfOk result (λ stepped. stepped.done ≡ false → HasNoWork core.entry) }
{
    let ran = first_of(core, Kind::Run, reducers)?;
    if ran.done {
        return Ok(ran);
    }
    let closed = first_of(ran.core, Kind::Close, reducers)?;
    if closed.done {
        return Ok(closed);
    }
    let shipped = first_of(closed.core, Kind::Ship, reducers)?;
    Ok(shipped)
}

/// Makes the first event in the order of a slice that the core can make; none only where it can make none.
pub fn advance<'a>(core: Core<'a>, reducers: &Reducers) -> Result<Stepped<'a>, AllocError>
    ensures tried { IfOk result (λ stepped. Tried stepped.done core.entry stepped.core) }
    ensures stopped { IfOk result (λ stepped. stepped.done ≡ false
        → HasStopped (run_of core.entry) (mail_of core.entry)) }
{
    let first = do_urgent(core, reducers)?;
    if first.done {
        return Ok(first);
    }
    let worked = do_work(first.core, reducers)?;
    if worked.done {
        return Ok(worked);
    }
    let asked = first_of(worked.core, Kind::Steal, reducers)?;
    Ok(asked)
}
