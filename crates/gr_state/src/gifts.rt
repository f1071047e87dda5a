//! Units that are asked for and given.
ghost use Rattle.std.specs.Prelude.{◌≡◌, IfOk, OnOk, Some};
ghost use Rattle.gr_machine.specs.Events.{asks};
ghost use Rattle.gr_courses.specs.Courses.{gives_to};
ghost use Rattle.gr_courses.specs.Seen.{does_to};
ghost use Rattle.gr_state.specs.StateView.{seen_of};
ghost use Rattle.gr_state.specs.GiftWords.{Gave};

use crate::state::State;
use gr_msg::Msg;
use std::alloc::AllocError;

impl<'a> State<'a> {
    /// The first core that waits is given the first unit that others may take, where there are both. It answers
    /// whether there were.
    #[tactic(auto, using(crate::proofs::Giving::given))]
    fn give_one(&mut self) -> Result<bool, AllocError>
        ensures { IfOk result (λ gave. Gave gave (seen_of self.old) (seen_of self.new)) }
    {
        let core = match self.steals.first() {
            Some(core) => core,
            None => return Ok(false),
        };
        let unit = match self.work.give() {
            Some(unit) => unit,
            None => return Ok(false),
        };
        self.steals.drop_first();
        self.send(core, Msg::StealGive { unit })?;
        Ok(true)
    }

    /// While a core waits here and a unit is there that others may take, the first such core gets the first such
    /// unit.
    pub fn give(&mut self) -> Result<(), AllocError>
        ensures { OnOk result (seen_of self.new ≡ gives_to (seen_of self.old)) }
    {
        'gifts: while self.give_one()? {}
        Ok(())
    }

    /// Another core is asked for work, and isn't asked again before it has answered.
    pub fn ask(&mut self, victim: u64) -> Result<(), AllocError>
        ensures { OnOk result (let s = seen_of self.old in seen_of self.new
            ≡ does_to s (Some (asks victim s.core.body))) }
    {
        self.steals.set_asked(victim, true)?;
        self.send(victim, Msg::StealAsk)
    }
}
