//! The cores that are asked for work, and those that wait for work.
ghost use Rattle.std.specs.Prelude.{◌≡◌, ◌∷◌, ◌++◌, [], IfOk, OnOk, drop, false, slice_get};
ghost use Rattle.gr_view.specs.Places.{at_place, put};
ghost use Rattle.gr_state.specs.StealView.{steals_in};

use std::alloc::{AllocError, Global};
use std::collections::VecDeque;
use std::marker::Model;

/// The cores that a core has asked for work, without an answer yet, and the cores that wait at it for work, in the
/// order of their asking.
#[derive(Drop)]
pub struct Steals {
    /// Whether each core is asked, in the order of the cores.
    asked: Vec<bool>,
    waiting: VecDeque<u64>,
}

impl Model for Steals {
    ghost use Rattle.gr_state.specs.StealView.{StealsData};

    ghost Value = { StealsData };

    ghost view = { λ steals. record { asked = steals.asked.items; waiting = steals.waiting.items } };
}

/// Nobody of so many cores is asked.
#[tactic(auto, using(crate::proofs::Asked::nobody))]
fn none_asked(alloc: Global, cores: u64) -> Result<Vec<bool>, AllocError>
    ensures { IfOk result (λ asked. at_place false asked.items ≡ (λ core. false)) }
{
    let mut asked = Vec::new(alloc);
    'cores: for _ in 0..cores {
        asked.push(false)?;
    }
    Ok(asked)
}

/// Whether a core is asked.
#[tactic(auto, using(gr_view::proofs::Puts::at_lists))]
fn is_set(asked: &[bool], core: u64) -> bool
    ensures { result ≡ at_place false asked.now core }
{
    match asked.get(core as usize) {
        Some(is_asked) => *is_asked,
        None => false,
    }
}

/// A core is asked from now on, or is asked no more.
#[tactic(auto, using(gr_view::proofs::Puts::at_lists))]
fn set(asked: &mut [bool], core: u64, is_asked: bool) -> Result<(), AllocError>
    ensures ok { OnOk result (at_place false asked.new
        ≡ put (at_place false asked.old) core is_asked) }
{
    if core >= asked.len() as u64 {
        return Err(AllocError);
    }
    asked[core as usize] = is_asked;
    Ok(())
}

impl Steals {
    /// Nobody of so many cores is asked, and nobody waits.
    pub fn new(alloc: Global, cores: u64) -> Result<Steals, AllocError>
        ensures { IfOk result (λ steals. steals_in steals
            ≡ record { asked = λ core. false; waiting = [] }) }
    {
        let asked = none_asked(alloc, cores)?;
        Ok(Steals {
            asked,
            waiting: VecDeque::new(alloc),
        })
    }

    /// Whether a core is asked.
    pub fn is_asked(&self, core: u64) -> bool
        ensures { result ≡ (steals_in self.now).asked core }
    {
        is_set(&self.asked, core)
    }

    /// A core is asked from now on, or is asked no more. It is an error where there is no such core.
    pub fn set_asked(&mut self, core: u64, is_asked: bool) -> Result<(), AllocError>
        ensures { OnOk result (steals_in self.new ≡ record (steals_in self.old) {
          asked = put (steals_in self.old).asked core is_asked;
        }) }
    {
        set(&mut self.asked, core, is_asked)
    }

    /// A core waits from now on, the last.
    pub fn wait(&mut self, core: u64) -> Result<(), AllocError>
        ensures { OnOk result (steals_in self.new ≡ record (steals_in self.old) {
          waiting = (steals_in self.old).waiting ++ core ∷ [];
        }) }
    {
        self.waiting.push_back(core)?;
        Ok(())
    }

    /// The first core that waits; none where nobody waits.
    pub fn first(&self) -> Option<u64>
        ensures { result ≡ slice_get (steals_in self.now).waiting 0 }
    {
        self.waiting.front().copied()
    }

    /// The first core that waits, if there is one, waits no more.
    pub fn drop_first(&mut self)
        ensures { steals_in self.new ≡ record (steals_in self.old) {
          waiting = drop 1 (steals_in self.old).waiting;
        } }
    {
        self.waiting.pop_front();
    }
}
