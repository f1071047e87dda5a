//! The meetings of the cores of a run.
ghost use Rattle.std.specs.Prelude.{◌≡◌, ◌<◌, length, slice_index_or};
ghost use Rattle.gr_core.specs.Cores.{mail_of, run_of};
ghost use Rattle.gr_core.specs.declared.cores.Core.{Core as ACore};
ghost use Rattle.gr_mail.specs.Rings.{AreJoined, HaveMet, LookedAt, owner};
ghost use Rattle.gr_world.specs.MeetingWords.{TwoHaveMet};
ghost use Rattle.gr_world.specs.Worlds.{AreOfOneRun, HaveAllMet, HaveStayed};

use gr_core::Core;

/// Two cores meet. It takes no memory.
fn meet<'a>(one: &mut Core<'a>, other: &mut Core<'a>)
    requires { AreJoined (mail_of one.old) (mail_of other.old) }
    ensures one { run_of one.new ≡ run_of one.old }
    ensures other { run_of other.new ≡ run_of other.old }
    ensures looked { LookedAt (owner (mail_of other.old)) (mail_of one.old) (mail_of one.new) }
    ensures back { LookedAt (owner (mail_of one.old)) (mail_of other.old) (mail_of other.new) }
    ensures met { HaveMet (mail_of one.new) (mail_of other.new) × HaveMet (mail_of other.new) (mail_of one.new) }
{
    let _ = Core::meet(one, other);
}

/// Two of the cores meet. It takes no memory: there is room for the core that is put back.
fn meet_two<'a>(cores: &mut Vec<Core<'a>>, one: usize, other: usize)
    requires order { (one < other) × (other < length cores.old.items) }
    requires joined { (default : ACore) → AreJoined
        (mail_of (slice_index_or cores.old.items one default)) (mail_of (slice_index_or cores.old.items other default)) }
    ensures { TwoHaveMet one other cores.old.items cores.new.items }
{
    let mut second = cores.remove(other);
    meet(&mut cores[one], &mut second);
    match cores.insert(other, second) {
        Ok(()) => (),
        Err(_) => unreachable!(),
    }
}

/// All cores meet, each two of them. It takes no memory.
pub fn meet_all<'a>(cores: &mut Vec<Core<'a>>)
    requires { AreOfOneRun cores.old.items }
    ensures stayed { HaveStayed cores.old.items cores.new.items }
    ensures met { HaveAllMet cores.new.items }
{
    for other in 0..cores.len() {
        for one in 0..other {
            meet_two(cores, one, other);
        }
    }
}
