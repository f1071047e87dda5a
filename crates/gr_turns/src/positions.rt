//! Sets of positions, and words by their positions, each seen as a function of the position.
ghost use Rattle.std.specs.Prelude.{◌≡◌, ◌==◌, IfOk, OnOk, Some, false, true};
ghost use Rattle.std.specs.List.{list_any};
ghost use Rattle.gr_view.specs.Places.{put};
ghost use Rattle.gr_vector.specs.Parts.{part_of};
ghost use Rattle.gr_turns.specs.LineView.{is_among};

use std::alloc::{AllocError, Global};
use std::collections::{BTreeMap, BTreeSet};

/// Whether a position is in a set.
#[tactic(auto, using(crate::proofs::Sets::at_positions))]
pub fn is_among(positions: &BTreeSet<u64>, position: u64) -> bool
    ensures { result ≡ is_among positions.now.keys position }
{
    positions.contains(&position)
}

/// Takes a position out of a set.
#[tactic(auto, using(crate::proofs::Sets::at_positions))]
pub fn leave_out(positions: &mut BTreeSet<u64>, position: u64)
    ensures { is_among positions.new.keys ≡ put (is_among positions.old.keys) position false }
{
    positions.remove(&position);
}

/// Adds a position to a set.
#[tactic(auto, using(crate::proofs::Sets::at_positions))]
fn add(positions: &mut BTreeSet<u64>, position: u64) -> Result<(), AllocError>
    ensures { OnOk result (is_among positions.new.keys
        ≡ put (is_among positions.old.keys) position true) }
{
    positions.insert(position)?;
    Ok(())
}

/// The positions at which words are put.
pub fn put_positions(alloc: Global, puts: &[(u64, u64)]) -> Result<BTreeSet<u64>, AllocError>
    ensures { IfOk result (λ positions. is_among positions.keys
        ≡ (λ position. list_any (λ pair. pair.0 == position) puts.now)) }
{
    let mut positions = BTreeSet::new(alloc);
    for pair in puts {
        add(&mut positions, pair.0)?;
    }
    Ok(positions)
}

/// The set of these positions.
pub fn get_positions(alloc: Global, gets: &[u64]) -> Result<BTreeSet<u64>, AllocError>
    ensures { IfOk result (λ positions. is_among positions.keys
        ≡ (λ position. list_any (λ other. other == position) gets.now)) }
{
    let mut positions = BTreeSet::new(alloc);
    for get in gets {
        add(&mut positions, *get)?;
    }
    Ok(positions)
}

/// Keeps a word at a position.
#[tactic(auto, using(gr_vector::proofs::Held::at_parts))]
pub fn keep(words: &mut BTreeMap<u64, u64>, position: u64, word: u64) -> Result<(), AllocError>
    ensures { OnOk result (part_of words.new.entries
        ≡ put (part_of words.old.entries) position (Some word)) }
{
    words.insert(position, word)?;
    Ok(())
}
