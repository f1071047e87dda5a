//! The pass over what the items use: `show`, `input` and the bodies of the tasks.
ghost use Rattle.std.specs.Prelude.{◌≡◌, [], ◌∷◌, ◌++◌, IfOk};
ghost use Rattle.gr_accept.specs.Conditions as condition;
ghost use Rattle.gr_accept.specs.Sites.{begins, fills};
ghost use Rattle.gr_accept.specs.Accepted.{use_sites};
ghost use Rattle.gr_accept.specs.Walks.{body_sites};
ghost use Rattle.gr_checker.specs.EarliestWords.{seen, least};
ghost use Rattle.gr_checker.specs.MeaningView.{meaning_of};

use crate::calls::check_shown;
use crate::earliest::Earliest;
use crate::meanings::Meanings;
use crate::name_set::NameSet;
use crate::scope::Scope;
use crate::walk::{Walk, check_all, give_all};
use gr_accept::Declared;
use gr_syntax::{Item, Kind, MAX_PARAMS, Name, Number, Stmt};
use std::alloc::{AllocError, Global};

#[tactic(auto, using(crate::proofs::Leasts::leasts))]
fn check_body<'a>(
    alloc: Global,
    meanings: &Meanings<'a>,
    found: Earliest,
    params: &'a [Name],
    body: &'a [Stmt],
) -> Result<Earliest, AllocError>
    ensures { let sites = body_sites params.now body.now in
        IfOk result (λ earliest. earliest ≡ seen (meaning_of meanings.now) found sites) }
{
    let scope = Scope {
        meanings,
        named: NameSet::new(alloc),
        visible: NameSet::new(alloc),
    };
    let mut walk = Walk { found, scope };
    give_all(&mut walk, params)?;
    check_all(&mut walk, body)?;
    Ok(walk.found)
}

/// Notes a parameter of `main`, and a parameter that is one too many.
#[tactic(auto, using(crate::proofs::Leasts::leasts))]
fn check_params(found: &mut Earliest, name: &Name, params: &[Name])
    ensures { let site = begins name.now params.now in
        found.new ≡ least found.old (condition.main_has_params site ++ condition.too_many site) }
{
    let is_main = name.text.is_word("main");
    if let Some(first) = params.get(0) {
        found.note_if(is_main, Kind::MainHasParams, first.at);
    }
    if let Some(past) = params.get(MAX_PARAMS) {
        found.note(Kind::TooMany, past.at);
    }
}

fn is_array(declared: Option<Declared>) -> bool
    ensures { result ≡ condition.is_array declared }
{
    matches!(declared, Some(Declared::Array { .. }))
}

fn check_length(found: &mut Earliest, declared: Option<Declared>, values: &[Number])
    ensures { found.new ≡ least found.old (condition.past_array declared values.now) }
{
    if let Some(Declared::Array { words }) = declared {
        if let Some(past) = values.get(words as usize) {
            found.note(Kind::InputTooLong, past.at);
        }
    }
}

#[tactic(auto, unfolding(gr_accept::specs::Conditions::faults_at), using(crate::proofs::Leasts::leasts))]
fn check_input(meanings: &Meanings, found: &mut Earliest, name: &Name, values: &[Number])
    ensures { let sites = fills name.now values.now ∷ [] in
        found.new ≡ seen (meaning_of meanings.now) found.old sites }
{
    let declared = meanings.get(&name.text);
    check_length(found, declared, values);
    found.note_if(!is_array(declared), Kind::InputUnknown, name.at);
}

/// The earliest of what was found and of the faults of what an item uses, where names have these meanings.
/// An error is want of memory.
#[tactic(auto, using(crate::proofs::Leasts::leasts))]
pub fn use_item<'a>(
    alloc: Global,
    meanings: &Meanings<'a>,
    found: Earliest,
    item: &'a Item,
) -> Result<Earliest, AllocError>
    ensures { let sites = use_sites item.now in
        IfOk result (λ earliest. earliest ≡ seen (meaning_of meanings.now) found sites) }
{
    let mut found = found;
    match item {
        Item::Show { name } => {
            check_shown(meanings, &mut found, name);
            Ok(found)
        }
        Item::Input { name, values } => {
            check_input(meanings, &mut found, name, values.as_slice());
            Ok(found)
        }
        Item::Task { name, params, body } => {
            check_params(&mut found, name, params.as_slice());
            let found = check_body(alloc, meanings, found, params.as_slice(), body.as_slice())?;
            Ok(found)
        }
        Item::Array { .. } => Ok(found),
        Item::Set { .. } => Ok(found),
        Item::Map { .. } => Ok(found),
        Item::Vector { .. } => Ok(found),
        Item::Heap { .. } => Ok(found),
    }
}
