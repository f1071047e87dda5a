//! The items of a program.

ghost use Rattle.std.specs.Prelude.{◌≡◌, []};
ghost use Rattle.gr_syntax.specs.declared.syntax.Name.{Name as NameValue};
ghost use Rattle.gr_syntax.specs.declared.syntax.Item.{Item as ItemValue};
ghost use Rattle.gr_expressions.specs.GivesWords.{Gives};
ghost use Rattle.gr_parse.specs.ParsingWords as spec;

use crate::blocks::block;
use crate::limits::MAX_NESTING;
use gr_expressions::{Rest, Stop, enclosed, name, number, separated};
use gr_syntax::{Item, Name, Names};
use gr_text::{Keyword, Sign};
use sqlite_items::Items;
use std::alloc::Global;

/// An array behind its keyword.
#[tactic(auto, unfolding(crate::specs::ParsingWords::array, gr_expressions::specs::OperandsWords::semicolon))]
fn array<'a>(alloc: Global, rest: Rest<'a>) -> Result<(Item, Rest<'a>), Stop>
    ensures { Gives (λ x. x) result (spec.array rest.entry) }
{
    let (name, rest) = name(alloc, rest)?;
    let rest = rest.expect(Sign::LeftBracket)?;
    let (words, rest) = number(rest)?;
    let rest = rest.expect(Sign::RightBracket)?;
    let rest = rest.expect(Sign::Semicolon)?;
    Ok((Item::Array { name, words }, rest))
}

/// The name of an item that has nothing else.
#[tactic(auto, unfolding(crate::specs::ParsingWords::named_item, gr_expressions::specs::OperandsWords::semicolon))]
fn named<'a>(alloc: Global, rest: Rest<'a>) -> Result<(Name, Rest<'a>), Stop>
    ensures { (make : NameValue → ItemValue) → Gives (λ x. (make x.0, x.1)) result
        (spec.named_item make rest.entry) }
{
    let (name, rest) = name(alloc, rest)?;
    let rest = rest.expect(Sign::Semicolon)?;
    Ok((name, rest))
}

/// The heap behind its keyword.
#[tactic(auto, unfolding(crate::specs::ParsingWords::heap_item, gr_expressions::specs::OperandsWords::semicolon))]
fn heap<'a>(rest: Rest<'a>) -> Result<(Item, Rest<'a>), Stop>
    ensures { Gives (λ x. x) result (spec.heap_item rest.entry) }
{
    let (words, rest) = number(rest)?;
    let rest = rest.expect(Sign::Semicolon)?;
    Ok((Item::Heap { words }, rest))
}

/// The first words of an array, behind `input`.
#[tactic(auto, unfolding(crate::specs::ParsingWords::input, gr_expressions::specs::OperandsWords::semicolon))]
fn input<'a>(alloc: Global, rest: Rest<'a>) -> Result<(Item, Rest<'a>), Stop>
    ensures { Gives (λ x. x) result (spec.input spec.plenty rest.entry) }
{
    let (name, rest) = name(alloc, rest)?;
    let rest = rest.expect(Sign::Assign)?;
    let (values, rest) = separated(alloc, rest, 0)?;
    let rest = rest.expect(Sign::Semicolon)?;
    Ok((Item::Input { name, values }, rest))
}

/// The parameters of a task.
#[tactic(auto, unfolding(crate::specs::ParsingWords::params))]
fn params<'a>(alloc: Global, rest: Rest<'a>) -> Result<(Names, Rest<'a>), Stop>
    ensures { Gives (λ x. x) result (spec.params spec.plenty rest.entry) }
{
    let rest = rest.expect(Sign::LeftParen)?;
    enclosed(alloc, rest, 0)
}

/// A task behind its keyword.
#[tactic(auto, unfolding(crate::specs::ParsingWords::task))]
fn task<'a>(alloc: Global, rest: Rest<'a>) -> Result<(Item, Rest<'a>), Stop>
    ensures { Gives (λ x. x) result (spec.task spec.plenty rest.entry) }
{
    let (name, rest) = name(alloc, rest)?;
    let (params, rest) = params(alloc, rest)?;
    let (body, rest) = block(alloc, rest, MAX_NESTING)?;
    Ok((Item::Task { name, params, body }, rest))
}

/// An item that begins with another keyword than `heap`.
#[tactic(auto, unfolding(crate::specs::ParsingWords::key_item))]
fn key_item<'a>(alloc: Global, rest: Rest<'a>) -> Result<(Item, Rest<'a>), Stop>
    ensures { Gives (λ x. x) result (spec.key_item spec.plenty rest.entry) }
{
    if rest.sees_word(Keyword::Array) {
        return array(alloc, rest.next());
    }
    if rest.sees_word(Keyword::Set) {
        let (name, rest) = named(alloc, rest.next())?;
        return Ok((Item::Set { name }, rest));
    }
    if rest.sees_word(Keyword::Map) {
        let (name, rest) = named(alloc, rest.next())?;
        return Ok((Item::Map { name }, rest));
    }
    if rest.sees_word(Keyword::Vector) {
        let (name, rest) = named(alloc, rest.next())?;
        return Ok((Item::Vector { name }, rest));
    }
    if rest.sees_word(Keyword::Show) {
        let (name, rest) = named(alloc, rest.next())?;
        return Ok((Item::Show { name }, rest));
    }
    if rest.sees_word(Keyword::Input) {
        return input(alloc, rest.next());
    }
    if rest.sees_word(Keyword::Task) {
        return task(alloc, rest.next());
    }
    Err(rest.refusal())
}

/// An item.
#[tactic(auto, unfolding(crate::specs::ParsingWords::item))]
fn item<'a>(alloc: Global, rest: Rest<'a>) -> Result<(Item, Rest<'a>), Stop>
    ensures { Gives (λ x. x) result (spec.item spec.plenty rest.entry) }
{
    let ahead = rest.heap_ahead();
    match ahead {
        Some(_) => heap(rest.next()),
        None => key_item(alloc, rest),
    }
}

/// Items, to the end of the tokens.
pub fn items(alloc: Global, tokens: Rest) -> Result<Items<Item>, Stop>
    ensures { Gives (λ x. (x, [])) result (spec.program spec.plenty tokens.entry) }
{
    let mut rest = tokens;
    let mut found = Items::new(alloc);
    'each: while !rest.is_empty() {
        let (one, after) = item(alloc, rest)?;
        found.push(one)?;
        rest = after;
    }
    Ok(found)
}
