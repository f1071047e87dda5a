//! What one token means.

ghost use Rattle.std.specs.Prelude.{◌≡◌, List, ℕ, IfOk, slice_range};
ghost use Rattle.std.specs.Str.{IsUtf8};
ghost use Rattle.std.specs.Option.{option_map};
ghost use Rattle.gr_syntax.specs.declared.syntax.Place.{Place as PlaceValue};
ghost use Rattle.gr_expressions.specs.TokWords as tok;
ghost use Rattle.gr_expressions.specs.Tok.{tok_of, heap_name};
ghost use Rattle.gr_expressions.specs.SoundWords.{IsNamed, IsSound};

use crate::limits::LOOSEST;
use gr_syntax::{BinOp, Expr, Name, Number, Place, Text};
use gr_text::{Keyword, Sign, Token, TokenKind};
use std::alloc::{AllocError, Global};

#[tactic(auto, using(crate::proofs::Words::word_no_sign))]
pub fn is_sign(token: &Token, sign: Sign) -> bool
    ensures { (text : List ℕ) → result ≡ tok.is_sign sign (tok_of text token.now) }
{
    match token.kind {
        TokenKind::Sign { sign: found } => same_sign(found, sign),
        TokenKind::Name => false,
        TokenKind::Number { .. } => false,
        TokenKind::Keyword { .. } => false,
        TokenKind::End => false,
    }
}

#[tactic(auto, unfolding(crate::specs::Tok::same_sign))]
fn same_sign(a: Sign, b: Sign) -> bool
    ensures { result ≡ tok.same_sign a b }
{
    a == b
}

#[tactic(auto, unfolding(crate::specs::TokWords::same_key))]
fn same_word(a: Keyword, b: Keyword) -> bool
    ensures { result ≡ tok.same_key a b }
{
    a == b
}

/// Whether the token is this keyword.
pub fn is_word(token: &Token, word: Keyword) -> bool
    ensures { (text : List ℕ) → result ≡ tok.is_key word (tok_of text token.now) }
{
    match token.kind {
        TokenKind::Keyword { word: found } => is_plain_word(found, word),
        TokenKind::Name => false,
        TokenKind::Number { .. } => false,
        TokenKind::Sign { .. } => false,
        TokenKind::End => false,
    }
}

fn is_plain_word(found: Keyword, word: Keyword) -> bool
    ensures { (at : PlaceValue) → result ≡ tok.is_key word (tok.tok_of_word at found) }
{
    match found {
        Keyword::Heap => false,
        _ => same_word(found, word),
    }
}

#[tactic(auto, using(crate::proofs::Words::word_no_name))]
pub fn name_of(alloc: Global, text: &[u8], token: &Token) -> Result<Option<Name>, AllocError>
    requires { IsSound text.now token.now }
    ensures { IfOk result (λ name. name ≡ tok.name_of (tok_of text.now token.now)) }
{
    match token.kind {
        TokenKind::Name => Ok(Some(named(alloc, text, token)?)),
        TokenKind::Number { .. } => Ok(None),
        TokenKind::Keyword { .. } => Ok(None),
        TokenKind::Sign { .. } => Ok(None),
        TokenKind::End => Ok(None),
    }
}

/// A number or a local as an operand.
#[tactic(auto, using(crate::proofs::Words::word_no_atom))]
pub fn atom_of(alloc: Global, text: &[u8], token: &Token) -> Result<Option<Expr>, AllocError>
    requires { IsSound text.now token.now }
    ensures { IfOk result (λ atom. atom ≡ tok.atom_of (tok_of text.now token.now)) }
{
    match token.kind {
        TokenKind::Name => {
            let name = named(alloc, text, token)?;
            Ok(Some(Expr::Local { name }))
        }
        TokenKind::Number { value } => {
            let number = Number {
                value,
                at: token.at,
            };
            Ok(Some(Expr::Lit { number }))
        }
        TokenKind::Keyword { .. } => Ok(None),
        TokenKind::Sign { .. } => Ok(None),
        TokenKind::End => Ok(None),
    }
}

/// The object that a call begins with.
pub fn object_of(alloc: Global, text: &[u8], token: &Token) -> Result<Option<Name>, AllocError>
    requires { IsSound text.now token.now }
    ensures { IfOk result (λ name. name ≡ tok.object_of (tok_of text.now token.now)) }
{
    match token.kind {
        TokenKind::Name => Ok(Some(named(alloc, text, token)?)),
        TokenKind::Number { .. } => Ok(None),
        TokenKind::Keyword { word } => heap_object(alloc, word, token.at),
        TokenKind::Sign { .. } => Ok(None),
        TokenKind::End => Ok(None),
    }
}

fn heap_object(alloc: Global, word: Keyword, at: Place) -> Result<Option<Name>, AllocError>
    ensures { IfOk result (λ name. name ≡ tok.object_of (tok.tok_of_word at word)) }
{
    match word {
        Keyword::Heap => Ok(Some(make_heap_name(alloc, at)?)),
        _ => Ok(None),
    }
}

/// The name that the token is.
fn named(alloc: Global, text: &[u8], token: &Token) -> Result<Name, AllocError>
    requires { IsNamed text.now token.now }
    ensures { IfOk result
        (λ name. name ≡ record { text = slice_range text.now token.now.from token.now.to; at = token.now.at }) }
{
    let word = letters(alloc, &text[token.from as usize..token.to as usize])?;
    Ok(Name {
        text: word,
        at: token.at,
    })
}

/// The text of these bytes, which are in UTF-8, so that none is replaced.
fn letters(alloc: Global, bytes: &[u8]) -> Result<Text, AllocError>
    requires { IsUtf8 bytes.now }
    ensures { IfOk result (λ text. text ≡ bytes.now) }
{
    Ok(Text::new(String::from_utf8_lossy(alloc, bytes)?))
}

#[tactic(auto, using(crate::proofs::Words::word_no_number))]
pub fn number_of(token: &Token) -> Option<Number>
    ensures { (text : List ℕ) → result ≡ tok.number_of (tok_of text token.now) }
{
    match token.kind {
        TokenKind::Number { value } => Some(Number {
            value,
            at: token.at,
        }),
        TokenKind::Name => None,
        TokenKind::Keyword { .. } => None,
        TokenKind::Sign { .. } => None,
        TokenKind::End => None,
    }
}

/// The place of the keyword `heap`, where the token is that.
pub fn heap_of(token: &Token) -> Option<Place>
    ensures { (text : List ℕ) → tok.heap_of (tok_of text token.now) ≡ option_map heap_name result }
{
    match token.kind {
        TokenKind::Keyword { word } => heap_word(word, token.at),
        TokenKind::Name => None,
        TokenKind::Number { .. } => None,
        TokenKind::Sign { .. } => None,
        TokenKind::End => None,
    }
}

fn heap_word(word: Keyword, at: Place) -> Option<Place>
    ensures { tok.heap_of (tok.tok_of_word at word) ≡ option_map heap_name result }
{
    match word {
        Keyword::Heap => Some(at),
        _ => None,
    }
}

/// The name of the heap as an object.
pub fn make_heap_name(alloc: Global, at: Place) -> Result<Name, AllocError>
    ensures { IfOk result (λ name. name ≡ heap_name at) }
{
    let word = "heap".to_string(alloc)?;
    Ok(Name {
        text: Text::new(word),
        at,
    })
}

#[tactic(auto, using(crate::proofs::Words::word_no_operator), unfolding(crate::specs::TokWords::operator))]
pub fn operator(token: &Token, level: u8) -> Option<BinOp>
    ensures { (text : List ℕ) → result ≡ tok.operator level (tok_of text token.now) }
{
    match token.kind {
        TokenKind::Sign { sign } => of_level(op_of(sign), level),
        TokenKind::Name => None,
        TokenKind::Number { .. } => None,
        TokenKind::Keyword { .. } => None,
        TokenKind::End => None,
    }
}

fn of_level(op: Option<BinOp>, level: u8) -> Option<BinOp>
    ensures { result ≡ tok.of_level level op }
{
    match op {
        Some(op) => {
            if level_of(op) == level {
                Some(op)
            } else {
                None
            }
        }
        None => None,
    }
}

/// How loosely a binary sign binds: 0 the tightest, `LOOSEST` the comparisons.
pub fn level_of(op: BinOp) -> u8
    ensures { result ≡ tok.level_of op }
{
    match op {
        BinOp::Eq | BinOp::Ne | BinOp::Lt | BinOp::Le | BinOp::Gt | BinOp::Ge => LOOSEST,
        BinOp::Or => 4,
        BinOp::Xor => 3,
        BinOp::And => 2,
        BinOp::Add | BinOp::Sub => 1,
        BinOp::Mul | BinOp::Div | BinOp::Rem => 0,
    }
}

/// What a sign between two operands is written for.
fn op_of(sign: Sign) -> Option<BinOp>
    ensures { result ≡ tok.op_of_sign sign }
{
    match sign {
        Sign::EqualEqual => Some(BinOp::Eq),
        Sign::BangEqual => Some(BinOp::Ne),
        Sign::Less => Some(BinOp::Lt),
        Sign::LessEqual => Some(BinOp::Le),
        Sign::Greater => Some(BinOp::Gt),
        Sign::GreaterEqual => Some(BinOp::Ge),
        Sign::Bar => Some(BinOp::Or),
        Sign::Caret => Some(BinOp::Xor),
        Sign::Ampersand => Some(BinOp::And),
        Sign::Plus => Some(BinOp::Add),
        Sign::Minus => Some(BinOp::Sub),
        Sign::Star => Some(BinOp::Mul),
        Sign::Slash => Some(BinOp::Div),
        Sign::Percent => Some(BinOp::Rem),
        _ => None,
    }
}
