//! The words of terms.
ghost use Rattle.std.specs.Prelude.{◌≡◌, IfOk, slice_index};
ghost use Rattle.gr_lang.specs.Expressions.{combine as combine_of, number_of};
ghost use Rattle.gr_code.specs.Terms.{term_value, term_values};

use gr_code::{Term, Terms};
use gr_lang::Words;
use gr_syntax::BinOp;
use std::alloc::{AllocError, Global};

fn number(holds: bool) -> u64
    ensures { result ≡ number_of holds }
{
    u64::from(holds)
}

/// What a binary sign makes of two words; None where the divisor is 0.
fn combine(op: BinOp, a: u64, b: u64) -> Option<u64>
    ensures { result ≡ combine_of op a b }
{
    match op {
        BinOp::Eq => Some(number(a == b)),
        BinOp::Ne => Some(number(a != b)),
        BinOp::Lt => Some(number(a < b)),
        BinOp::Le => Some(number(a <= b)),
        BinOp::Gt => Some(number(a > b)),
        BinOp::Ge => Some(number(a >= b)),
        BinOp::Or => Some(a | b),
        BinOp::Xor => Some(a ^ b),
        BinOp::And => Some(a & b),
        BinOp::Add => Some(a.wrapping_add(b)),
        BinOp::Sub => Some(a.wrapping_sub(b)),
        BinOp::Mul => Some(a.wrapping_mul(b)),
        BinOp::Div => a.checked_div(b),
        BinOp::Rem => a.checked_rem(b),
    }
}

fn word_at(locals: &[u64], at: usize) -> u64
    ensures { result ≡ slice_index locals.now at }
{
    if at < locals.len() { locals[at] } else { 0 }
}

/// The word of a term; None where it divides by 0.
pub fn value_of(locals: &[u64], term: &Term) -> Option<u64>
    ensures { result ≡ term_value locals.now term.now }
{
    match term {
        Term::Word { word } => Some(*word),
        Term::Local { at } => Some(word_at(locals, *at)),
        Term::Not { inner } => {
            let word = value_of(locals, inner.get())?;
            Some(number(word == 0))
        }
        Term::Two { op, left, right } => {
            let a = value_of(locals, left.get())?;
            let b = value_of(locals, right.get())?;
            combine(*op, a, b)
        }
    }
}

/// The words of some terms, evaluated from left to right; None where one divides by 0.
pub fn values_of(alloc: Global, locals: &[u64], terms: &Terms) -> Result<Option<Words>, AllocError>
    ensures { IfOk result (λ words. words ≡ term_values locals.now terms.now) }
{
    let mut words = Words::new(alloc);
    for term in terms.as_slice() {
        match value_of(locals, term) {
            Some(word) => words.push(word)?,
            None => return Ok(None),
        }
    }
    Ok(Some(words))
}
