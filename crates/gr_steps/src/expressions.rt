//! The words of expressions.
ghost use Rattle.std.specs.Prelude.{◌≡◌, IfOk};
ghost use Rattle.gr_lang.specs.Expressions.{number_of, combine as combine_of, value, values};

use crate::locals::LocalWords;
use gr_lang::Words;
use gr_syntax::{BinOp, Expr, Exprs};
use std::alloc::{AllocError, Global};

fn number(holds: bool) -> u64
    ensures { result ≡ number_of holds }
{
    u64::from(holds)
}

/// What a binary sign makes of two words; None where the divisor is 0.
pub fn combine(op: BinOp, a: u64, b: u64) -> Option<u64>
    ensures { result ≡ combine_of op a b }
{
    match op {
        BinOp::Eq => Some(number(a == b)),
        BinOp::Ne => Some(number(a != b)),
        BinOp::Lt => Some(number(a < b)),
        BinOp::Le => Some(number(a <= b)),
        BinOp::Gt => Some(number(a > b)),
        BinOp::Ge => Some(number(a >= b)),
        BinOp::Or => Some(a | b),
        BinOp::Xor => Some(a ^ b),
        BinOp::And => Some(a & b),
        BinOp::Add => Some(a.wrapping_add(b)),
        BinOp::Sub => Some(a.wrapping_sub(b)),
        BinOp::Mul => Some(a.wrapping_mul(b)),
        BinOp::Div => a.checked_div(b),
        BinOp::Rem => a.checked_rem(b),
    }
}

/// The word of an expression; None where it divides by 0.
pub fn value_of(locals: &LocalWords, expr: &Expr) -> Option<u64>
    ensures { result ≡ value locals.now expr.now }
{
    match expr {
        Expr::Lit { number } => Some(number.value),
        Expr::Local { name } => Some(locals.get(&name.text)),
        Expr::Not { inner } => {
            let word = value_of(locals, inner.get())?;
            Some(number(word == 0))
        }
        Expr::Two { op, left, right } => {
            let a = value_of(locals, left.get())?;
            let b = value_of(locals, right.get())?;
            combine(*op, a, b)
        }
    }
}

/// The words of some expressions, evaluated from left to right; None where one divides by 0.
pub fn values_of(
    alloc: Global,
    locals: &LocalWords,
    exprs: &Exprs,
) -> Result<Option<Words>, AllocError>
    ensures { IfOk result (λ words. words ≡ values locals.now exprs.now) }
{
    let mut words = Words::new(alloc);
    for expr in exprs.as_slice() {
        match value_of(locals, expr) {
            Some(word) => words.push(word)?,
            None => return Ok(None),
        }
    }
    Ok(Some(words))
}
