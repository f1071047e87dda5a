//! Expressions whose locals are numbers.
ghost use Rattle.std.specs.Prelude.{◌≡◌, IfOk, map};
ghost use Rattle.gr_code.specs.Terms.{AreTermsOf, IsTermOf, number, targets_in};

use gr_syntax::{BinOp, Expr, Exprs, Names, Text};
use sqlite_items::{Boxed, Items};
use std::alloc::{AllocError, Global};

/// An expression over the locals of a task, which it names by their numbers.
#[derive(Drop)]
pub enum Term {
    /// A number.
    Word {
        word: u64,
    },
    /// The local of that number.
    Local {
        at: usize,
    },
    /// 1 where the inner word is 0, else 0.
    Not {
        inner: Boxed<Term>,
    },
    /// Two operands, evaluated from left to right, with a binary sign between them.
    Two {
        op: BinOp,
        left: Boxed<Term>,
        right: Boxed<Term>,
    },
}

/// A list of terms.
pub type Terms = Items<Term>;

/// The numbers of the locals that take the words of a reply, from left to right.
#[derive(Clone, Copy)]
pub enum Targets {
    Empty,
    One { first: usize },
    Two { first: usize, second: usize },
}

/// The number of the local of that name; the number of all locals where there is none.
fn number_of(locals: &[&Text], name: &Text) -> usize
    ensures { result ≡ number (map (λ n. n.now) locals.now) name.now }
{
    let mut at = 0;
    for local in locals {
        if local.is(name) {
            return at;
        }
        at += 1;
    }
    at
}

/// The term of an expression over these locals.
pub fn resolve(alloc: Global, locals: &[&Text], expr: &Expr) -> Result<Term, AllocError>
    ensures { IfOk result (λ term. IsTermOf (map (λ n. n.now) locals.now) term expr.now) }
{
    match expr {
        Expr::Lit { number } => Ok(Term::Word { word: number.value }),
        Expr::Local { name } => {
            let at = number_of(locals, &name.text);
            Ok(Term::Local { at })
        }
        Expr::Not { inner } => {
            let inner = resolve(alloc, locals, inner.get())?;
            let inner = Boxed::new(alloc, inner)?;
            Ok(Term::Not { inner })
        }
        Expr::Two { op, left, right } => {
            let left = resolve(alloc, locals, left.get())?;
            let right = resolve(alloc, locals, right.get())?;
            let left = Boxed::new(alloc, left)?;
            let right = Boxed::new(alloc, right)?;
            Ok(Term::Two {
                op: *op,
                left,
                right,
            })
        }
    }
}

/// The terms of some expressions over these locals.
pub fn resolve_all(alloc: Global, locals: &[&Text], exprs: &Exprs) -> Result<Terms, AllocError>
    ensures { IfOk result (λ terms. AreTermsOf (map (λ n. n.now) locals.now) terms exprs.now) }
{
    let mut terms = Items::new(alloc);
    for expr in exprs.as_slice() {
        let term = resolve(alloc, locals, expr)?;
        terms.push(term)?;
    }
    Ok(terms)
}

/// The numbers of the first two targets.
pub fn targets_of(locals: &[&Text], names: &Names) -> Targets
    ensures { result ≡ targets_in (map (λ n. n.now) locals.now) names.now }
{
    match names.as_slice() {
        [] => Targets::Empty,
        [first] => Targets::One {
            first: number_of(locals, &first.text),
        },
        [first, second, ..] => Targets::Two {
            first: number_of(locals, &first.text),
            second: number_of(locals, &second.text),
        },
    }
}
