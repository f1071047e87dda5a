//! Expressions as text.
ghost use Rattle.std.specs.Prelude.{◌≡◌, ◌++◌, ◌≤◌, OnOk, string_bytes};
ghost use Rattle.gr_expressions.specs.Tok as grammar;
ghost use Rattle.gr_expressions.specs.declared.limits.TheConstants.{LOOSEST};
ghost use Rattle.gr_print.specs.Layout as spec;
ghost use Rattle.gr_print.specs.Pieces.{bytes_of};

use gr_expressions::{LOOSEST, level_of};
use gr_syntax::{BinOp, Expr};
use gr_text::Sign;
use std::alloc::AllocError;
use std::fmt::Write;

/// Above the level of every sign.
const WHOLE: u8 = LOOSEST + 1;

/// The sign that is written for it.
fn sign_of(op: BinOp) -> Sign
    ensures { result ≡ grammar.sign_of op }
{
    match op {
        BinOp::Eq => Sign::EqualEqual,
        BinOp::Ne => Sign::BangEqual,
        BinOp::Lt => Sign::Less,
        BinOp::Le => Sign::LessEqual,
        BinOp::Gt => Sign::Greater,
        BinOp::Ge => Sign::GreaterEqual,
        BinOp::Or => Sign::Bar,
        BinOp::Xor => Sign::Caret,
        BinOp::And => Sign::Ampersand,
        BinOp::Add => Sign::Plus,
        BinOp::Sub => Sign::Minus,
        BinOp::Mul => Sign::Star,
        BinOp::Div => Sign::Slash,
        BinOp::Rem => Sign::Percent,
    }
}

/// Left of a sign of this level, only signs below the level that is given here need no brackets.
fn left_level(level: u8) -> u8
    requires { level ≤ LOOSEST }
    ensures { result ≡ spec.left_level level }
{
    if level == LOOSEST { LOOSEST } else { level + 1 }
}

/// Writes a bracket where it is needed.
fn write_bracket(out: &mut String, needed: bool, bracket: Sign) -> Result<(), AllocError>
    ensures { OnOk result (string_bytes out.new
        ≡ string_bytes out.old ++ bytes_of (spec.bracket needed bracket)) }
{
    if needed {
        out.push_str(bracket.text())
    } else {
        Ok(())
    }
}

/// Writes an expression where only signs below this level may stand without brackets.
#[tactic(auto, using(crate::proofs::Texts::expressions))]
fn write_below(out: &mut String, level: u8, value: &Expr) -> Result<(), AllocError>
    ensures { OnOk result (string_bytes out.new
        ≡ string_bytes out.old ++ bytes_of (spec.below level (spec.shown value.now))) }
{
    match value {
        Expr::Lit { number } => {
            write!(out, "{}", number.value)?;
            Ok(())
        }
        Expr::Local { name } => out.push_str(name.text.as_str()),
        Expr::Not { inner } => {
            out.push_str("!")?;
            write_below(out, 0, inner.get())
        }
        Expr::Two { op, left, right } => {
            let own = level_of(*op);
            let grouped = own >= level;
            write_bracket(out, grouped, Sign::LeftParen)?;
            write_below(out, left_level(own), left.get())?;
            write!(out, " {} ", sign_of(*op).text())?;
            write_below(out, own, right.get())?;
            write_bracket(out, grouped, Sign::RightParen)
        }
    }
}

/// Writes an expression.
pub(crate) fn write_expr(out: &mut String, value: &Expr) -> Result<(), AllocError>
    ensures { OnOk result (string_bytes out.new
        ≡ string_bytes out.old ++ bytes_of (spec.expr value.now)) }
{
    write_below(out, WHOLE, value)
}
