//! Statements and blocks as text.
ghost use Rattle.std.specs.Prelude.{◌≡◌, ◌++◌, map, OnOk, string_bytes};
ghost use Rattle.gr_print.specs.Layout as spec;
ghost use Rattle.gr_print.specs.Pieces.{bytes_of};

use crate::expressions::write_expr;
use crate::margin::Margin;
use crate::parts::{write_args, write_call, write_names};
use gr_syntax::{Expr, HowText, Name, Right, Stmt};
use std::alloc::AllocError;
use std::fmt::Write;

/// Writes what stands right of `=`.
fn write_right(out: &mut String, right: &Right) -> Result<(), AllocError>
    ensures { OnOk result (string_bytes out.new
        ≡ string_bytes out.old ++ bytes_of (spec.right_side right.now)) }
{
    match right {
        Right::Value { value } => write_expr(out, value),
        Right::Result { call } => write_call(out, call),
    }
}

fn write_let(out: &mut String, fresh: bool) -> Result<(), AllocError>
    ensures { OnOk result (string_bytes out.new
        ≡ string_bytes out.old ++ bytes_of (spec.let_word fresh)) }
{
    if fresh { out.push_str("let ") } else { Ok(()) }
}

fn write_assignment(
    out: &mut String,
    fresh: bool,
    targets: &[Name],
    right: &Right,
) -> Result<(), AllocError>
    ensures { OnOk result (string_bytes out.new
        ≡ string_bytes out.old ++ bytes_of (spec.assignment fresh targets.now right.now)) }
{
    write_let(out, fresh)?;
    write_names(out, targets)?;
    out.push_str(" = ")?;
    write_right(out, right)?;
    out.push_str(";")
}

/// Writes where a new task may run.
fn write_start(out: &mut String, how: &HowText) -> Result<(), AllocError>
    ensures { OnOk result (string_bytes out.new
        ≡ string_bytes out.old ++ bytes_of (spec.start how.now)) }
{
    match how {
        HowText::Here => out.push_str("spawn"),
        HowText::At { core } => {
            out.push_str("spawn at ")?;
            write_expr(out, core)
        }
        HowText::Offer => out.push_str("offer"),
    }
}

/// Writes a task that is started, with its arguments.
fn write_started(out: &mut String, target: &Name, values: &[Expr]) -> Result<(), AllocError>
    ensures { OnOk result (string_bytes out.new
        ≡ string_bytes out.old ++ bytes_of (spec.started target.now values.now)) }
{
    write!(out, " {}", target.text.as_str())?;
    write_args(out, values)?;
    out.push_str(";")
}

/// Writes the head of a `forall`: its bounds and its grain.
fn write_range(out: &mut String, lo: &Expr, hi: &Expr, grain: &Expr) -> Result<(), AllocError>
    ensures { OnOk result (string_bytes out.new
        ≡ string_bytes out.old ++ bytes_of (spec.range lo.now hi.now grain.now)) }
{
    out.push_str("forall ")?;
    write_expr(out, lo)?;
    out.push_str(" .. ")?;
    write_expr(out, hi)?;
    out.push_str(" grain ")?;
    write_expr(out, grain)
}

/// Writes a statement that begins in a line with this margin.
#[cycle(statements)]
fn write_stmt(out: &mut String, margin: &Margin, stmt: &Stmt) -> Result<(), AllocError>
    ensures { OnOk result (string_bytes out.new
        ≡ string_bytes out.old ++ bytes_of (spec.stmt stmt.now margin.now)) }
{
    match stmt {
        Stmt::Set1 {
            fresh,
            targets,
            right,
        } => write_assignment(out, *fresh, targets.as_slice(), right),
        Stmt::Do { call } => {
            write_call(out, call)?;
            out.push_str(";")
        }
        Stmt::Print { value } => {
            out.push_str("print ")?;
            write_expr(out, value)?;
            out.push_str(";")
        }
        Stmt::If { test, yes, no } => {
            out.push_str("if ")?;
            write_expr(out, test)?;
            out.push_str(" ")?;
            write_block(out, margin, yes.as_slice())?;
            write_else(out, margin, no.as_slice())
        }
        Stmt::While { test, body } => {
            out.push_str("while ")?;
            write_expr(out, test)?;
            out.push_str(" ")?;
            write_block(out, margin, body.as_slice())
        }
        Stmt::Finish { body } => {
            out.push_str("finish ")?;
            write_block(out, margin, body.as_slice())
        }
        Stmt::Spawn { how, target, args } => {
            write_start(out, how)?;
            write_started(out, target, args.as_slice())
        }
        Stmt::Forall {
            lo,
            hi,
            grain,
            target,
            args,
        } => {
            write_range(out, lo, hi, grain)?;
            write_started(out, target, args.as_slice())
        }
    }
}

/// Writes the block behind `else`, or nothing where it is empty.
#[cycle(statements)]
fn write_else(out: &mut String, margin: &Margin, block: &[Stmt]) -> Result<(), AllocError>
    ensures { OnOk result (string_bytes out.new
        ≡ string_bytes out.old ++ bytes_of (spec.else_part (map spec.stmt block.now) margin.now)) }
{
    if block.is_empty() {
        return Ok(());
    }
    out.push_str(" else ")?;
    write_block(out, margin, block)
}

/// Writes a block that begins in a line with this margin.
#[cycle(statements)]
pub(crate) fn write_block(
    out: &mut String,
    margin: &Margin,
    block: &[Stmt],
) -> Result<(), AllocError>
    ensures { OnOk result (string_bytes out.new
        ≡ string_bytes out.old ++ bytes_of (spec.block (map spec.stmt block.now) margin.now)) }
{
    out.push_str("{\n")?;
    write_lines(out, &margin.deeper()?, block)?;
    out.push_str(margin.as_str())?;
    out.push_str("}")
}

/// Writes statements, each in a line with this margin.
#[cycle(statements)]
fn write_lines(out: &mut String, margin: &Margin, block: &[Stmt]) -> Result<(), AllocError>
    ensures { OnOk result (string_bytes out.new
        ≡ string_bytes out.old ++ bytes_of (spec.lines (map spec.stmt block.now) margin.now)) }
{
    'each: for stmt in block {
        out.push_str(margin.as_str())?;
        write_stmt(out, margin, stmt)?;
        out.push_str("\n")?;
    }
    Ok(())
}
