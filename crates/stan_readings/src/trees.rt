//! What is read of expressions, as text.

use crate::tokens::code_of;
use stan_base::OutOfMemory;
use stan_expr::{Parsed, expression};
use stan_model_grammar::token::Token;
use stan_rows::{number, plain};
use stan_shown_trees::Printer;
use stan_syntax::{Expr, Form, ends_program};
use std::alloc::Global;

// The source of a file that holds a text behind the opening tag.
fn source_of(alloc: Global, text: &str) -> Result<String, OutOfMemory> {
    let text = plain(alloc, text)?;
    Ok(format!(in alloc; "<?php {text}")?)
}

// The expression of tokens where so many levels are open, and the place behind it.
fn parsed(
    alloc: Global,
    tokens: &[Token],
    levels: u32,
) -> Result<Option<(Expr, u32)>, OutOfMemory> {
    if tokens.len() > 1048576 {
        return Ok(None);
    }
    match expression(alloc, tokens, 0, levels)? {
        Parsed::Absent => Ok(None),
        Parsed::Done(e, to) => Ok(Some((e, to))),
    }
}

fn tree_text(
    alloc: Global,
    source: &str,
    tokens: &[Token],
    e: &Expr,
) -> Result<String, OutOfMemory> {
    let mut printer = Printer {
        source,
        tokens,
        text: String::new(alloc),
        is_whole: true,
    };
    printer.expr(e);
    match printer.whole() {
        Some(text) => Ok(text),
        None => Ok(String::from_str(alloc, "not whole")?),
    }
}

/// The tree of a text, or `none` where it begins with no expression.
pub fn tree(alloc: Global, text: &str) -> Result<String, OutOfMemory> {
    let source = source_of(alloc, text)?;
    let tokens = code_of(alloc, &source)?;
    match parsed(alloc, &tokens, 0)? {
        None => Ok(String::from_str(alloc, "none")?),
        Some((e, to)) => {
            if to as usize == tokens.len() {
                tree_text(alloc, &source, &tokens, &e)
            } else {
                Ok(String::from_str(alloc, "a part")?)
            }
        }
    }
}

// The depth of the expression of a source where so many levels are open.
fn depth_in(alloc: Global, source: &str, levels: u32) -> Result<String, OutOfMemory> {
    let tokens = code_of(alloc, source)?;
    match parsed(alloc, &tokens, levels)? {
        None => Ok(String::from_str(alloc, "none")?),
        Some((e, _)) => Ok(format!(in alloc; "{}", e.depth())?),
    }
}

/// The depth of a text, or `none` where it begins with no expression, or with a deeper one than may be read.
pub fn depth(alloc: Global, text: &str) -> Result<String, OutOfMemory> {
    let source = source_of(alloc, text)?;
    depth_in(alloc, &source, 0)
}

fn push_times(out: &mut String, text: &str, count: u32) -> Result<(), OutOfMemory> {
    for _ in 0..count {
        out.push_str(text)?;
    }
    Ok(())
}

// What stands before, the front, the middle and the back, with `|` between them: the front and the back so many times.
fn push_nested(out: &mut String, text: &str, count: u32) -> Result<(), OutOfMemory> {
    let (before, rest) = text.split_once("|").unwrap_or((text, ""));
    let (front, rest) = rest.split_once("|").unwrap_or((rest, ""));
    let (middle, back) = rest.split_once("|").unwrap_or((rest, ""));
    out.push_str(before)?;
    push_times(out, front, count)?;
    out.push_str(middle)?;
    push_times(out, back, count)
}

/// The depth of a text in which a front and a back stand many times, where some levels are open: both numbers stand before it.
pub fn nested(alloc: Global, text: &str) -> Result<String, OutOfMemory> {
    let (count, rest) = text.split_once(' ').unwrap_or((text, ""));
    let (levels, text) = rest.split_once(' ').unwrap_or((rest, ""));
    let mut source = String::from_str(alloc, "<?php ")?;
    push_nested(&mut source, text, number(count))?;
    depth_in(alloc, &source, number(levels))
}

fn exit_of(e: &Expr) -> &'static str {
    match &e.form {
        Form::Exit(arguments) => {
            if ends_program(arguments) {
                "ends the program"
            } else {
                "is a call"
            }
        }
        _ => "no exit",
    }
}

/// Whether the `exit` of a text ends the program or is a call.
pub fn exit(alloc: Global, text: &str) -> Result<String, OutOfMemory> {
    let source = source_of(alloc, text)?;
    let tokens = code_of(alloc, &source)?;
    match parsed(alloc, &tokens, 0)? {
        None => Ok(String::from_str(alloc, "none")?),
        Some((e, _)) => Ok(String::from_str(alloc, exit_of(&e))?),
    }
}
