//! What stands alone.

ghost use Rattle.std.specs.Prelude.{◌≡◌, ◌<◌, length, map, option_map};
ghost use Rattle.stan_model_grammar.specs.Strata.{leaf_of};
ghost use Rattle.stan_model_grammar.specs.Trees.{Captured};
ghost use Rattle.stan_places.specs.Gives.{Gives, at, turn};
ghost use Rattle.stan_expr_items.specs.Nests.{Nests};
ghost use Rattle.stan_expr_rules.specs.Parse as parse;
ghost use Rattle.stan_model_grammar.specs.TreeLists.{listed};
ghost use Rattle.stan_syntax.specs.Tree.{form_of, part_of, parameter_of};

use sqlite_items::{Boxed, Items};
use stan_expr_items::grammar::Grammar;
use stan_model_grammar::operators::{ArrayStyle, Leaf};
use stan_model_grammar::token::{Token, TokenKind};
use stan_places::bodies::body;
use stan_places::places::{after, may, token_at};
use stan_places::stop::Stop;
use stan_places::strata::{is_part, leaf_of};
use stan_places::types::may_return;
use stan_syntax::{Expr, Form, Parameter, TextPart};
use std::alloc::Global;

#[tactic(auto, using(stan_syntax::proofs::Layers::layers), unfolding(stan_expr_rules::specs::Parse::brackets))]
fn brackets<F: Fn(Global, &[Token], u32, bool, u8, usize) -> Result<(Expr, usize), Stop>>(
    grammar: &Grammar<'_, F>,
    place: usize,
) -> Result<(Form, usize), Stop>
    requires { Nests grammar.now.depth (F.pre grammar.now.read) (F.post grammar.now.read) }
    ensures { Gives (at form_of) result (parse.brackets grammar.now.tokens.now (parse.below grammar.now.tokens.now grammar.now.depth) place) }
{
    let (e, to) = grammar.enclosed(
        TokenKind::LeftParenthesis,
        TokenKind::RightParenthesis,
        place,
    )?;
    Ok((Form::Brackets(Boxed::new(grammar.alloc, e)?), to))
}

#[tactic(auto, using(stan_syntax::proofs::Layers::layers), unfolding(stan_expr_rules::specs::Parse::short_array))]
fn short_array<F: Fn(Global, &[Token], u32, bool, u8, usize) -> Result<(Expr, usize), Stop>>(
    grammar: &Grammar<'_, F>,
    place: usize,
) -> Result<(Form, usize), Stop>
    requires { Nests grammar.now.depth (F.pre grammar.now.read) (F.post grammar.now.read) }
    ensures { Gives (at form_of) result (parse.short_array grammar.now.tokens.now (parse.below grammar.now.tokens.now grammar.now.depth) place) }
{
    let ((elements, comma), to) = grammar.fenced(
        TokenKind::LeftBracket,
        TokenKind::RightBracket,
        place,
    )?;
    let array = Form::Array {
        style: ArrayStyle::Brackets,
        elements,
        comma,
    };
    Ok((array, to))
}

/// Behind the word.
#[tactic(auto, using(stan_syntax::proofs::Layers::layers), unfolding(stan_expr_rules::specs::Parse::long_array))]
fn long_array<F: Fn(Global, &[Token], u32, bool, u8, usize) -> Result<(Expr, usize), Stop>>(
    grammar: &Grammar<'_, F>,
    style: ArrayStyle,
    place: usize,
) -> Result<(Form, usize), Stop>
    requires { Nests grammar.now.depth (F.pre grammar.now.read) (F.post grammar.now.read) }
    ensures { Gives (at form_of) result (parse.long_array grammar.now.tokens.now (parse.below grammar.now.tokens.now grammar.now.depth) style place) }
{
    let ((elements, comma), to) = grammar.fenced(
        TokenKind::LeftParenthesis,
        TokenKind::RightParenthesis,
        place,
    )?;
    let array = Form::Array {
        style,
        elements,
        comma,
    };
    Ok((array, to))
}

#[tactic(auto, using(stan_syntax::proofs::Layers::layers, stan_expr_items::proofs::ListLemmas::positional_maps), unfolding(stan_expr_rules::specs::Parse::is_set))]
fn is_set<F: Fn(Global, &[Token], u32, bool, u8, usize) -> Result<(Expr, usize), Stop>>(
    grammar: &Grammar<'_, F>,
    place: usize,
) -> Result<(Form, usize), Stop>
    requires { Nests grammar.now.depth (F.pre grammar.now.read) (F.post grammar.now.read) }
    ensures { Gives (at form_of) result (parse.is_set grammar.now.tokens.now (parse.below grammar.now.tokens.now grammar.now.depth) place) }
{
    let ((operands, comma), to) = grammar.fenced_some(place)?;
    Ok((Form::IsSet { operands, comma }, to))
}

#[tactic(auto, using(stan_syntax::proofs::Layers::layers), unfolding(stan_expr_rules::specs::Parse::empty))]
fn empty<F: Fn(Global, &[Token], u32, bool, u8, usize) -> Result<(Expr, usize), Stop>>(
    grammar: &Grammar<'_, F>,
    place: usize,
) -> Result<(Form, usize), Stop>
    requires { Nests grammar.now.depth (F.pre grammar.now.read) (F.post grammar.now.read) }
    ensures { Gives (at form_of) result (parse.empty grammar.now.tokens.now (parse.below grammar.now.tokens.now grammar.now.depth) place) }
{
    let (e, to) = grammar.enclosed(
        TokenKind::LeftParenthesis,
        TokenKind::RightParenthesis,
        place,
    )?;
    Ok((Form::Empty(Boxed::new(grammar.alloc, e)?), to))
}

#[tactic(auto, using(stan_syntax::proofs::Layers::layers), unfolding(stan_expr_rules::specs::Parse::exit))]
fn exit<F: Fn(Global, &[Token], u32, bool, u8, usize) -> Result<(Expr, usize), Stop>>(
    grammar: &Grammar<'_, F>,
    place: usize,
) -> Result<(Form, usize), Stop>
    requires { Nests grammar.now.depth (F.pre grammar.now.read) (F.post grammar.now.read) }
    ensures { Gives (at form_of) result (parse.exit grammar.now.tokens.now (parse.below grammar.now.tokens.now grammar.now.depth) place) }
{
    let (arguments, to) = grammar.may_be_called(place)?;
    Ok((Form::Exit(arguments), to))
}

#[tactic(auto, using(stan_syntax::proofs::Layers::layers), unfolding(stan_expr_rules::specs::Parse::match_form))]
fn match_form<F: Fn(Global, &[Token], u32, bool, u8, usize) -> Result<(Expr, usize), Stop>>(
    grammar: &Grammar<'_, F>,
    place: usize,
) -> Result<(Form, usize), Stop>
    requires { Nests grammar.now.depth (F.pre grammar.now.read) (F.post grammar.now.read) }
    ensures { Gives (at form_of) result (parse.match_form grammar.now.tokens.now (parse.below grammar.now.tokens.now grammar.now.depth) place) }
{
    let (subject, to) = grammar.enclosed(
        TokenKind::LeftParenthesis,
        TokenKind::RightParenthesis,
        place,
    )?;
    let ((arms, comma), to) = grammar.fenced(TokenKind::LeftBrace, TokenKind::RightBrace, to)?;
    let form = Form::Match {
        subject: Boxed::new(grammar.alloc, subject)?,
        arms,
        comma,
    };
    Ok((form, to))
}

#[tactic(auto, using(stan_syntax::proofs::Layers::layers), unfolding(stan_expr_rules::specs::Parse::may_capture))]
fn captures<F: Fn(Global, &[Token], u32, bool, u8, usize) -> Result<(Expr, usize), Stop>>(
    grammar: &Grammar<'_, F>,
    place: usize,
) -> Result<((Items<Token>, bool), usize), Stop>
    requires { Nests grammar.now.depth (F.pre grammar.now.read) (F.post grammar.now.read) }
    ensures { Gives (at (λ x. listed (map Captured x.0) x.1)) result (parse.may_capture grammar.now.tokens.now (parse.below grammar.now.tokens.now grammar.now.depth) place) }
{
    match after(grammar.tokens, TokenKind::Use, place) {
        Some(to) => grammar.fenced_some(to),
        None => Ok(((Items::new(grammar.alloc), false), place)),
    }
}

#[tactic(auto, using(stan_syntax::proofs::Layers::layers), unfolding(stan_expr_rules::specs::Parse::parameters))]
fn parameters<F: Fn(Global, &[Token], u32, bool, u8, usize) -> Result<(Expr, usize), Stop>>(
    grammar: &Grammar<'_, F>,
    place: usize,
) -> Result<((Items<Parameter>, bool), usize), Stop>
    requires { Nests grammar.now.depth (F.pre grammar.now.read) (F.post grammar.now.read) }
    ensures { Gives (at (λ x. listed (map parameter_of x.0) x.1)) result (parse.parameters grammar.now.tokens.now (parse.below grammar.now.tokens.now grammar.now.depth) place) }
{
    grammar.fenced(
        TokenKind::LeftParenthesis,
        TokenKind::RightParenthesis,
        place,
    )
}

/// Behind `function`.
#[tactic(auto, using(stan_syntax::proofs::Layers::layers), unfolding(stan_expr_rules::specs::Parse::closure))]
fn closure<F: Fn(Global, &[Token], u32, bool, u8, usize) -> Result<(Expr, usize), Stop>>(
    grammar: &Grammar<'_, F>,
    is_static: bool,
    place: usize,
) -> Result<(Form, usize), Stop>
    requires { Nests grammar.now.depth (F.pre grammar.now.read) (F.post grammar.now.read) }
    ensures { Gives (at form_of) result (parse.closure grammar.now.tokens.now (parse.below grammar.now.tokens.now grammar.now.depth) is_static place) }
{
    let (by_reference, to) = may(grammar.tokens, TokenKind::Ampersand, place);
    let ((parameters, comma), to) = parameters(grammar, to)?;
    let ((captures, captures_comma), to) = captures(grammar, to)?;
    let (result, to) = may_return(grammar.alloc, grammar.tokens, to)?;
    let (body, to) = body(grammar.tokens, to)?;
    let closure = Form::Closure {
        is_static,
        by_reference,
        parameters,
        comma,
        captures,
        captures_comma,
        result,
        body,
    };
    Ok((closure, to))
}

/// Behind `fn`.
#[tactic(auto, using(stan_syntax::proofs::Layers::layers), unfolding(stan_expr_rules::specs::Parse::arrow))]
fn arrow<F: Fn(Global, &[Token], u32, bool, u8, usize) -> Result<(Expr, usize), Stop>>(
    grammar: &Grammar<'_, F>,
    is_static: bool,
    place: usize,
) -> Result<(Form, usize), Stop>
    requires { Nests grammar.now.depth (F.pre grammar.now.read) (F.post grammar.now.read) }
    ensures { Gives (at form_of) result (parse.arrow grammar.now.tokens.now (parse.below grammar.now.tokens.now grammar.now.depth) is_static place) }
{
    let (by_reference, to) = may(grammar.tokens, TokenKind::Ampersand, place);
    let ((parameters, comma), to) = parameters(grammar, to)?;
    let (result, to) = may_return(grammar.alloc, grammar.tokens, to)?;
    let from = grammar.expect(TokenKind::DoubleArrow, to)?;
    let (value, to) = grammar.expression(from)?;
    let arrow = Form::Arrow {
        is_static,
        by_reference,
        parameters,
        comma,
        result,
        value: Boxed::new(grammar.alloc, value)?,
    };
    Ok((arrow, to))
}

#[tactic(auto, using(stan_syntax::proofs::Layers::layers), unfolding(stan_expr_rules::specs::Parse::part_at, stan_expr_rules::specs::Parse::part_by, stan_expr_rules::specs::Parse::inserted, stan_expr_rules::specs::Places::same_kind))]
fn part<F: Fn(Global, &[Token], u32, bool, u8, usize) -> Result<(Expr, usize), Stop>>(
    grammar: &Grammar<'_, F>,
    place: usize,
) -> Result<Option<(TextPart, usize)>, Stop>
    requires { Nests grammar.now.depth (F.pre grammar.now.read) (F.post grammar.now.read) }
    ensures { Gives (turn part_of) result (parse.part_at grammar.now.tokens.now (parse.below grammar.now.tokens.now grammar.now.depth) place) }
{
    let Some(first) = token_at(grammar.tokens, place) else {
        return Err(Stop::Absent);
    };
    if is_part(first.kind) {
        return Ok(Some((TextPart::Token(first), place + 1)));
    }
    if first.kind == TokenKind::InsertionStart {
        let (e, to) = grammar.enclosed(TokenKind::InsertionStart, TokenKind::InsertionEnd, place)?;
        return Ok(Some((TextPart::Expression(e), to)));
    }
    Ok(None)
}

#[tactic(auto, using(stan_syntax::proofs::Layers::layers), unfolding(stan_expr_rules::specs::Parse::parts, stan_expr_rules::specs::Parse::all))]
fn parts<F: Fn(Global, &[Token], u32, bool, u8, usize) -> Result<(Expr, usize), Stop>>(
    grammar: &Grammar<'_, F>,
    from: usize,
) -> Result<(Items<TextPart>, usize), Stop>
    requires { Nests grammar.now.depth (F.pre grammar.now.read) (F.post grammar.now.read) }
    ensures { Gives (at (map part_of)) result (parse.parts grammar.now.tokens.now (parse.below grammar.now.tokens.now grammar.now.depth) from) }
{
    let mut found = Items::new(grammar.alloc);
    let mut place = from;
    for _turn in 0..grammar.tokens.len() + 1 {
        match part(grammar, place)? {
            None => return Ok((found, place)),
            Some((item, to)) => {
                found.push(item)?;
                place = to;
            }
        }
    }
    Err(Stop::Absent)
}

/// Behind the quote.
#[tactic(auto, using(stan_syntax::proofs::Layers::layers), unfolding(stan_expr_rules::specs::Parse::text))]
fn text<F: Fn(Global, &[Token], u32, bool, u8, usize) -> Result<(Expr, usize), Stop>>(
    grammar: &Grammar<'_, F>,
    place: usize,
) -> Result<(Form, usize), Stop>
    requires { Nests grammar.now.depth (F.pre grammar.now.read) (F.post grammar.now.read) }
    ensures { Gives (at form_of) result (parse.text grammar.now.tokens.now (parse.below grammar.now.tokens.now grammar.now.depth) place) }
{
    let (parts, to) = parts(grammar, place)?;
    let to = grammar.expect(TokenKind::TextEnd, to)?;
    Ok((Form::Text(parts), to))
}

/// Behind `static`.
#[tactic(auto, using(stan_syntax::proofs::Layers::layers), unfolding(stan_expr_rules::specs::Parse::static_word))]
fn static_word<F: Fn(Global, &[Token], u32, bool, u8, usize) -> Result<(Expr, usize), Stop>>(
    grammar: &Grammar<'_, F>,
    place: usize,
) -> Result<(Form, usize), Stop>
    requires { Nests grammar.now.depth (F.pre grammar.now.read) (F.post grammar.now.read) }
    ensures { Gives (at form_of) result (parse.static_word grammar.now.tokens.now (parse.below grammar.now.tokens.now grammar.now.depth) place) }
{
    if let Some(to) = after(grammar.tokens, TokenKind::Function, place) {
        return closure(grammar, true, to);
    }
    match after(grammar.tokens, TokenKind::Fn, place) {
        Some(to) => arrow(grammar, true, to),
        None => Ok((Form::Leaf(Leaf::Static), place)),
    }
}

/// Behind a token of this kind.
#[tactic(auto, using(stan_syntax::proofs::Layers::layers))]
fn leaf<F: Fn(Global, &[Token], u32, bool, u8, usize) -> Result<(Expr, usize), Stop>>(
    grammar: &Grammar<'_, F>,
    kind: TokenKind,
    place: usize,
) -> Result<(Form, usize), Stop>
    ensures { Gives (at form_of) result (parse.leaf grammar.now.tokens.now (parse.below grammar.now.tokens.now grammar.now.depth) (leaf_of kind) place) }
{
    match leaf_of(kind) {
        Some(leaf) => Ok((Form::Leaf(leaf), place)),
        None => Err(Stop::Absent),
    }
}

/// What stands alone, at a token of this kind.
#[tactic(auto)]
pub fn form<F: Fn(Global, &[Token], u32, bool, u8, usize) -> Result<(Expr, usize), Stop>>(
    grammar: &Grammar<'_, F>,
    kind: TokenKind,
    place: usize,
) -> Result<(Form, usize), Stop>
    requires nests { Nests grammar.now.depth (F.pre grammar.now.read) (F.post grammar.now.read) }
    requires there { place < length grammar.now.tokens.now }
    ensures { Gives (at form_of) result (parse.form_by grammar.now.tokens.now (parse.below grammar.now.tokens.now grammar.now.depth) kind place) }
{
    match kind {
        TokenKind::LeftParenthesis => brackets(grammar, place),
        TokenKind::LeftBracket => short_array(grammar, place),
        TokenKind::Array => long_array(grammar, ArrayStyle::Array, place + 1),
        TokenKind::List => long_array(grammar, ArrayStyle::List, place + 1),
        TokenKind::IsSet => is_set(grammar, place + 1),
        TokenKind::Empty => empty(grammar, place + 1),
        TokenKind::Exit | TokenKind::Die => exit(grammar, place + 1),
        TokenKind::Match => match_form(grammar, place + 1),
        TokenKind::Function => closure(grammar, false, place + 1),
        TokenKind::Fn => arrow(grammar, false, place + 1),
        TokenKind::Static => static_word(grammar, place + 1),
        TokenKind::TextStart => text(grammar, place + 1),
        _ => leaf(grammar, kind, place + 1),
    }
}
