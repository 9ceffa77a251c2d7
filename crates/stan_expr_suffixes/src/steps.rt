//! What is appended to an expression.

ghost use Rattle.std.specs.Prelude.{◌≡◌, ◌<◌, length, map, option_map};
ghost use Rattle.stan_model_grammar.specs.Trees.{Step};
ghost use Rattle.stan_places.specs.Gives.{Gives, at, turn};
ghost use Rattle.stan_expr_items.specs.Nests.{Nests};
ghost use Rattle.stan_expr_rules.specs.Parse.{Read};
ghost use Rattle.stan_expr_rules.specs.Parse as parse;
ghost use Rattle.stan_model_grammar.specs.TreeLists.{may_be_called};
ghost use Rattle.stan_syntax.specs.Tree.{arguments_of, suffix_of, member_of};

use sqlite_items::{Boxed, Items};
use stan_expr_items::grammar::Grammar;
use stan_model_grammar::token::{Token, TokenKind};
use stan_places::places::{after, after_next, token_at};
use stan_places::stop::Stop;
use stan_places::strata::{names_member, names_scoped};
use stan_syntax::{Arguments, Expr, MemberName, Suffix};
use std::alloc::Global;

/// The turn of a loop that takes what was read.
fn taken(read: Result<(Suffix, usize), Stop>) -> Result<Option<(Suffix, usize)>, Stop>
    ensures { (given : Read Step) → Gives (at suffix_of) read given → Gives (turn suffix_of) result (parse.taken given) }
{
    match read {
        Ok(found) => Ok(Some(found)),
        Err(stop) => Err(stop),
    }
}

#[tactic(auto, using(stan_syntax::proofs::Layers::layers), unfolding(stan_expr_rules::specs::Parse::called))]
fn called<F: Fn(Global, &[Token], u32, bool, u8, usize) -> Result<(Expr, usize), Stop>>(
    grammar: &Grammar<'_, F>,
    callable: bool,
    place: usize,
) -> Result<(Option<Arguments>, usize), Stop>
    requires { Nests grammar.now.depth (F.pre grammar.now.read) (F.post grammar.now.read) }
    ensures { Gives (at (λ x. may_be_called (option_map arguments_of x))) result (parse.called grammar.now.tokens.now (parse.below grammar.now.tokens.now grammar.now.depth) callable place) }
{
    if callable {
        grammar.may_be_called(place)
    } else {
        Ok((None, place))
    }
}

/// Behind an arrow.
#[tactic(auto, using(stan_syntax::proofs::Layers::layers), unfolding(stan_expr_rules::specs::Parse::member, stan_expr_rules::specs::Parse::computed_member, stan_expr_rules::specs::Parse::named_member))]
fn member<F: Fn(Global, &[Token], u32, bool, u8, usize) -> Result<(Expr, usize), Stop>>(
    grammar: &Grammar<'_, F>,
    place: usize,
) -> Result<(MemberName, usize), Stop>
    requires { Nests grammar.now.depth (F.pre grammar.now.read) (F.post grammar.now.read) }
    ensures { Gives (at member_of) result (parse.member grammar.now.tokens.now (parse.below grammar.now.tokens.now grammar.now.depth) place) }
{
    if after(grammar.tokens, TokenKind::LeftBrace, place).is_some() {
        let (e, to) = grammar.enclosed(TokenKind::LeftBrace, TokenKind::RightBrace, place)?;
        return Ok((MemberName::Computed(Boxed::new(grammar.alloc, e)?), to));
    }
    match token_at(grammar.tokens, place) {
        Some(name) if names_member(name.kind) => Ok((MemberName::Named(name), place + 1)),
        _ => Err(Stop::Absent),
    }
}

#[tactic(auto, using(stan_syntax::proofs::Layers::layers), unfolding(stan_expr_rules::specs::Parse::property))]
fn property<F: Fn(Global, &[Token], u32, bool, u8, usize) -> Result<(Expr, usize), Stop>>(
    grammar: &Grammar<'_, F>,
    callable: bool,
    nullsafe: bool,
    place: usize,
) -> Result<(Suffix, usize), Stop>
    requires { Nests grammar.now.depth (F.pre grammar.now.read) (F.post grammar.now.read) }
    ensures { Gives (at suffix_of) result (parse.property grammar.now.tokens.now (parse.below grammar.now.tokens.now grammar.now.depth) callable nullsafe place) }
{
    let (name, to) = member(grammar, place)?;
    let (arguments, to) = called(grammar, callable, to)?;
    let property = Suffix::Property {
        nullsafe,
        name,
        arguments,
    };
    Ok((property, to))
}

#[tactic(auto, using(stan_syntax::proofs::Layers::layers), unfolding(stan_expr_rules::specs::Parse::scoped_with))]
fn scoped_with<F: Fn(Global, &[Token], u32, bool, u8, usize) -> Result<(Expr, usize), Stop>>(
    grammar: &Grammar<'_, F>,
    callable: bool,
    name: Token,
    place: usize,
) -> Result<(Suffix, usize), Stop>
    requires { Nests grammar.now.depth (F.pre grammar.now.read) (F.post grammar.now.read) }
    ensures { Gives (at suffix_of) result (parse.scoped_with grammar.now.tokens.now (parse.below grammar.now.tokens.now grammar.now.depth) callable name place) }
{
    let (arguments, to) = called(grammar, callable, place)?;
    Ok((Suffix::Scoped(name, arguments), to))
}

/// Behind `::`.
#[tactic(auto, using(stan_syntax::proofs::Layers::layers), unfolding(stan_expr_rules::specs::Parse::scoped))]
fn scoped<F: Fn(Global, &[Token], u32, bool, u8, usize) -> Result<(Expr, usize), Stop>>(
    grammar: &Grammar<'_, F>,
    place: usize,
) -> Result<(Suffix, usize), Stop>
    requires { Nests grammar.now.depth (F.pre grammar.now.read) (F.post grammar.now.read) }
    ensures { Gives (at suffix_of) result (parse.scoped grammar.now.tokens.now (parse.below grammar.now.tokens.now grammar.now.depth) place) }
{
    match token_at(grammar.tokens, place) {
        Some(name) if names_scoped(name.kind) => scoped_with(grammar, true, name, place + 1),
        _ => Err(Stop::Absent),
    }
}

/// Behind `::`, where a variable stands.
#[tactic(auto, using(stan_syntax::proofs::Layers::layers), unfolding(stan_expr_rules::specs::Parse::class_scoped))]
fn class_scoped<F: Fn(Global, &[Token], u32, bool, u8, usize) -> Result<(Expr, usize), Stop>>(
    grammar: &Grammar<'_, F>,
    place: usize,
) -> Result<Option<(Suffix, usize)>, Stop>
    requires { Nests grammar.now.depth (F.pre grammar.now.read) (F.post grammar.now.read) }
    ensures { Gives (turn suffix_of) result (parse.class_scoped grammar.now.tokens.now (parse.below grammar.now.tokens.now grammar.now.depth) place) }
{
    let Some(to) = after(grammar.tokens, TokenKind::Variable, place) else {
        return Ok(None);
    };
    let Some(name) = token_at(grammar.tokens, place) else {
        return Err(Stop::Absent);
    };
    Ok(Some(scoped_with(grammar, false, name, to)?))
}

/// At `[`.
#[tactic(auto, using(stan_syntax::proofs::Layers::layers), unfolding(stan_expr_rules::specs::Parse::bracket, stan_expr_rules::specs::Parse::index))]
fn bracket<F: Fn(Global, &[Token], u32, bool, u8, usize) -> Result<(Expr, usize), Stop>>(
    grammar: &Grammar<'_, F>,
    place: usize,
) -> Result<(Suffix, usize), Stop>
    requires { Nests grammar.now.depth (F.pre grammar.now.read) (F.post grammar.now.read) }
    ensures { Gives (at suffix_of) result (parse.bracket grammar.now.tokens.now (parse.below grammar.now.tokens.now grammar.now.depth) place) }
{
    if let Some(to) = after_next(grammar.tokens, TokenKind::RightBracket, place) {
        return Ok((Suffix::Push, to));
    }
    let (e, to) = grammar.enclosed(TokenKind::LeftBracket, TokenKind::RightBracket, place)?;
    Ok((Suffix::Index(Boxed::new(grammar.alloc, e)?), to))
}

#[tactic(auto, using(stan_syntax::proofs::Layers::layers), unfolding(stan_expr_rules::specs::Parse::call))]
fn call<F: Fn(Global, &[Token], u32, bool, u8, usize) -> Result<(Expr, usize), Stop>>(
    grammar: &Grammar<'_, F>,
    place: usize,
) -> Result<(Suffix, usize), Stop>
    requires { Nests grammar.now.depth (F.pre grammar.now.read) (F.post grammar.now.read) }
    ensures { Gives (at suffix_of) result (parse.call grammar.now.tokens.now (parse.below grammar.now.tokens.now grammar.now.depth) place) }
{
    let ((list, comma), to) = grammar.fenced(
        TokenKind::LeftParenthesis,
        TokenKind::RightParenthesis,
        place,
    )?;
    Ok((Suffix::Call(Arguments { list, comma }), to))
}

/// At a token of this kind.
#[tactic(auto, using(stan_syntax::proofs::Layers::layers))]
fn suffix_by<F: Fn(Global, &[Token], u32, bool, u8, usize) -> Result<(Expr, usize), Stop>>(
    grammar: &Grammar<'_, F>,
    kind: TokenKind,
    place: usize,
) -> Result<Option<(Suffix, usize)>, Stop>
    requires nests { Nests grammar.now.depth (F.pre grammar.now.read) (F.post grammar.now.read) }
    requires there { place < length grammar.now.tokens.now }
    ensures { Gives (turn suffix_of) result (parse.suffix_by grammar.now.tokens.now (parse.below grammar.now.tokens.now grammar.now.depth) kind place) }
{
    match kind {
        TokenKind::LeftBracket => taken(bracket(grammar, place)),
        TokenKind::Arrow => taken(property(grammar, true, false, place + 1)),
        TokenKind::NullsafeArrow => taken(property(grammar, true, true, place + 1)),
        TokenKind::DoubleColon => taken(scoped(grammar, place + 1)),
        TokenKind::LeftParenthesis => taken(call(grammar, place)),
        TokenKind::Increment => Ok(Some((Suffix::Increment, place + 1))),
        TokenKind::Decrement => Ok(Some((Suffix::Decrement, place + 1))),
        _ => Ok(None),
    }
}

#[tactic(auto, unfolding(stan_expr_rules::specs::Parse::suffix_at, stan_model_grammar::specs::Strata::kind_at))]
fn suffix<F: Fn(Global, &[Token], u32, bool, u8, usize) -> Result<(Expr, usize), Stop>>(
    grammar: &Grammar<'_, F>,
    place: usize,
) -> Result<Option<(Suffix, usize)>, Stop>
    requires { Nests grammar.now.depth (F.pre grammar.now.read) (F.post grammar.now.read) }
    ensures { Gives (turn suffix_of) result (parse.suffix_at grammar.now.tokens.now (parse.below grammar.now.tokens.now grammar.now.depth) place) }
{
    match token_at(grammar.tokens, place) {
        None => Ok(None),
        Some(first) => suffix_by(grammar, first.kind, place),
    }
}

/// Of the class of a `new`, at a token of this kind.
#[tactic(auto)]
fn class_suffix_by<F: Fn(Global, &[Token], u32, bool, u8, usize) -> Result<(Expr, usize), Stop>>(
    grammar: &Grammar<'_, F>,
    kind: TokenKind,
    place: usize,
) -> Result<Option<(Suffix, usize)>, Stop>
    requires nests { Nests grammar.now.depth (F.pre grammar.now.read) (F.post grammar.now.read) }
    requires there { place < length grammar.now.tokens.now }
    ensures { Gives (turn suffix_of) result (parse.class_suffix_by grammar.now.tokens.now (parse.below grammar.now.tokens.now grammar.now.depth) kind place) }
{
    match kind {
        TokenKind::LeftBracket => taken(bracket(grammar, place)),
        TokenKind::Arrow => taken(property(grammar, false, false, place + 1)),
        TokenKind::NullsafeArrow => taken(property(grammar, false, true, place + 1)),
        TokenKind::DoubleColon => class_scoped(grammar, place + 1),
        _ => Ok(None),
    }
}

#[tactic(auto, unfolding(stan_expr_rules::specs::Parse::class_suffix_at, stan_model_grammar::specs::Strata::kind_at))]
fn class_suffix<F: Fn(Global, &[Token], u32, bool, u8, usize) -> Result<(Expr, usize), Stop>>(
    grammar: &Grammar<'_, F>,
    place: usize,
) -> Result<Option<(Suffix, usize)>, Stop>
    requires { Nests grammar.now.depth (F.pre grammar.now.read) (F.post grammar.now.read) }
    ensures { Gives (turn suffix_of) result (parse.class_suffix_at grammar.now.tokens.now (parse.below grammar.now.tokens.now grammar.now.depth) place) }
{
    match token_at(grammar.tokens, place) {
        None => Ok(None),
        Some(first) => class_suffix_by(grammar, first.kind, place),
    }
}

/// All that is appended from a place on, as many parts as there are, and the place behind them.
#[tactic(auto, using(stan_syntax::proofs::Layers::layers), unfolding(stan_expr_rules::specs::Parse::suffixes, stan_expr_rules::specs::Parse::all))]
pub fn suffixes<F: Fn(Global, &[Token], u32, bool, u8, usize) -> Result<(Expr, usize), Stop>>(
    grammar: &Grammar<'_, F>,
    from: usize,
) -> Result<(Items<Suffix>, usize), Stop>
    requires { Nests grammar.now.depth (F.pre grammar.now.read) (F.post grammar.now.read) }
    ensures { Gives (at (map suffix_of)) result (parse.suffixes grammar.now.tokens.now (parse.below grammar.now.tokens.now grammar.now.depth) from) }
{
    let mut found = Items::new(grammar.alloc);
    let mut place = from;
    for _turn in 0..grammar.tokens.len() + 1 {
        match suffix(grammar, place)? {
            None => return Ok((found, place)),
            Some((item, to)) => {
                found.push(item)?;
                place = to;
            }
        }
    }
    Err(Stop::Absent)
}

/// All that is appended to the variable that holds the class of a `new`, and the place behind it.
#[tactic(auto, using(stan_syntax::proofs::Layers::layers), unfolding(stan_expr_rules::specs::Parse::class_suffixes, stan_expr_rules::specs::Parse::all))]
pub fn class_suffixes<F: Fn(Global, &[Token], u32, bool, u8, usize) -> Result<(Expr, usize), Stop>>(
    grammar: &Grammar<'_, F>,
    from: usize,
) -> Result<(Items<Suffix>, usize), Stop>
    requires { Nests grammar.now.depth (F.pre grammar.now.read) (F.post grammar.now.read) }
    ensures { Gives (at (map suffix_of)) result (parse.class_suffixes grammar.now.tokens.now (parse.below grammar.now.tokens.now grammar.now.depth) from) }
{
    let mut found = Items::new(grammar.alloc);
    let mut place = from;
    for _turn in 0..grammar.tokens.len() + 1 {
        match class_suffix(grammar, place)? {
            None => return Ok((found, place)),
            Some((item, to)) => {
                found.push(item)?;
                place = to;
            }
        }
    }
    Err(Stop::Absent)
}
