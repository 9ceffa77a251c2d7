//! Conditions: the `:` that parts the branches is the last one that can.

ghost use Rattle.std.specs.Prelude.{◌≡◌, ◌≤◌, ◌+◌, ◌<◌, ◌&&◌, nat_le, length};
ghost use Rattle.stan_model_doc.specs.declared.token.DocKind.TheVariants as k;
ghost use Rattle.stan_model_doc.specs.Tokens.{kind_at, same_kind};
ghost use Rattle.stan_model_doc.specs.Rules as rules;
ghost use Rattle.stan_places.specs.Gives.{Gives, at};
ghost use Rattle.stan_doc_trees.specs.Tree.{written_of};
ghost use Rattle.stan_doc_levels.specs.Levels.{level};
ghost use Rattle.stan_doc_conditions.specs.Conditions as conditions;
ghost use Rattle.stan_doc_parts.specs.Nests.{Nests};
ghost use Rattle.stan_doc_types.specs.Conditions as spec;

use sqlite_items::Boxed;
use stan_doc_parts::parser::Parser;
use stan_doc_parts::places::{enter, kind_at};
use stan_doc_parts::words::Variables;
use stan_doc_trees::{Unary, Written};
use stan_model_doc::token::{DocKind, DocToken};
use stan_places::stop::Stop;
use std::alloc::Global;

/// The branches of a condition.
#[derive(Drop)]
pub struct Branches {
    pub then: Written,
    pub otherwise: Written,
}

/// What is tested, and the branches.
#[derive(Drop)]
pub struct Test {
    pub tested: Written,
    pub branches: Branches,
}

// Whether a `:` stands there.
#[tactic(auto, unfolding(stan_model_doc::specs::Tokens::same_kind))]
fn stands_colon(tokens: &[DocToken], place: usize) -> bool
    ensures { result ≡ same_kind (kind_at tokens.now place) k.Colon }
{
    kind_at(tokens, place) == DocKind::Colon
}

/// Whether one place is the other.
pub fn meets(place: usize, other: usize) -> bool
    ensures { result ≡ nat_le place other && nat_le other place }
{
    place <= other && other <= place
}

// The `:`, the second branch and the bracket.
#[tactic(auto, using(crate::proofs::Parting::second_is))]
fn second<
    W: Fn(Global, &[DocToken], usize, usize) -> Result<(Written, usize), Stop>,
    U: Fn(Global, &[DocToken], usize, usize) -> Result<(Unary, usize), Stop>,
>(parser: &Parser<'_, W, U>, levels: usize, place: usize) -> Result<(Written, usize), Stop>
    requires nests { Nests parser.now.levels (W.pre parser.now.read_written) (W.post parser.now.read_written) (U.pre parser.now.read_unary) (U.post parser.now.read_unary) }
    requires room { levels ≤ parser.now.levels }
    ensures { Gives (at spec.second_of) result (spec.second parser.now.tokens.now levels place) }
{
    let to = parser.expect(DocKind::Colon, place)?;
    let (otherwise, to) = parser.written(levels, to)?;
    let to = parser.expect(DocKind::RightParenthesis, to)?;
    Ok((otherwise, to))
}

// The branches, parted at the `:` at a place.
#[tactic(auto, using(crate::proofs::Parting::no_colon), unfolding(stan_doc_parts::specs::Gives::part, crate::specs::Conditions::second))]
fn parted_at<
    W: Fn(Global, &[DocToken], usize, usize) -> Result<(Written, usize), Stop>,
    U: Fn(Global, &[DocToken], usize, usize) -> Result<(Unary, usize), Stop>,
>(
    parser: &Parser<'_, W, U>,
    levels: usize,
    from: usize,
    place: usize,
) -> Result<(Branches, usize), Stop>
    requires nests { Nests parser.now.levels (W.pre parser.now.read_written) (W.post parser.now.read_written) (U.pre parser.now.read_unary) (U.post parser.now.read_unary) }
    requires room { levels ≤ parser.now.levels }
    requires within { place < length parser.now.tokens.now }
    ensures { Gives (at spec.branches_of) result (spec.parted parser.now.tokens.now levels from place) }
{
    if !stands_colon(parser.tokens, place) {
        return Err(Stop::Absent);
    }
    let text = &parser.tokens[..place];
    let (then, to) = (parser.read_written)(parser.alloc, text, levels, from)?;
    if !meets(to, place) {
        return Err(Stop::Absent);
    }
    let (otherwise, to) = second(parser, levels, place)?;
    Ok((Branches { then, otherwise }, to))
}

// The branches, parted at the last `:` that can part them.

fn last_parted<
    W: Fn(Global, &[DocToken], usize, usize) -> Result<(Written, usize), Stop>,
    U: Fn(Global, &[DocToken], usize, usize) -> Result<(Unary, usize), Stop>,
>(parser: &Parser<'_, W, U>, levels: usize, from: usize) -> Result<(Branches, usize), Stop>
    requires nests { Nests parser.now.levels (W.pre parser.now.read_written) (W.post parser.now.read_written) (U.pre parser.now.read_unary) (U.post parser.now.read_unary) }
    requires room { levels ≤ parser.now.levels }
    ensures { Gives (at spec.branches_of) result (spec.branches parser.now.tokens.now levels from) }
{
    let count = parser.tokens.len();
    for turn in 0..count {
        match parted_at(parser, levels, from, count - 1 - turn) {
            Ok(found) => return Ok(found),
            Err(Stop::Memory) => return Err(Stop::Memory),
            Err(Stop::Absent) => {}
        }
    }
    Err(Stop::Absent)
}

// What is tested, and the branches.
#[tactic(auto, unfolding(stan_doc_parts::specs::Gives::part, crate::specs::Conditions::branches))]
fn read_test<
    W: Fn(Global, &[DocToken], usize, usize) -> Result<(Written, usize), Stop>,
    U: Fn(Global, &[DocToken], usize, usize) -> Result<(Unary, usize), Stop>,
>(parser: &Parser<'_, W, U>, levels: usize, place: usize) -> Result<(Test, usize), Stop>
    requires nests { Nests parser.now.levels (W.pre parser.now.read_written) (W.post parser.now.read_written) (U.pre parser.now.read_unary) (U.post parser.now.read_unary) }
    requires room { levels ≤ parser.now.levels }
    ensures { Gives (at spec.test_of) result (conditions.test parser.now.tokens.now (level levels) place) }
{
    let (tested, to) = parser.written(levels, place)?;
    let to = parser.expect(DocKind::Question, to)?;
    let (branches, to) = last_parted(parser, levels, to)?;
    Ok((Test { tested, branches }, to))
}

// With `not`.
#[tactic(auto)]
fn negated<
    W: Fn(Global, &[DocToken], usize, usize) -> Result<(Written, usize), Stop>,
    U: Fn(Global, &[DocToken], usize, usize) -> Result<(Unary, usize), Stop>,
>(parser: &Parser<'_, W, U>, levels: usize, place: usize) -> Result<(Test, usize), Stop>
    requires nests { Nests parser.now.levels (W.pre parser.now.read_written) (W.post parser.now.read_written) (U.pre parser.now.read_unary) (U.post parser.now.read_unary) }
    requires room { levels ≤ parser.now.levels }
    ensures { Gives (at spec.negated_of) result (conditions.negated parser.now.tokens.now (level levels) place) }
{
    let to = parser.expect(DocKind::Not, place)?;
    let (test, to) = read_test(parser, levels, to)?;
    Ok((test, to))
}

// With `not`, or else without it.
#[tactic(auto)]
fn negatable<
    W: Fn(Global, &[DocToken], usize, usize) -> Result<(Written, usize), Stop>,
    U: Fn(Global, &[DocToken], usize, usize) -> Result<(Unary, usize), Stop>,
>(parser: &Parser<'_, W, U>, levels: usize, place: usize) -> Result<((bool, Test), usize), Stop>
    requires nests { Nests parser.now.levels (W.pre parser.now.read_written) (W.post parser.now.read_written) (U.pre parser.now.read_unary) (U.post parser.now.read_unary) }
    requires room { levels ≤ parser.now.levels }
    ensures { Gives (at spec.negatable_of) result (conditions.negatable parser.now.tokens.now (level levels) place) }
{
    match negated(parser, levels, place) {
        Ok((test, to)) => return Ok(((true, test), to)),
        Err(Stop::Memory) => return Err(Stop::Memory),
        Err(Stop::Absent) => {}
    }
    let (test, to) = read_test(parser, levels, place)?;
    Ok(((false, test), to))
}

/// A condition.
#[tactic(auto, using(stan_doc_trees::proofs::Layers::layers), unfolding(crate::specs::Conditions::conditional))]
pub fn conditional<
    W: Fn(Global, &[DocToken], usize, usize) -> Result<(Written, usize), Stop>,
    U: Fn(Global, &[DocToken], usize, usize) -> Result<(Unary, usize), Stop>,
>(parser: &Parser<'_, W, U>, levels: usize, place: usize) -> Result<(Written, usize), Stop>
    requires nests { Nests parser.now.levels (W.pre parser.now.read_written) (W.post parser.now.read_written) (U.pre parser.now.read_unary) (U.post parser.now.read_unary) }
    requires room { levels ≤ parser.now.levels + 1 }
    ensures { Gives (at written_of) result (spec.conditional parser.now.tokens.now levels place) }
{
    let levels = enter(levels)?;
    let to = parser.expect(DocKind::LeftParenthesis, place)?;
    let (variable, to) = parser.word::<Variables>(to)?;
    let to = parser.expect(DocKind::Is, to)?;
    let ((is_negated, test), to) = negatable(parser, levels, to)?;
    let Test { tested, branches } = test;
    let tested = Boxed::new(parser.alloc, tested)?;
    let then = Boxed::new(parser.alloc, branches.then)?;
    let otherwise = Boxed::new(parser.alloc, branches.otherwise)?;
    Ok((
        Written::Conditional {
            variable,
            is_negated,
            tested,
            then,
            otherwise,
        },
        to,
    ))
}
