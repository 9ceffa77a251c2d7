//! Atoms, in the order in which they are tried.

ghost use Rattle.std.specs.Prelude.{◌≤◌, List, [], ◌∷◌};
ghost use Rattle.stan_model_doc.specs.Rules as rules;
ghost use Rattle.stan_model_doc.specs.Symbols as sorts;
ghost use Rattle.stan_places.specs.Gives.{Gives, at};
ghost use Rattle.stan_doc_trees.specs.Tree.{atom_of};
ghost use Rattle.stan_doc_parts.specs.Gives as spec;
ghost use Rattle.stan_doc_parts.specs.Nests.{Nests};

use crate::fields::Fields;
use crate::lists::{Arguments, ResultType};
use sqlite_items::{Boxed, Items};
use stan_doc_parts::parser::{Parser, Part, with_first};
use stan_doc_parts::places::enter;
use stan_doc_parts::words::{Callables, Greatest, Least, Literals, Members, Names};
use stan_doc_texts::any_at;
use stan_doc_trees::{Atom, Unary, Written};
use stan_model_doc::token::{DocKind, DocToken};
use stan_places::stop::Stop;
use std::alloc::Global;

// A type in brackets.
#[tactic(auto, using(stan_doc_trees::proofs::Layers::layers), unfolding(stan_doc_parts::specs::Gives::whole))]
fn group<
    W: Fn(Global, &[DocToken], usize, usize) -> Result<(Written, usize), Stop>,
    U: Fn(Global, &[DocToken], usize, usize) -> Result<(Unary, usize), Stop>,
>(parser: &Parser<'_, W, U>, levels: usize, place: usize) -> Result<(Atom, usize), Stop>
    requires nests { Nests parser.now.levels (W.pre parser.now.read_written) (W.post parser.now.read_written) (U.pre parser.now.read_unary) (U.post parser.now.read_unary) }
    requires room { levels ≤ parser.now.levels }
    ensures { Gives (at atom_of) result (spec.whole parser.now.tokens.now levels rules.group place) }
{
    let levels = enter(levels)?;
    let to = parser.expect(DocKind::LeftParenthesis, place)?;
    let (written, to) = parser.written(levels, to)?;
    let to = parser.expect(DocKind::RightParenthesis, to)?;
    Ok((Atom::Group(Boxed::new(parser.alloc, written)?), to))
}

// `$this`
#[tactic(auto, using(stan_doc_trees::proofs::Layers::layers), unfolding(stan_doc_parts::specs::Gives::whole))]
fn this<
    W: Fn(Global, &[DocToken], usize, usize) -> Result<(Written, usize), Stop>,
    U: Fn(Global, &[DocToken], usize, usize) -> Result<(Unary, usize), Stop>,
>(parser: &Parser<'_, W, U>, levels: usize, place: usize) -> Result<(Atom, usize), Stop>
    requires nests { Nests parser.now.levels (W.pre parser.now.read_written) (W.post parser.now.read_written) (U.pre parser.now.read_unary) (U.post parser.now.read_unary) }
    requires room { levels ≤ parser.now.levels }
    ensures { Gives (at atom_of) result (spec.whole parser.now.tokens.now levels rules.this place) }
{
    enter(levels)?;
    let to = parser.expect(DocKind::This, place)?;
    Ok((Atom::This, to))
}

// An integer, a float or a quoted text.
#[tactic(auto, using(stan_doc_trees::proofs::Layers::layers), unfolding(stan_doc_parts::specs::Gives::whole))]
fn literal<
    W: Fn(Global, &[DocToken], usize, usize) -> Result<(Written, usize), Stop>,
    U: Fn(Global, &[DocToken], usize, usize) -> Result<(Unary, usize), Stop>,
>(parser: &Parser<'_, W, U>, levels: usize, place: usize) -> Result<(Atom, usize), Stop>
    requires nests { Nests parser.now.levels (W.pre parser.now.read_written) (W.post parser.now.read_written) (U.pre parser.now.read_unary) (U.post parser.now.read_unary) }
    requires room { levels ≤ parser.now.levels }
    ensures { Gives (at atom_of) result (spec.whole parser.now.tokens.now levels rules.literal place) }
{
    enter(levels)?;
    let (token, to) = parser.word::<Literals>(place)?;
    Ok((Atom::Literal(token), to))
}

// `array{..}`
#[tactic(auto, using(stan_doc_trees::proofs::Layers::layers), unfolding(stan_doc_parts::specs::Gives::whole))]
fn shape<
    W: Fn(Global, &[DocToken], usize, usize) -> Result<(Written, usize), Stop>,
    U: Fn(Global, &[DocToken], usize, usize) -> Result<(Unary, usize), Stop>,
>(parser: &Parser<'_, W, U>, levels: usize, place: usize) -> Result<(Atom, usize), Stop>
    requires nests { Nests parser.now.levels (W.pre parser.now.read_written) (W.post parser.now.read_written) (U.pre parser.now.read_unary) (U.post parser.now.read_unary) }
    requires room { levels ≤ parser.now.levels }
    ensures { Gives (at atom_of) result (spec.whole parser.now.tokens.now levels rules.shape place) }
{
    let levels = enter(levels)?;
    let to = parser.expect(DocKind::Array, place)?;
    let to = parser.expect(DocKind::LeftBrace, to)?;
    let (fields, to) = parser.maybe::<Fields>(levels, to)?;
    let to = parser.expect(DocKind::RightBrace, to)?;
    match fields {
        None => {
            let fields = Items::new(parser.alloc);
            Ok((
                Atom::Shape {
                    fields,
                    comma: false,
                },
                to,
            ))
        }
        Some((first, more, comma)) => {
            let fields = with_first(parser.alloc, first, more)?;
            Ok((Atom::Shape { fields, comma }, to))
        }
    }
}

// `int<least, greatest>`
#[tactic(auto, using(stan_doc_trees::proofs::Layers::layers), unfolding(stan_doc_parts::specs::Gives::whole))]
fn range<
    W: Fn(Global, &[DocToken], usize, usize) -> Result<(Written, usize), Stop>,
    U: Fn(Global, &[DocToken], usize, usize) -> Result<(Unary, usize), Stop>,
>(parser: &Parser<'_, W, U>, levels: usize, place: usize) -> Result<(Atom, usize), Stop>
    requires nests { Nests parser.now.levels (W.pre parser.now.read_written) (W.post parser.now.read_written) (U.pre parser.now.read_unary) (U.post parser.now.read_unary) }
    requires room { levels ≤ parser.now.levels }
    ensures { Gives (at atom_of) result (spec.whole parser.now.tokens.now levels rules.range place) }
{
    enter(levels)?;
    let to = parser.expect(DocKind::Int, place)?;
    let to = parser.expect(DocKind::Below, to)?;
    let (least, to) = parser.word::<Least>(to)?;
    let to = parser.expect(DocKind::Comma, to)?;
    let (greatest, to) = parser.word::<Greatest>(to)?;
    let to = parser.expect(DocKind::Above, to)?;
    Ok((Atom::Range { least, greatest }, to))
}

// `callable(..)` or `Closure(..)`, with what stands behind a `:`.
#[tactic(auto, using(stan_doc_trees::proofs::Layers::layers), unfolding(stan_doc_parts::specs::Gives::whole))]
fn callable<
    W: Fn(Global, &[DocToken], usize, usize) -> Result<(Written, usize), Stop>,
    U: Fn(Global, &[DocToken], usize, usize) -> Result<(Unary, usize), Stop>,
>(parser: &Parser<'_, W, U>, levels: usize, place: usize) -> Result<(Atom, usize), Stop>
    requires nests { Nests parser.now.levels (W.pre parser.now.read_written) (W.post parser.now.read_written) (U.pre parser.now.read_unary) (U.post parser.now.read_unary) }
    requires room { levels ≤ parser.now.levels }
    ensures { Gives (at atom_of) result (spec.whole parser.now.tokens.now levels rules.callable_type place) }
{
    let levels = enter(levels)?;
    let (name, to) = parser.word::<Callables>(place)?;
    let from = parser.expect(DocKind::LeftParenthesis, to)?;
    let parameters = any_at(parser.alloc, parser.tokens, from)?;
    let to = parser.expect(DocKind::RightParenthesis, from + parameters)?;
    let (result, to) = parser.maybe::<ResultType>(levels, to)?;
    let result = match result {
        None => None,
        Some(unary) => Some(Boxed::new(parser.alloc, unary)?),
    };
    Ok((
        Atom::Callable {
            name,
            parameters,
            result,
        },
        to,
    ))
}

// `class::constant`
#[tactic(auto, using(stan_doc_trees::proofs::Layers::layers), unfolding(stan_doc_parts::specs::Gives::whole))]
fn member<
    W: Fn(Global, &[DocToken], usize, usize) -> Result<(Written, usize), Stop>,
    U: Fn(Global, &[DocToken], usize, usize) -> Result<(Unary, usize), Stop>,
>(parser: &Parser<'_, W, U>, levels: usize, place: usize) -> Result<(Atom, usize), Stop>
    requires nests { Nests parser.now.levels (W.pre parser.now.read_written) (W.post parser.now.read_written) (U.pre parser.now.read_unary) (U.post parser.now.read_unary) }
    requires room { levels ≤ parser.now.levels }
    ensures { Gives (at atom_of) result (spec.whole parser.now.tokens.now levels rules.member place) }
{
    enter(levels)?;
    let (class, to) = parser.word::<Names>(place)?;
    let to = parser.expect(DocKind::DoubleColon, to)?;
    let (constant, to) = parser.word::<Members>(to)?;
    Ok((Atom::Member { class, constant }, to))
}

// A name, with what stands between `<` and `>`.
#[tactic(auto, using(stan_doc_trees::proofs::Layers::layers), unfolding(stan_doc_parts::specs::Gives::whole))]
fn name<
    W: Fn(Global, &[DocToken], usize, usize) -> Result<(Written, usize), Stop>,
    U: Fn(Global, &[DocToken], usize, usize) -> Result<(Unary, usize), Stop>,
>(parser: &Parser<'_, W, U>, levels: usize, place: usize) -> Result<(Atom, usize), Stop>
    requires nests { Nests parser.now.levels (W.pre parser.now.read_written) (W.post parser.now.read_written) (U.pre parser.now.read_unary) (U.post parser.now.read_unary) }
    requires room { levels ≤ parser.now.levels }
    ensures { Gives (at atom_of) result (spec.whole parser.now.tokens.now levels rules.name place) }
{
    let levels = enter(levels)?;
    let (name, to) = parser.word::<Names>(place)?;
    let (arguments, to) = parser.maybe::<Arguments>(levels, to)?;
    let arguments = match arguments {
        None => Items::new(parser.alloc),
        Some((first, more)) => with_first(parser.alloc, first, more)?,
    };
    Ok((Atom::Name { name, arguments }, to))
}

// What begins with a name.
#[tactic(auto)]
fn named<
    W: Fn(Global, &[DocToken], usize, usize) -> Result<(Written, usize), Stop>,
    U: Fn(Global, &[DocToken], usize, usize) -> Result<(Unary, usize), Stop>,
>(parser: &Parser<'_, W, U>, levels: usize, place: usize) -> Result<(Atom, usize), Stop>
    requires nests { Nests parser.now.levels (W.pre parser.now.read_written) (W.post parser.now.read_written) (U.pre parser.now.read_unary) (U.post parser.now.read_unary) }
    requires room { levels ≤ parser.now.levels }
    ensures { Gives (at atom_of) result (spec.wholes parser.now.tokens.now levels (rules.range ∷ rules.callable_type ∷ rules.member ∷ rules.name ∷ []) place) }
{
    match range(parser, levels, place) {
        Ok(found) => return Ok(found),
        Err(Stop::Memory) => return Err(Stop::Memory),
        Err(Stop::Absent) => {}
    }
    match callable(parser, levels, place) {
        Ok(found) => return Ok(found),
        Err(Stop::Memory) => return Err(Stop::Memory),
        Err(Stop::Absent) => {}
    }
    match member(parser, levels, place) {
        Ok(found) => return Ok(found),
        Err(Stop::Memory) => return Err(Stop::Memory),
        Err(Stop::Absent) => {}
    }
    name(parser, levels, place)
}

/// An atom.
pub struct AtomPart;

impl Part for AtomPart {
    type Tree = Atom;

    ghost sort = { sorts.Atom };

    ghost view = { atom_of };

    #[tactic(auto, using(stan_doc_parts::proofs::Productions::part_first))]
    fn read<
        W: Fn(Global, &[DocToken], usize, usize) -> Result<(Written, usize), Stop>,
        U: Fn(Global, &[DocToken], usize, usize) -> Result<(Unary, usize), Stop>,
    >(parser: &Parser<'_, W, U>, levels: usize, place: usize) -> Result<(Atom, usize), Stop> {
        match group(parser, levels, place) {
            Ok(found) => return Ok(found),
            Err(Stop::Memory) => return Err(Stop::Memory),
            Err(Stop::Absent) => {}
        }
        match this(parser, levels, place) {
            Ok(found) => return Ok(found),
            Err(Stop::Memory) => return Err(Stop::Memory),
            Err(Stop::Absent) => {}
        }
        match literal(parser, levels, place) {
            Ok(found) => return Ok(found),
            Err(Stop::Memory) => return Err(Stop::Memory),
            Err(Stop::Absent) => {}
        }
        match shape(parser, levels, place) {
            Ok(found) => return Ok(found),
            Err(Stop::Memory) => return Err(Stop::Memory),
            Err(Stop::Absent) => {}
        }
        named(parser, levels, place)
    }
}
