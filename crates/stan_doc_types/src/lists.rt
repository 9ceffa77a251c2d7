//! Types with `|` and `&` between them, and what stands between those.

ghost use Rattle.std.specs.Prelude.{◌≤◌, ◌+◌, List, [], ◌∷◌, map};
ghost use Rattle.stan_model_doc.specs.Rules as rules;
ghost use Rattle.stan_model_doc.specs.Symbols as sorts;
ghost use Rattle.stan_model_doc.specs.Trees.{nil, mark};
ghost use Rattle.stan_places.specs.Gives.{Gives, at};
ghost use Rattle.stan_doc_trees.specs.Tree.{behind_mark, listed, written_of, unary_of, intersection_of};
ghost use Rattle.stan_doc_parts.specs.Gives as spec;
ghost use Rattle.stan_doc_parts.specs.Nests.{Nests};

use sqlite_items::{Boxed, Items};
use stan_doc_atoms::AtomPart;
use stan_doc_parts::parser::{Parser, Part, with_first};
use stan_doc_parts::places::enter;
use stan_doc_trees::{Intersection, Unary, Written};
use stan_model_doc::token::{DocKind, DocToken};
use stan_places::stop::Stop;
use std::alloc::Global;

/// An empty pair of brackets.
pub struct Brackets;

impl Part for Brackets {
    type Tree = ();

    ghost sort = { sorts.Brackets };

    ghost view = { λ _. (rules.brackets, mark (mark nil)) };

    #[tactic(auto, using(stan_doc_parts::proofs::Productions::part_enters), unfolding(stan_doc_parts::specs::Gives::whole))]
    fn read<
        W: Fn(Global, &[DocToken], usize, usize) -> Result<(Written, usize), Stop>,
        U: Fn(Global, &[DocToken], usize, usize) -> Result<(Unary, usize), Stop>,
    >(parser: &Parser<'_, W, U>, levels: usize, place: usize) -> Result<((), usize), Stop> {
        enter(levels)?;
        let to = parser.expect(DocKind::LeftBracket, place)?;
        let to = parser.expect(DocKind::RightBracket, to)?;
        Ok(((), to))
    }
}

/// A type behind `&`.
pub struct AndPart;

impl Part for AndPart {
    type Tree = Unary;

    ghost sort = { sorts.AndPart };

    ghost view = { λ x. behind_mark rules.and_part (unary_of x) };

    #[tactic(auto, using(stan_doc_parts::proofs::Productions::part_enters), unfolding(stan_doc_parts::specs::Gives::whole))]
    fn read<
        W: Fn(Global, &[DocToken], usize, usize) -> Result<(Written, usize), Stop>,
        U: Fn(Global, &[DocToken], usize, usize) -> Result<(Unary, usize), Stop>,
    >(parser: &Parser<'_, W, U>, levels: usize, place: usize) -> Result<(Unary, usize), Stop> {
        let levels = enter(levels)?;
        let to = parser.expect(DocKind::Ampersand, place)?;
        let (unary, to) = parser.unary(levels, to)?;
        Ok((unary, to))
    }
}

/// Types with `&` between them.
pub struct BothPart;

impl Part for BothPart {
    type Tree = Intersection;

    ghost sort = { sorts.Both };

    ghost view = { intersection_of };

    #[tactic(auto, using(stan_doc_parts::proofs::Productions::part_enters, crate::proofs::Further::and_parts, stan_doc_trees::proofs::Layers::layers), unfolding(stan_doc_parts::specs::Gives::whole))]
    fn read<
        W: Fn(Global, &[DocToken], usize, usize) -> Result<(Written, usize), Stop>,
        U: Fn(Global, &[DocToken], usize, usize) -> Result<(Unary, usize), Stop>,
    >(
        parser: &Parser<'_, W, U>,
        levels: usize,
        place: usize,
    ) -> Result<(Intersection, usize), Stop> {
        let levels = enter(levels)?;
        let (first, to) = parser.unary(levels, place)?;
        let (more, to) = parser.all::<AndPart>(levels, to)?;
        let types = with_first(parser.alloc, first, more)?;
        Ok((Intersection { types }, to))
    }
}

/// Types behind `|`.
pub struct OrPart;

impl Part for OrPart {
    type Tree = Intersection;

    ghost sort = { sorts.OrPart };

    ghost view = { λ x. behind_mark rules.or_part (intersection_of x) };

    #[tactic(auto, using(stan_doc_parts::proofs::Productions::part_enters), unfolding(stan_doc_parts::specs::Gives::whole))]
    fn read<
        W: Fn(Global, &[DocToken], usize, usize) -> Result<(Written, usize), Stop>,
        U: Fn(Global, &[DocToken], usize, usize) -> Result<(Unary, usize), Stop>,
    >(
        parser: &Parser<'_, W, U>,
        levels: usize,
        place: usize,
    ) -> Result<(Intersection, usize), Stop> {
        let levels = enter(levels)?;
        let to = parser.expect(DocKind::Bar, place)?;
        let (intersection, to) = BothPart::read(parser, levels, to)?;
        Ok((intersection, to))
    }
}

/// Types with `|` between them.
pub struct AltPart;

impl Part for AltPart {
    type Tree = Items<Intersection>;

    ghost sort = { sorts.Alt };

    ghost view = { λ xs. (rules.alt, listed rules.or_part (map intersection_of xs) nil) };

    #[tactic(auto, using(stan_doc_parts::proofs::Productions::part_enters, crate::proofs::Further::or_parts), unfolding(stan_doc_parts::specs::Gives::whole))]
    fn read<
        W: Fn(Global, &[DocToken], usize, usize) -> Result<(Written, usize), Stop>,
        U: Fn(Global, &[DocToken], usize, usize) -> Result<(Unary, usize), Stop>,
    >(
        parser: &Parser<'_, W, U>,
        levels: usize,
        place: usize,
    ) -> Result<(Items<Intersection>, usize), Stop> {
        let levels = enter(levels)?;
        let (first, to) = BothPart::read(parser, levels, place)?;
        let (more, to) = parser.all::<OrPart>(levels, to)?;
        let types = with_first(parser.alloc, first, more)?;
        Ok((types, to))
    }
}

/// A type that is no condition.
#[tactic(auto, using(stan_doc_trees::proofs::Layers::layers), unfolding(stan_doc_parts::specs::Gives::whole))]
pub fn plain_type<
    W: Fn(Global, &[DocToken], usize, usize) -> Result<(Written, usize), Stop>,
    U: Fn(Global, &[DocToken], usize, usize) -> Result<(Unary, usize), Stop>,
>(parser: &Parser<'_, W, U>, levels: usize, place: usize) -> Result<(Written, usize), Stop>
    requires nests { Nests parser.now.levels (W.pre parser.now.read_written) (W.post parser.now.read_written) (U.pre parser.now.read_unary) (U.post parser.now.read_unary) }
    requires room { levels ≤ parser.now.levels + 1 }
    ensures { Gives (at written_of) result (spec.whole parser.now.tokens.now levels rules.plain_type place) }
{
    let levels = enter(levels)?;
    let (types, to) = AltPart::read(parser, levels, place)?;
    Ok((Written::Union(types), to))
}

// A type behind `?`.
#[tactic(auto, using(stan_doc_trees::proofs::Layers::layers), unfolding(stan_doc_parts::specs::Gives::whole))]
fn nullable<
    W: Fn(Global, &[DocToken], usize, usize) -> Result<(Written, usize), Stop>,
    U: Fn(Global, &[DocToken], usize, usize) -> Result<(Unary, usize), Stop>,
>(parser: &Parser<'_, W, U>, levels: usize, place: usize) -> Result<(Unary, usize), Stop>
    requires nests { Nests parser.now.levels (W.pre parser.now.read_written) (W.post parser.now.read_written) (U.pre parser.now.read_unary) (U.post parser.now.read_unary) }
    requires room { levels ≤ parser.now.levels + 1 }
    ensures { Gives (at unary_of) result (spec.whole parser.now.tokens.now levels rules.nullable place) }
{
    let levels = enter(levels)?;
    let to = parser.expect(DocKind::Question, place)?;
    let (unary, to) = parser.unary(levels, to)?;
    Ok((Unary::Nullable(Boxed::new(parser.alloc, unary)?), to))
}

// An atom and its `[]`.
#[tactic(auto, using(stan_doc_trees::proofs::Layers::layers, crate::proofs::Arrays::arrays_are), unfolding(stan_doc_parts::specs::Gives::whole))]
fn suffixed<
    W: Fn(Global, &[DocToken], usize, usize) -> Result<(Written, usize), Stop>,
    U: Fn(Global, &[DocToken], usize, usize) -> Result<(Unary, usize), Stop>,
>(parser: &Parser<'_, W, U>, levels: usize, place: usize) -> Result<(Unary, usize), Stop>
    requires nests { Nests parser.now.levels (W.pre parser.now.read_written) (W.post parser.now.read_written) (U.pre parser.now.read_unary) (U.post parser.now.read_unary) }
    requires room { levels ≤ parser.now.levels + 1 }
    ensures { Gives (at unary_of) result (spec.whole parser.now.tokens.now levels rules.suffixed place) }
{
    let levels = enter(levels)?;
    let (atom, to) = AtomPart::read(parser, levels, place)?;
    let (brackets, to) = parser.all::<Brackets>(levels, to)?;
    let arrays = brackets.len();
    Ok((Unary::Suffixed { atom, arrays }, to))
}

/// A type without `|` and `&`.
#[tactic(auto, using(stan_doc_parts::proofs::Productions::part_first))]
pub fn unary_at<
    W: Fn(Global, &[DocToken], usize, usize) -> Result<(Written, usize), Stop>,
    U: Fn(Global, &[DocToken], usize, usize) -> Result<(Unary, usize), Stop>,
>(parser: &Parser<'_, W, U>, levels: usize, place: usize) -> Result<(Unary, usize), Stop>
    requires nests { Nests parser.now.levels (W.pre parser.now.read_written) (W.post parser.now.read_written) (U.pre parser.now.read_unary) (U.post parser.now.read_unary) }
    requires room { levels ≤ parser.now.levels + 1 }
    ensures { Gives (at unary_of) result (spec.part parser.now.tokens.now levels sorts.Unary place) }
{
    match nullable(parser, levels, place) {
        Ok(found) => Ok(found),
        Err(Stop::Memory) => Err(Stop::Memory),
        Err(Stop::Absent) => suffixed(parser, levels, place),
    }
}
