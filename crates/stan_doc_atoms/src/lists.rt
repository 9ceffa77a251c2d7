//! Types between `<` and `>`, and the type behind the `:` of a callable.

ghost use Rattle.std.specs.Prelude.{map};
ghost use Rattle.stan_model_doc.specs.Rules as rules;
ghost use Rattle.stan_model_doc.specs.Symbols as sorts;
ghost use Rattle.stan_model_doc.specs.Trees.{nil, mark};
ghost use Rattle.stan_doc_descent.specs.Parse.{standing};
ghost use Rattle.stan_doc_trees.specs.Tree.{behind_mark, further, written_of, unary_of};

use sqlite_items::Items;
use stan_doc_parts::parser::{Parser, Part};
use stan_doc_parts::places::enter;
use stan_doc_trees::{Unary, Written};
use stan_model_doc::token::{DocKind, DocToken};
use stan_places::stop::Stop;
use std::alloc::Global;

/// A further type of a list.
pub struct FurtherType;

impl Part for FurtherType {
    type Tree = Written;

    ghost sort = { sorts.FurtherType };

    ghost view = { λ x. behind_mark rules.further_type (written_of x) };

    #[tactic(auto, using(stan_doc_parts::proofs::Productions::part_enters), unfolding(stan_doc_parts::specs::Gives::whole))]
    fn read<
        W: Fn(Global, &[DocToken], usize, usize) -> Result<(Written, usize), Stop>,
        U: Fn(Global, &[DocToken], usize, usize) -> Result<(Unary, usize), Stop>,
    >(parser: &Parser<'_, W, U>, levels: usize, place: usize) -> Result<(Written, usize), Stop> {
        let levels = enter(levels)?;
        let to = parser.expect(DocKind::Comma, place)?;
        let (written, to) = parser.written(levels, to)?;
        Ok((written, to))
    }
}

/// Types between `<` and `>`: the first, and the further ones.
pub struct Arguments;

impl Part for Arguments {
    type Tree = (Written, Items<Written>);

    ghost sort = { sorts.Arguments };

    ghost view = { λ x. (rules.arguments, mark (standing (written_of x.0) (further rules.further_type (map written_of x.1) (mark nil)))) };

    #[tactic(auto, using(stan_doc_parts::proofs::Productions::part_enters, crate::proofs::Further::further_types), unfolding(stan_doc_parts::specs::Gives::whole))]
    fn read<
        W: Fn(Global, &[DocToken], usize, usize) -> Result<(Written, usize), Stop>,
        U: Fn(Global, &[DocToken], usize, usize) -> Result<(Unary, usize), Stop>,
    >(
        parser: &Parser<'_, W, U>,
        levels: usize,
        place: usize,
    ) -> Result<((Written, Items<Written>), usize), Stop> {
        let levels = enter(levels)?;
        let to = parser.expect(DocKind::Below, place)?;
        let (first, to) = parser.written(levels, to)?;
        let (more, to) = parser.all::<FurtherType>(levels, to)?;
        let to = parser.expect(DocKind::Above, to)?;
        Ok(((first, more), to))
    }
}

/// The type behind the `:` of a callable.
pub struct ResultType;

impl Part for ResultType {
    type Tree = Unary;

    ghost sort = { sorts.Result };

    ghost view = { λ x. behind_mark rules.result_type (unary_of x) };

    #[tactic(auto, using(stan_doc_parts::proofs::Productions::part_enters), unfolding(stan_doc_parts::specs::Gives::whole))]
    fn read<
        W: Fn(Global, &[DocToken], usize, usize) -> Result<(Written, usize), Stop>,
        U: Fn(Global, &[DocToken], usize, usize) -> Result<(Unary, usize), Stop>,
    >(parser: &Parser<'_, W, U>, levels: usize, place: usize) -> Result<(Unary, usize), Stop> {
        let levels = enter(levels)?;
        let to = parser.expect(DocKind::Colon, place)?;
        let (unary, to) = parser.unary(levels, to)?;
        Ok((unary, to))
    }
}
