//! Fields of a shape.

ghost use Rattle.std.specs.Prelude.{◌≤◌, map};
ghost use Rattle.stan_model_doc.specs.Rules as rules;
ghost use Rattle.stan_model_doc.specs.Symbols as sorts;
ghost use Rattle.stan_model_doc.specs.Trees.{nil, mark};
ghost use Rattle.stan_places.specs.Gives.{Gives, at};
ghost use Rattle.stan_doc_descent.specs.Parse.{standing};
ghost use Rattle.stan_doc_trees.specs.Tree.{behind_mark, further, flagged, field_of};
ghost use Rattle.stan_doc_parts.specs.Gives as spec;
ghost use Rattle.stan_doc_parts.specs.Nests.{Nests};

use sqlite_items::Items;
use stan_doc_parts::parser::{Parser, Part};
use stan_doc_parts::places::enter;
use stan_doc_parts::words::Keys;
use stan_doc_trees::{Field, Key, Unary, Written};
use stan_model_doc::token::{DocKind, DocToken};
use stan_places::stop::Stop;
use std::alloc::Global;

/// The `?` of a key.
pub struct QuestionMark;

impl Part for QuestionMark {
    type Tree = ();

    ghost sort = { sorts.QuestionMark };

    ghost view = { λ _. (rules.question_mark, mark nil) };

    #[tactic(auto, using(stan_doc_parts::proofs::Productions::part_enters), unfolding(stan_doc_parts::specs::Gives::whole))]
    fn read<
        W: Fn(Global, &[DocToken], usize, usize) -> Result<(Written, usize), Stop>,
        U: Fn(Global, &[DocToken], usize, usize) -> Result<(Unary, usize), Stop>,
    >(parser: &Parser<'_, W, U>, levels: usize, place: usize) -> Result<((), usize), Stop> {
        enter(levels)?;
        let to = parser.expect(DocKind::Question, place)?;
        Ok(((), to))
    }
}

/// The `,` behind the last field.
pub struct LastComma;

impl Part for LastComma {
    type Tree = ();

    ghost sort = { sorts.LastComma };

    ghost view = { λ _. (rules.last_comma, mark nil) };

    #[tactic(auto, using(stan_doc_parts::proofs::Productions::part_enters), unfolding(stan_doc_parts::specs::Gives::whole))]
    fn read<
        W: Fn(Global, &[DocToken], usize, usize) -> Result<(Written, usize), Stop>,
        U: Fn(Global, &[DocToken], usize, usize) -> Result<(Unary, usize), Stop>,
    >(parser: &Parser<'_, W, U>, levels: usize, place: usize) -> Result<((), usize), Stop> {
        enter(levels)?;
        let to = parser.expect(DocKind::Comma, place)?;
        Ok(((), to))
    }
}

// A type behind a key.
#[tactic(auto, using(stan_doc_trees::proofs::Layers::layers), unfolding(stan_doc_parts::specs::Gives::whole))]
fn keyed<
    W: Fn(Global, &[DocToken], usize, usize) -> Result<(Written, usize), Stop>,
    U: Fn(Global, &[DocToken], usize, usize) -> Result<(Unary, usize), Stop>,
>(parser: &Parser<'_, W, U>, levels: usize, place: usize) -> Result<(Field, usize), Stop>
    requires nests { Nests parser.now.levels (W.pre parser.now.read_written) (W.post parser.now.read_written) (U.pre parser.now.read_unary) (U.post parser.now.read_unary) }
    requires room { levels ≤ parser.now.levels }
    ensures { Gives (at field_of) result (spec.whole parser.now.tokens.now levels rules.keyed place) }
{
    let levels = enter(levels)?;
    let (name, to) = parser.word::<Keys>(place)?;
    let (question, to) = parser.maybe::<QuestionMark>(levels, to)?;
    let to = parser.expect(DocKind::Colon, to)?;
    let (value, to) = parser.written(levels, to)?;
    let is_optional = match question {
        None => false,
        Some(()) => true,
    };
    let key = Some(Key { name, is_optional });
    Ok((Field { key, value }, to))
}

// A type alone.
#[tactic(auto, using(stan_doc_trees::proofs::Layers::layers), unfolding(stan_doc_parts::specs::Gives::whole))]
fn plain_field<
    W: Fn(Global, &[DocToken], usize, usize) -> Result<(Written, usize), Stop>,
    U: Fn(Global, &[DocToken], usize, usize) -> Result<(Unary, usize), Stop>,
>(parser: &Parser<'_, W, U>, levels: usize, place: usize) -> Result<(Field, usize), Stop>
    requires nests { Nests parser.now.levels (W.pre parser.now.read_written) (W.post parser.now.read_written) (U.pre parser.now.read_unary) (U.post parser.now.read_unary) }
    requires room { levels ≤ parser.now.levels }
    ensures { Gives (at field_of) result (spec.whole parser.now.tokens.now levels rules.plain_field place) }
{
    let levels = enter(levels)?;
    let (value, to) = parser.written(levels, place)?;
    let key = None;
    Ok((Field { key, value }, to))
}

/// A field.
pub struct FieldPart;

impl Part for FieldPart {
    type Tree = Field;

    ghost sort = { sorts.Field };

    ghost view = { field_of };

    #[tactic(auto, using(stan_doc_parts::proofs::Productions::part_first))]
    fn read<
        W: Fn(Global, &[DocToken], usize, usize) -> Result<(Written, usize), Stop>,
        U: Fn(Global, &[DocToken], usize, usize) -> Result<(Unary, usize), Stop>,
    >(parser: &Parser<'_, W, U>, levels: usize, place: usize) -> Result<(Field, usize), Stop> {
        match keyed(parser, levels, place) {
            Ok(found) => Ok(found),
            Err(Stop::Memory) => Err(Stop::Memory),
            Err(Stop::Absent) => plain_field(parser, levels, place),
        }
    }
}

/// A further field.
pub struct FurtherField;

impl Part for FurtherField {
    type Tree = Field;

    ghost sort = { sorts.FurtherField };

    ghost view = { λ x. behind_mark rules.further_field (field_of x) };

    #[tactic(auto, using(stan_doc_parts::proofs::Productions::part_enters), unfolding(stan_doc_parts::specs::Gives::whole))]
    fn read<
        W: Fn(Global, &[DocToken], usize, usize) -> Result<(Written, usize), Stop>,
        U: Fn(Global, &[DocToken], usize, usize) -> Result<(Unary, usize), Stop>,
    >(parser: &Parser<'_, W, U>, levels: usize, place: usize) -> Result<(Field, usize), Stop> {
        let levels = enter(levels)?;
        let to = parser.expect(DocKind::Comma, place)?;
        let (field, to) = FieldPart::read(parser, levels, to)?;
        Ok((field, to))
    }
}

/// Fields: the first, the further ones, and whether a `,` stands behind the last.
pub struct Fields;

impl Part for Fields {
    type Tree = (Field, Items<Field>, bool);

    ghost sort = { sorts.Fields };

    ghost view = { λ x. (rules.fields, standing (field_of x.0) (further rules.further_field (map field_of x.1) (flagged rules.last_comma x.2 nil))) };

    #[tactic(auto, using(stan_doc_parts::proofs::Productions::part_enters, crate::proofs::Further::further_fields), unfolding(stan_doc_parts::specs::Gives::whole))]
    fn read<
        W: Fn(Global, &[DocToken], usize, usize) -> Result<(Written, usize), Stop>,
        U: Fn(Global, &[DocToken], usize, usize) -> Result<(Unary, usize), Stop>,
    >(
        parser: &Parser<'_, W, U>,
        levels: usize,
        place: usize,
    ) -> Result<((Field, Items<Field>, bool), usize), Stop> {
        let levels = enter(levels)?;
        let (first, to) = FieldPart::read(parser, levels, place)?;
        let (more, to) = parser.all::<FurtherField>(levels, to)?;
        let (comma, to) = parser.maybe::<LastComma>(levels, to)?;
        match comma {
            None => Ok(((first, more, false), to)),
            Some(()) => Ok(((first, more, true), to)),
        }
    }
}
