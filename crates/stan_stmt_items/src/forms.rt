//! Parts of a few forms: a mark, a word, and what stands behind a mark. Each form is read, and proved, once for all parts that have it. A part
//! names its sort and its tokens, and that it has the form.

ghost use Rattle.std.specs.Prelude.{◌≡◌, ◌∷◌, [], List, false};
ghost use Rattle.stan_model_grammar.specs.declared.token.TokenKind.{TokenKind};
ghost use Rattle.stan_model_grammar.specs.declared.token.TokenKind.TheVariants as kinds;
ghost use Rattle.stan_model_statements.specs.Symbols as sorts;
ghost use Rattle.stan_stmt_items.specs.Forms.{HasForm};
ghost use Rattle.stan_stmt_items.specs.Views as views;
ghost use Rattle.stan_stmt_rules.specs.Ahead.{single};

use stan_model_grammar::token::{Token, TokenKind};
use stan_places::places::kind_at;
use stan_places::stop::Stop;
use stan_stmt_parts::depth::{Depth, enter};
use stan_stmt_parts::parser::{Parser, Part, Reader, Words, stands};
use stan_stmt_trees::{Constant, Value};
use std::marker::PhantomData;

/// A part that is one mark.
pub trait MarkForm {
    ghost sort: { sorts.Sort };

    ghost mark: { TokenKind };

    fn mark() -> TokenKind
        ensures { result ≡ mark };

    ghost form: { HasForm sort (mark ∷ []) (sorts.Mark mark ∷ []) };
}

/// Reads one mark.
pub struct OneMark<F>(PhantomData<F>);

impl<F: MarkForm> Part for OneMark<F> {
    type Tree = ();

    ghost sort = { F.sort };

    ghost view = { λ _. views.of_mark (single F.sort) };

    fn begins(tokens: &[Token], place: usize) -> bool {
        stands(tokens, F::mark(), place)
    }

    fn read<R: Reader>(
        parser: &Parser<'_, R>,
        depth: Depth,
        place: usize,
    ) -> Result<((), usize), Stop> {
        let _depth = enter(depth, 0)?;
        let to = parser.expect(F::mark(), place)?;
        Ok(((), to))
    }
}

/// A part that is one word.
pub trait WordForm {
    type Words: Words;

    ghost sort: { sorts.Sort };

    ghost form: { HasForm sort Self.Words.kinds (sorts.Word Self.Words.kinds ∷ []) };
}

/// Reads one word.
pub struct OneWord<F>(PhantomData<F>);

impl<F: WordForm> Part for OneWord<F> {
    type Tree = Token;

    ghost sort = { F.sort };

    ghost view = { views.of_word (single F.sort) };

    fn begins(tokens: &[Token], place: usize) -> bool {
        <F::Words as Words>::include(kind_at(tokens, place))
    }

    fn read<R: Reader>(
        parser: &Parser<'_, R>,
        depth: Depth,
        place: usize,
    ) -> Result<(Token, usize), Stop> {
        let _depth = enter(depth, 0)?;
        let (token, to) = parser.word::<F::Words>(place)?;
        Ok((token, to))
    }
}

/// A part that is a word behind a mark.
pub trait MarkedWordForm {
    type Words: Words;

    ghost sort: { sorts.Sort };

    ghost mark: { TokenKind };

    fn mark() -> TokenKind
        ensures { result ≡ mark };

    ghost form: { HasForm sort (mark ∷ []) (sorts.Mark mark ∷ sorts.Word Self.Words.kinds ∷ []) };
}

/// Reads a word behind a mark.
pub struct MarkedWord<F>(PhantomData<F>);

impl<F: MarkedWordForm> Part for MarkedWord<F> {
    type Tree = Token;

    ghost sort = { F.sort };

    ghost view = { views.behind_mark (single F.sort) };

    fn begins(tokens: &[Token], place: usize) -> bool {
        stands(tokens, F::mark(), place)
    }

    fn read<R: Reader>(
        parser: &Parser<'_, R>,
        depth: Depth,
        place: usize,
    ) -> Result<(Token, usize), Stop> {
        let _depth = enter(depth, 0)?;
        let to = parser.expect(F::mark(), place)?;
        let (token, to) = parser.word::<F::Words>(to)?;
        Ok((token, to))
    }
}

/// A part that is an expression behind a mark.
pub trait MarkedValueForm {
    ghost sort: { sorts.Sort };

    ghost mark: { TokenKind };

    fn mark() -> TokenKind
        ensures { result ≡ mark };

    ghost form: { HasForm sort (mark ∷ []) (sorts.Mark mark ∷ sorts.Expression false ∷ []) };
}

/// Reads an expression behind a mark.
pub struct MarkedValue<F>(PhantomData<F>);

impl<F: MarkedValueForm> Part for MarkedValue<F> {
    type Tree = Value;

    ghost sort = { F.sort };

    ghost view = { views.value_behind (single F.sort) };

    fn begins(tokens: &[Token], place: usize) -> bool {
        stands(tokens, F::mark(), place)
    }

    fn read<R: Reader>(
        parser: &Parser<'_, R>,
        depth: Depth,
        place: usize,
    ) -> Result<(Value, usize), Stop> {
        let depth = enter(depth, 0)?;
        let to = parser.expect(F::mark(), place)?;
        let (value, to) = parser.value(depth, false, to)?;
        Ok((value, to))
    }
}

/// A part that is another part behind a mark.
pub trait MarkedPartForm {
    type Inner: Part;

    ghost sort: { sorts.Sort };

    ghost mark: { TokenKind };

    fn mark() -> TokenKind
        ensures { result ≡ mark };

    ghost form: { HasForm sort (mark ∷ []) (sorts.Mark mark ∷ sorts.Part sorts.One Self.Inner.sort ∷ []) };
}

/// Reads a part behind a mark.
pub struct MarkedPart<F>(PhantomData<F>);

impl<F: MarkedPartForm> Part for MarkedPart<F> {
    type Tree = <F::Inner as Part>::Tree;

    ghost sort = { F.sort };

    ghost view = { λ x. views.part_behind (single F.sort) (F.Inner.view x) };

    fn begins(tokens: &[Token], place: usize) -> bool {
        stands(tokens, F::mark(), place)
    }

    fn read<R: Reader>(
        parser: &Parser<'_, R>,
        depth: Depth,
        place: usize,
    ) -> Result<(<F::Inner as Part>::Tree, usize), Stop> {
        let depth = enter(depth, 0)?;
        let to = parser.expect(F::mark(), place)?;
        let (part, to) = <F::Inner as Part>::read(parser, depth, to)?;
        Ok((part, to))
    }
}

/// A part that is a name with its value behind a `=`.
pub trait NamedValueForm {
    type Words: Words;

    ghost sort: { sorts.Sort };

    ghost form: { HasForm sort Self.Words.kinds (sorts.Word Self.Words.kinds ∷ sorts.Mark kinds.Assign ∷ sorts.Expression false ∷ []) };
}

/// Reads a name with its value.
pub struct NamedValue<F>(PhantomData<F>);

impl<F: NamedValueForm> Part for NamedValue<F> {
    type Tree = Constant;

    ghost sort = { F.sort };

    ghost view = { views.constant_piece (single F.sort) };

    fn begins(tokens: &[Token], place: usize) -> bool {
        <F::Words as Words>::include(kind_at(tokens, place))
    }

    fn read<R: Reader>(
        parser: &Parser<'_, R>,
        depth: Depth,
        place: usize,
    ) -> Result<(Constant, usize), Stop> {
        let depth = enter(depth, 0)?;
        let (name, to) = parser.word::<F::Words>(place)?;
        let to = parser.expect(TokenKind::Assign, to)?;
        let (value, to) = parser.value(depth, false, to)?;
        Ok((Constant { name, value }, to))
    }
}
