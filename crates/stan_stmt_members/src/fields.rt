//! Constants and properties of classes.

ghost use Rattle.std.specs.Prelude.{◌≡◌};
ghost use Rattle.stan_model_statements.specs.Kinds.{has};
ghost use Rattle.stan_model_statements.specs.Symbols as sorts;
ghost use Rattle.stan_stmt_members.specs.Views as views;
ghost use Rattle.stan_stmt_rules.specs.Ahead as ahead;

use sqlite_items::Items;
use stan_model_grammar::token::{Token, TokenKind};
use stan_places::places::kind_at;
use stan_places::stop::Stop;
use stan_stmt_ahead::kinds::is_type_name;
use stan_stmt_items::constants::{ClassConstant, Declared, FurtherClassConstant, FurtherDeclared};
use stan_stmt_parts::depth::{Depth, enter};
use stan_stmt_parts::parser::{Parser, Part, Reader, stands, with_first};
use stan_stmt_trees::{Constant as ConstantTree, Variable};
use stan_stmt_types::properties::PropertyType;
use stan_syntax::TypeTree;

/// At least one constant of a class.
pub struct ClassConstants;

impl Part for ClassConstants {
    type Tree = Items<ConstantTree>;

    ghost sort = { sorts.ClassConstants };

    ghost view = { views.class_constants_piece };

    #[tactic(auto, unfolding(stan_stmt_rules::specs::Ahead::pick_at, stan_model_statements::specs::Kinds::same_kind))]
    fn begins(tokens: &[Token], place: usize) -> bool {
        stands(tokens, TokenKind::Const, place)
    }

    #[tactic(auto, using(stan_stmt_parts::proofs::Singles::part_enters, crate::proofs::FieldLemmas::class_constants_are), unfolding(stan_stmt_parts::specs::Gives::entered, stan_stmt_parts::specs::Gives::inside, stan_stmt_parts::specs::Parse::first_at, stan_model_statements::specs::Kinds::same_kind))]
    fn read<R: Reader>(
        parser: &Parser<'_, R>,
        depth: Depth,
        place: usize,
    ) -> Result<(Items<ConstantTree>, usize), Stop> {
        let depth = enter(depth, 0)?;
        let to = parser.expect(TokenKind::Const, place)?;
        let (first, to) = ClassConstant::read(parser, depth, to)?;
        let (more, to) = parser.all::<FurtherClassConstant>(depth, to)?;
        let to = parser.expect(TokenKind::Semicolon, to)?;
        let constants = with_first(parser.alloc, first, more)?;
        Ok((constants, to))
    }
}

/// Properties without their modifiers.
#[derive(Drop)]
pub struct PropertiesTree {
    pub declared: Option<TypeTree>,
    /// At least one.
    pub variables: Items<Variable>,
}

/// Whether it can begin properties.
#[tactic(auto, unfolding(stan_model_statements::specs::Kinds::same_kind))]
pub fn begins_properties(kind: TokenKind) -> bool
    ensures { result ≡ has (ahead.begins sorts.Properties) kind }
{
    match kind {
        TokenKind::Question => true,
        TokenKind::Variable => true,
        kind => is_type_name(kind),
    }
}

/// At least one property.
pub struct Properties;

impl Part for Properties {
    type Tree = PropertiesTree;

    ghost sort = { sorts.Properties };

    ghost view = { views.properties_piece };

    #[tactic(auto, unfolding(stan_stmt_rules::specs::Ahead::pick_at))]
    fn begins(tokens: &[Token], place: usize) -> bool {
        begins_properties(kind_at(tokens, place))
    }

    #[tactic(auto, using(stan_stmt_parts::proofs::Singles::part_if, crate::proofs::FieldLemmas::properties_are), unfolding(stan_stmt_parts::specs::Gives::entered, stan_stmt_parts::specs::Gives::inside, stan_stmt_parts::specs::Parse::first_at))]
    fn read<R: Reader>(
        parser: &Parser<'_, R>,
        depth: Depth,
        place: usize,
    ) -> Result<(PropertiesTree, usize), Stop> {
        if !begins_properties(kind_at(parser.tokens, place)) {
            return Err(Stop::Absent);
        }
        let depth = enter(depth, 0)?;
        let (declared, to) = parser.maybe::<PropertyType>(depth, place)?;
        let (first, to) = Declared::read(parser, depth, to)?;
        let (more, to) = parser.all::<FurtherDeclared>(depth, to)?;
        let to = parser.expect(TokenKind::Semicolon, to)?;
        let variables = with_first(parser.alloc, first, more)?;
        let properties = PropertiesTree {
            declared,
            variables,
        };
        Ok((properties, to))
    }
}
