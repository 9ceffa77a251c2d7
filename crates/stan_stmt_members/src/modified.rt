//! Modifiers of members, and what may stand behind them.

ghost use Rattle.std.specs.Prelude.{◌≡◌, ◌≤◌, ◌&&◌, not, option_map};
ghost use Rattle.stan_model_grammar.specs.declared.token.TokenKind.TheVariants as kinds;
ghost use Rattle.stan_model_statements.specs.Kinds as words;
ghost use Rattle.stan_model_statements.specs.Rules as rules;
ghost use Rattle.stan_model_statements.specs.Symbols as sorts;
ghost use Rattle.stan_places.specs.Gives.{Gives, at};
ghost use Rattle.stan_stmt_items.specs.Views as items;
ghost use Rattle.stan_stmt_members.specs.Views as views;
ghost use Rattle.stan_stmt_parts.specs.Gives as spec;
ghost use Rattle.stan_stmt_rules.specs.Ahead as ahead;

use crate::fields::{ClassConstants, Properties, PropertiesTree};
use crate::methods::{Method, MethodTree};
use sqlite_items::Items;
use stan_model_grammar::token::{Token, TokenKind};
use stan_places::places::{kind_at, next_kind};
use stan_places::stop::Stop;
use stan_stmt_ahead::kinds::is_modifier;
use stan_stmt_parts::depth::{Depth, enter};
use stan_stmt_parts::parser::{Parser, Part, Reader};
use stan_stmt_trees::{Constant as ConstantTree, Member};

/// Whether the first of these is a modifier: before `|` it is a type.
#[tactic(auto, unfolding(stan_model_statements::specs::Kinds::same_kind))]
pub fn modifies(first: TokenKind, second: TokenKind) -> bool
    ensures { result ≡ (words.has words.modifiers first && not (words.same_kind second kinds.Bar)) }
{
    is_modifier(first) && second != TokenKind::Bar
}

/// A modifier of a member.
pub struct Modifier;

impl Part for Modifier {
    type Tree = Token;

    ghost sort = { sorts.Modifier };

    ghost view = { items.of_word rules.member_modifier };

    #[tactic(auto, unfolding(stan_stmt_rules::specs::Ahead::pick_at))]
    fn begins(tokens: &[Token], place: usize) -> bool {
        modifies(kind_at(tokens, place), next_kind(tokens, place))
    }

    #[tactic(auto, using(stan_stmt_parts::proofs::Turns::part_picked), unfolding(stan_stmt_parts::specs::Gives::entered, stan_stmt_parts::specs::Gives::inside, stan_stmt_parts::specs::Parse::first_at, stan_stmt_rules::specs::Ahead::pick_at))]
    fn read<R: Reader>(
        parser: &Parser<'_, R>,
        depth: Depth,
        place: usize,
    ) -> Result<(Token, usize), Stop> {
        if !modifies(
            kind_at(parser.tokens, place),
            next_kind(parser.tokens, place),
        ) {
            return Err(Stop::Absent);
        }
        let _depth = enter(depth, 0)?;
        let (modifier, to) = parser.modifier(place)?;
        Ok((modifier, to))
    }
}

/// What stands behind modifiers, one variant a production.
#[derive(Drop)]
pub enum ModifiedTree {
    /// At least one.
    Constants(Items<ConstantTree>),
    Method(MethodTree),
    Properties(PropertiesTree),
}

/// The member that has these modifiers.
pub fn with_modifiers(modifiers: Items<Token>, modified: ModifiedTree) -> Member
    ensures { result ≡ views.with_modifiers modifiers modified }
{
    match modified {
        ModifiedTree::Constants(constants) => Member::Constants {
            modifiers,
            constants,
        },
        ModifiedTree::Method(method) => {
            let MethodTree {
                by_reference,
                name,
                parameters,
                comma,
                result,
                body,
            } = method;
            Member::Method {
                modifiers,
                by_reference,
                name,
                parameters,
                comma,
                result,
                body,
            }
        }
        ModifiedTree::Properties(properties) => {
            let PropertiesTree {
                declared,
                variables,
            } = properties;
            Member::Properties {
                modifiers,
                declared,
                variables,
            }
        }
    }
}

/// The productions of what stands behind modifiers.
#[derive(Clone, Copy, Debug)]
pub enum ModifiedRule {
    Constants,
    Method,
    Properties,
}

/// The production of what stands behind modifiers, by the kinds of its next two tokens. A `static` that is no modifier begins a type.
#[tactic(auto, unfolding(stan_model_statements::specs::Kinds::same_kind))]
pub fn pick_modified(first: TokenKind, second: TokenKind) -> Option<ModifiedRule>
    ensures { option_map views.modified_rule result ≡ ahead.static_by first second rules.modified_properties ahead.modified_choices }
{
    match first {
        TokenKind::Static => {
            if second == TokenKind::Bar {
                Some(ModifiedRule::Properties)
            } else {
                None
            }
        }
        TokenKind::Const => Some(ModifiedRule::Constants),
        TokenKind::Function => Some(ModifiedRule::Method),
        TokenKind::Question => Some(ModifiedRule::Properties),
        TokenKind::Variable => Some(ModifiedRule::Properties),
        TokenKind::Identifier => Some(ModifiedRule::Properties),
        TokenKind::QualifiedName => Some(ModifiedRule::Properties),
        TokenKind::FullyQualifiedName => Some(ModifiedRule::Properties),
        TokenKind::RelativeName => Some(ModifiedRule::Properties),
        TokenKind::Array => Some(ModifiedRule::Properties),
        TokenKind::Callable => Some(ModifiedRule::Properties),
        _ => None,
    }
}

/// Constants, a method or properties behind modifiers.
pub struct Modified;

impl Part for Modified {
    type Tree = ModifiedTree;

    ghost sort = { sorts.Modified };

    ghost view = { views.modified_piece };

    #[tactic(auto, unfolding(stan_stmt_rules::specs::Ahead::pick_at))]
    fn begins(tokens: &[Token], place: usize) -> bool {
        pick_modified(kind_at(tokens, place), next_kind(tokens, place)).is_some()
    }

    #[tactic(auto, using(stan_stmt_parts::proofs::Turns::part_picked), unfolding(stan_stmt_rules::specs::Ahead::pick_at))]
    fn read<R: Reader>(
        parser: &Parser<'_, R>,
        depth: Depth,
        place: usize,
    ) -> Result<(ModifiedTree, usize), Stop> {
        let first = kind_at(parser.tokens, place);
        match pick_modified(first, next_kind(parser.tokens, place)) {
            Some(ModifiedRule::Constants) => modified_constants(parser, depth, place),
            Some(ModifiedRule::Method) => modified_method(parser, depth, place),
            Some(ModifiedRule::Properties) => modified_properties(parser, depth, place),
            None => Err(Stop::Absent),
        }
    }
}

#[tactic(auto, unfolding(stan_stmt_parts::specs::Gives::entered, stan_stmt_parts::specs::Gives::inside, stan_stmt_parts::specs::Parse::first_at))]
fn modified_constants<R: Reader>(
    parser: &Parser<'_, R>,
    depth: Depth,
    place: usize,
) -> Result<(ModifiedTree, usize), Stop>
    requires room { depth.room ≤ R.room parser.now.reader }
    requires ready { R.ready parser.now.reader }
    ensures { Gives (at views.modified_piece) result (spec.entered parser.now.tokens.now (R.leaves parser.now.reader) depth rules.modified_constants place) }
{
    let depth = enter(depth, 0)?;
    let (constants, to) = ClassConstants::read(parser, depth, place)?;
    Ok((ModifiedTree::Constants(constants), to))
}

#[tactic(auto, unfolding(stan_stmt_parts::specs::Gives::entered, stan_stmt_parts::specs::Gives::inside, stan_stmt_parts::specs::Parse::first_at))]
fn modified_method<R: Reader>(
    parser: &Parser<'_, R>,
    depth: Depth,
    place: usize,
) -> Result<(ModifiedTree, usize), Stop>
    requires room { depth.room ≤ R.room parser.now.reader }
    requires ready { R.ready parser.now.reader }
    ensures { Gives (at views.modified_piece) result (spec.entered parser.now.tokens.now (R.leaves parser.now.reader) depth rules.modified_method place) }
{
    let depth = enter(depth, 0)?;
    let (method, to) = Method::read(parser, depth, place)?;
    Ok((ModifiedTree::Method(method), to))
}

#[tactic(auto, unfolding(stan_stmt_parts::specs::Gives::entered, stan_stmt_parts::specs::Gives::inside, stan_stmt_parts::specs::Parse::first_at))]
fn modified_properties<R: Reader>(
    parser: &Parser<'_, R>,
    depth: Depth,
    place: usize,
) -> Result<(ModifiedTree, usize), Stop>
    requires room { depth.room ≤ R.room parser.now.reader }
    requires ready { R.ready parser.now.reader }
    ensures { Gives (at views.modified_piece) result (spec.entered parser.now.tokens.now (R.leaves parser.now.reader) depth rules.modified_properties place) }
{
    let depth = enter(depth, 0)?;
    let (properties, to) = Properties::read(parser, depth, place)?;
    Ok((ModifiedTree::Properties(properties), to))
}
