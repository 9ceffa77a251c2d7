//! Members, one behind the other in braces.

ghost use Rattle.std.specs.Prelude.{◌≡◌, ◌≤◌, Some, option_map, slice_get};
ghost use Rattle.stan_model_statements.specs.Rules as rules;
ghost use Rattle.stan_model_statements.specs.Symbols as sorts;
ghost use Rattle.stan_places.specs.Gives.{Gives, at};
ghost use Rattle.stan_stmt_members.specs.Views as views;
ghost use Rattle.stan_stmt_parts.specs.Gives as spec;
ghost use Rattle.stan_stmt_rules.specs.Ahead as ahead;

use crate::fields::ClassConstants;
use crate::methods::Method;
use crate::modified::{Modified, ModifiedTree, Modifier, with_modifiers};
use sqlite_items::Items;
use stan_model_grammar::token::{Token, TokenKind};
use stan_places::places::{kind_at, token_at};
use stan_places::stop::Stop;
use stan_stmt_adaptations::adaptations::TraitUseEnd;
use stan_stmt_items::names::Names;
use stan_stmt_parts::depth::{Depth, enter};
use stan_stmt_parts::parser::{Parser, Part, Reader, stands, with_first};
use stan_stmt_trees::{ClassMember, Member as MemberTree};

/// The productions of members.
#[derive(Clone, Copy, Debug)]
pub enum MemberRule {
    TraitUse,
    Constants,
    Method,
    Modified,
}

/// The production of a member, by the kind of its first token.
#[tactic(auto, unfolding(stan_model_statements::specs::Kinds::same_kind))]
pub fn pick_member(kind: TokenKind) -> Option<MemberRule>
    ensures { option_map views.member_rule result ≡ ahead.find ahead.member_choices kind }
{
    match kind {
        TokenKind::Use => Some(MemberRule::TraitUse),
        TokenKind::Const => Some(MemberRule::Constants),
        TokenKind::Function => Some(MemberRule::Method),
        TokenKind::Public => Some(MemberRule::Modified),
        TokenKind::Protected => Some(MemberRule::Modified),
        TokenKind::Private => Some(MemberRule::Modified),
        TokenKind::Static => Some(MemberRule::Modified),
        TokenKind::Abstract => Some(MemberRule::Modified),
        TokenKind::Final => Some(MemberRule::Modified),
        TokenKind::Var => Some(MemberRule::Modified),
        _ => None,
    }
}

// A `use` of traits.
#[tactic(auto, using(crate::proofs::MemberLemmas::trait_use_is), unfolding(stan_stmt_parts::specs::Gives::entered, stan_stmt_parts::specs::Gives::inside, stan_stmt_parts::specs::Parse::first_at, stan_model_statements::specs::Kinds::same_kind))]
fn trait_use<R: Reader>(
    parser: &Parser<'_, R>,
    depth: Depth,
    place: usize,
) -> Result<(ClassMember, usize), Stop>
    requires room { depth.room ≤ R.room parser.now.reader }
    requires ready { R.ready parser.now.reader }
    ensures { Gives (at views.member_piece) result (spec.entered parser.now.tokens.now (R.leaves parser.now.reader) depth rules.trait_use place) }
{
    let depth = enter(depth, 0)?;
    let (first, to) = parser.keyword(TokenKind::Use, place)?;
    let ((name, more), to) = Names::read(parser, depth, to)?;
    let (adaptations, to) = TraitUseEnd::read(parser, depth, to)?;
    let traits = with_first(parser.alloc, name, more)?;
    let form = MemberTree::TraitUse {
        traits,
        adaptations,
    };
    Ok((ClassMember { first, form }, to))
}

// Constants without modifiers. `first` is the token there.
#[tactic(auto, using(crate::proofs::MemberLemmas::constants_is), unfolding(stan_stmt_parts::specs::Gives::entered, stan_stmt_parts::specs::Gives::inside, stan_stmt_parts::specs::Parse::first_at, stan_model_statements::specs::Kinds::same_kind))]
fn constants_member<R: Reader>(
    parser: &Parser<'_, R>,
    depth: Depth,
    first: Token,
    place: usize,
) -> Result<(ClassMember, usize), Stop>
    requires first { slice_get parser.now.tokens.now place ≡ Some first }
    requires room { depth.room ≤ R.room parser.now.reader }
    requires ready { R.ready parser.now.reader }
    ensures { Gives (at views.member_piece) result (spec.entered parser.now.tokens.now (R.leaves parser.now.reader) depth rules.constants_member place) }
{
    let depth = enter(depth, 0)?;
    let (constants, to) = ClassConstants::read(parser, depth, place)?;
    let form = with_modifiers(Items::new(parser.alloc), ModifiedTree::Constants(constants));
    Ok((ClassMember { first, form }, to))
}

// A method without modifiers. `first` is the token there.
#[tactic(auto, using(crate::proofs::MemberLemmas::method_is), unfolding(stan_stmt_parts::specs::Gives::entered, stan_stmt_parts::specs::Gives::inside, stan_stmt_parts::specs::Parse::first_at, stan_model_statements::specs::Kinds::same_kind))]
fn method_member<R: Reader>(
    parser: &Parser<'_, R>,
    depth: Depth,
    first: Token,
    place: usize,
) -> Result<(ClassMember, usize), Stop>
    requires first { slice_get parser.now.tokens.now place ≡ Some first }
    requires room { depth.room ≤ R.room parser.now.reader }
    requires ready { R.ready parser.now.reader }
    ensures { Gives (at views.member_piece) result (spec.entered parser.now.tokens.now (R.leaves parser.now.reader) depth rules.method_member place) }
{
    let depth = enter(depth, 0)?;
    let (method, to) = Method::read(parser, depth, place)?;
    let form = with_modifiers(Items::new(parser.alloc), ModifiedTree::Method(method));
    Ok((ClassMember { first, form }, to))
}

// At least one modifier, with what stands behind. `first` is the token there.
#[tactic(auto, using(crate::proofs::MemberLemmas::modified_is), unfolding(stan_stmt_parts::specs::Gives::entered, stan_stmt_parts::specs::Gives::inside, stan_stmt_parts::specs::Parse::first_at, stan_model_statements::specs::Kinds::same_kind))]
fn modified_member<R: Reader>(
    parser: &Parser<'_, R>,
    depth: Depth,
    first: Token,
    place: usize,
) -> Result<(ClassMember, usize), Stop>
    requires first { slice_get parser.now.tokens.now place ≡ Some first }
    requires room { depth.room ≤ R.room parser.now.reader }
    requires ready { R.ready parser.now.reader }
    ensures { Gives (at views.member_piece) result (spec.entered parser.now.tokens.now (R.leaves parser.now.reader) depth rules.modified_member place) }
{
    let depth = enter(depth, 0)?;
    let (modifier, to) = Modifier::read(parser, depth, place)?;
    let (more, to) = parser.all::<Modifier>(depth, to)?;
    let (modified, to) = Modified::read(parser, depth, to)?;
    let modifiers = with_first(parser.alloc, modifier, more)?;
    let form = with_modifiers(modifiers, modified);
    Ok((ClassMember { first, form }, to))
}

/// A member of a class, an interface or a trait.
pub struct Member;

impl Part for Member {
    type Tree = ClassMember;

    ghost sort = { sorts.Member };

    ghost view = { views.member_piece };

    #[tactic(auto, unfolding(stan_stmt_rules::specs::Ahead::pick_at))]
    fn begins(tokens: &[Token], place: usize) -> bool {
        pick_member(kind_at(tokens, place)).is_some()
    }

    #[tactic(auto, using(stan_stmt_parts::proofs::Turns::part_picked), unfolding(stan_stmt_rules::specs::Ahead::pick_at, stan_model_grammar::specs::Strata::kind_at, stan_model_statements::specs::Kinds::same_kind))]
    fn read<R: Reader>(
        parser: &Parser<'_, R>,
        depth: Depth,
        place: usize,
    ) -> Result<(ClassMember, usize), Stop> {
        let Some(first) = token_at(parser.tokens, place) else {
            return Err(Stop::Absent);
        };
        match pick_member(first.kind) {
            Some(MemberRule::TraitUse) => trait_use(parser, depth, place),
            Some(MemberRule::Constants) => constants_member(parser, depth, first, place),
            Some(MemberRule::Method) => method_member(parser, depth, first, place),
            Some(MemberRule::Modified) => modified_member(parser, depth, first, place),
            None => Err(Stop::Absent),
        }
    }
}

/// Members in braces.
pub struct ClassBody;

impl Part for ClassBody {
    type Tree = Items<ClassMember>;

    ghost sort = { sorts.ClassBody };

    ghost view = { views.class_body_piece };

    #[tactic(auto, unfolding(stan_stmt_rules::specs::Ahead::pick_at, stan_model_statements::specs::Kinds::same_kind))]
    fn begins(tokens: &[Token], place: usize) -> bool {
        stands(tokens, TokenKind::LeftBrace, place)
    }

    #[tactic(auto, using(stan_stmt_parts::proofs::Singles::part_enters, crate::proofs::MemberLemmas::members_are), unfolding(stan_stmt_parts::specs::Gives::entered, stan_stmt_parts::specs::Gives::inside, stan_stmt_parts::specs::Parse::first_at, stan_model_statements::specs::Kinds::same_kind))]
    fn read<R: Reader>(
        parser: &Parser<'_, R>,
        depth: Depth,
        place: usize,
    ) -> Result<(Items<ClassMember>, usize), Stop> {
        let depth = enter(depth, 1)?;
        let to = parser.expect(TokenKind::LeftBrace, place)?;
        let (members, to) = parser.all::<Member>(depth, to)?;
        let to = parser.expect(TokenKind::RightBrace, to)?;
        Ok((members, to))
    }
}
