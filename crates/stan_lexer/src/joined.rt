//! Attributes joined to one token each, and keywords that are names.

ghost use Rattle.std.specs.Prelude.{◌≡◌, ◌+◌, ◌<◌, ◌≤◌, ◌^◌, List, ◌∷◌, None, length, OnOk, IfOk, IfSome};
ghost use Rattle.stan_model_grammar.specs.declared.token.Token as token;
ghost use Rattle.stan_model_grammar.specs.Tokens.{is_attribute_start, is_attribute_end, is_comment, is_arrow, is_double_colon, is_class, renames, renamed, joined};
ghost use Rattle.stan_lexer.specs.Joined.{joined_behind};

use stan_base::OutOfMemory;
use stan_model_grammar::keyword::is_keyword;
use stan_model_grammar::token::{Token, TokenKind};
use std::alloc::Global;

fn is_attribute_start(kind: TokenKind) -> bool
    ensures { result ≡ is_attribute_start kind }
{
    matches!(kind, TokenKind::AttributeStart)
}

fn is_attribute_end(kind: TokenKind) -> bool
    ensures { result ≡ is_attribute_end kind }
{
    matches!(kind, TokenKind::AttributeEnd)
}

pub fn is_comment(kind: TokenKind) -> bool
    ensures { result ≡ is_comment kind }
{
    matches!(kind, TokenKind::Comment | TokenKind::PhpDoc)
}

fn is_arrow(kind: TokenKind) -> bool
    ensures { result ≡ is_arrow kind }
{
    matches!(kind, TokenKind::Arrow | TokenKind::NullsafeArrow)
}

fn is_double_colon(kind: TokenKind) -> bool
    ensures { result ≡ is_double_colon kind }
{
    matches!(kind, TokenKind::DoubleColon)
}

fn is_class(kind: TokenKind) -> bool
    ensures { result ≡ is_class kind }
{
    matches!(kind, TokenKind::Class)
}

// A token behind one of the kind `before`: there a keyword may be a name.
fn renamed(before: TokenKind, token: Token) -> Token
    ensures { result ≡ renamed before token }
{
    let names = is_arrow(before) || (is_double_colon(before) && !is_class(token.kind));
    if names && is_keyword(token.kind) {
        Token {
            kind: TokenKind::Identifier,
            ..token
        }
    } else {
        token
    }
}

/// Joins lexemes one by one.
#[derive(Drop)]
struct Joiner {
    tokens: Vec<Token>,
    /// The kind of the last token, comments and attributes aside.
    before: TokenKind,
    /// The first lexeme of the open attribute, and how many brackets are open in it.
    attribute: Option<(Token, usize)>,
}

impl Joiner {
    // Takes a lexeme inside the attribute.
    fn take_inside(&mut self, first: Token, depth: usize, lexeme: Token) -> Result<(), OutOfMemory>
        requires open { self.old.attribute ≡ Some (first, depth) }
        requires small { depth + 1 < 2 ^ 64 }
        ensures joined { OnOk result ((rest : List token.Token) → joined_behind self.new rest ≡ joined_behind self.old (lexeme ∷ rest)) }
        ensures deep { OnOk result (IfSome self.new.attribute (λ a. a.1 ≤ depth + 1)) }
    {
        if is_attribute_start(lexeme.kind) {
            self.attribute = Some((first, depth + 1));
        } else if is_attribute_end(lexeme.kind) {
            if depth == 0 {
                self.tokens.push(Token {
                    kind: TokenKind::Attribute,
                    start: first.start,
                    end: lexeme.end,
                })?;
                self.attribute = None;
            } else {
                self.attribute = Some((first, depth - 1));
            }
        }
        Ok(())
    }

    // Takes a lexeme outside of attributes.
    fn take_outside(&mut self, lexeme: Token) -> Result<(), OutOfMemory>
        requires { self.old.attribute ≡ None }
        ensures joined { OnOk result ((rest : List token.Token) → joined_behind self.new rest ≡ joined_behind self.old (lexeme ∷ rest)) }
        ensures deep { OnOk result (IfSome self.new.attribute (λ a. a.1 ≡ 0)) }
    {
        if is_attribute_start(lexeme.kind) {
            self.attribute = Some((lexeme, 0));
            return Ok(());
        }
        self.tokens.push(renamed(self.before, lexeme))?;
        if !is_comment(lexeme.kind) {
            self.before = lexeme.kind;
        }
        Ok(())
    }
}

/// The tokens that lexemes make.
pub fn joined(alloc: Global, lexemes: &[Token]) -> Result<Vec<Token>, OutOfMemory>
    ensures { IfOk result (λ ts. ts.items ≡ joined TokenKind.End None lexemes.now) }
{
    let mut joiner = Joiner {
        tokens: Vec::new(alloc),
        before: TokenKind::End,
        attribute: None,
    };
    for lexeme in lexemes {
        match joiner.attribute {
            Some((first, depth)) => joiner.take_inside(first, depth, *lexeme)?,
            None => joiner.take_outside(*lexeme)?,
        }
    }
    if let Some((first, _)) = joiner.attribute {
        joiner.tokens.push(Token {
            kind: TokenKind::Bad,
            ..first
        })?;
    }
    Ok(joiner.tokens)
}
