//! The tokens of PHP source, exactly those that `stan_model_grammar` defines (`specs/Tokens.antt`).
#![tactic(auto)]

mod cut;
mod escapes;
mod heredocs;
mod joined;
pub mod laws;
mod lexemes;
mod lexer;
mod marks;
mod opening;
mod parts;
mod quotes;
mod runs;
mod tokens;
mod values;
mod words;

pub use lexer::lex;
pub use parts::{code_tokens, comments};
pub use stan_model_grammar::token::{Token, TokenKind};
pub use values::{integer_value, text_value};
