//! The tokens of a PHPDoc tag, exactly as `stan_model_doc` defines them (`specs/Tokens.antt`).
#![tactic(auto)]

mod literals;
mod marks;
mod quotes;
mod tags;
mod tokens;
mod words;

pub use tags::{is_winning, tag_kind, tag_tokens};
