//! Paths of files: their normal form, and their order.
#![tactic(auto)]

mod normal;
mod order;

pub use normal::{is_proper_part, normal_path, normal_paths};
pub use order::put_in_order;
