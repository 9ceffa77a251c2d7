//! The rules, a file each.

pub mod constant_not_found;
pub mod function_not_found;
mod missing;
pub mod unreadable_file;
