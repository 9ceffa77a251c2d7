//! What a file declares that other files see.
#![tactic(auto)]

mod declared;
mod defines;

pub use declared::exports;
