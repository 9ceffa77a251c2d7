//! The bytes of a file.

/// The bytes of a file, which all stages share.
#[derive(Drop)]
pub struct Source {
    pub bytes: Vec<u8>,
}
