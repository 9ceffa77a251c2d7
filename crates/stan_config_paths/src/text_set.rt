//! A set of texts that are kept elsewhere.

ghost use Rattle.std.specs.Prelude.{◌≡◌, ℕ, List, IfOk, OnOk, not, true, false, if◌then◌else◌};
ghost use Rattle.std.specs.Str.{bytes_eq};

use stan_base::OutOfMemory;
use std::alloc::Global;
use std::collections::BTreeMap;

/// Texts, each once. A text is found in the logarithm of their number, whatever they are.
#[derive(Drop)]
pub struct TextSet<'a> {
    texts: BTreeMap<&'a str, bool>,
}

impl<'a> TextSet<'a> {
    ghost use Rattle.stan_config_paths.specs.TextSet.{has};

    pub fn new(alloc: Global) -> TextSet<'a>
        ensures { (text : List ℕ) → has result text ≡ false }
    {
        TextSet {
            texts: BTreeMap::new(alloc),
        }
    }

    /// Adds a text. Whether it is new.
    pub fn add(&mut self, text: &'a str) -> Result<bool, OutOfMemory>
        ensures is_new { IfOk result (λ is_new. is_new ≡ not (has self.old text.now)) }
        ensures has { OnOk result ((other : List ℕ) → has self.new other ≡ (if bytes_eq text.now other then true else has self.old other)) }
    {
        let old = self.texts.insert(text, true)?;
        Ok(old.is_none())
    }

    pub fn has(&self, text: &str) -> bool
        ensures { result ≡ has self.now text.now }
    {
        self.texts.contains_key(text)
    }
}
