//! Bytes under names in memory.

ghost use Rattle.std.specs.Prelude.{◌≡◌, None, IfOk, OnErr, is_ok, if◌then◌else◌};
ghost use Rattle.std.specs.Option.{option_map};
ghost use Rattle.willow_outside.specs.Names.{names_in, name_put};

use std::alloc::{AllocError, Global};
use std::collections::BTreeMap;

/// A map from names to bytes.
#[derive(Drop)]
pub(crate) struct Cabinet {
    pub(crate) contents: BTreeMap<String, Vec<u8>>,
}

impl Cabinet {
    pub(crate) fn new(contents: BTreeMap<String, Vec<u8>>) -> Cabinet
        ensures { result.contents ≡ contents }
    {
        Cabinet { contents }
    }

    /// A copy of the bytes under `name`. Only a name that is there takes memory.
    pub(crate) fn copy_of(&self, alloc: Global, name: &str) -> Result<Option<Vec<u8>>, AllocError>
        ensures found { IfOk result (λ found. names_in self.now.contents name.now ≡ option_map (λ v. v.items) found) }
        ensures held { OnErr result (names_in self.now.contents name.now ≡ None → ⊥) }
    {
        match self.contents.get(name) {
            Some(bytes) => Ok(Some(Vec::from_slice(alloc, bytes)?)),
            None => Ok(None),
        }
    }

    /// Puts a copy of `bytes` under `name`, or without memory changes nothing.
    pub(crate) fn replace(
        &mut self,
        alloc: Global,
        name: &str,
        bytes: &[u8],
    ) -> Result<(), AllocError>
        ensures { names_in self.new.contents ≡ (if is_ok result then name_put name.now bytes.now (names_in self.old.contents) else names_in self.old.contents) }
    {
        let key = String::from_str(alloc, name)?;
        let copy = Vec::from_slice(alloc, bytes)?;
        self.contents.insert(key, copy)?;
        Ok(())
    }
}
