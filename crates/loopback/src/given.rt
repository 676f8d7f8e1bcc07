//! What standard input gives.

use std::alloc::{AllocError, Global};
use std::collections::BTreeMap;
use std::io;

/// Bytes by their names.
#[derive(Drop)]
pub(crate) struct Given {
    values: BTreeMap<String, Vec<u8>>,
}

/// A name and its bytes, where the line is both.
fn value_of(alloc: Global, line: &str) -> Option<(String, Vec<u8>)> {
    let (name, bytes) = line.split_once(' ')?;
    let name = String::from_str(alloc, name).ok()?;
    let bytes = hex::decode(alloc, bytes).ok()?;
    Some((name, bytes))
}

impl Given {
    /// Reads the lines of the input, each a name and its bytes in hexadecimal with a space between.
    pub(crate) fn read(rt: &HostRuntime) -> io::Result<Given> {
        let mut values = BTreeMap::new(rt.alloc());
        for line in rt.lines(rt.alloc()) {
            let line = line?;
            if let Some((name, bytes)) = value_of(rt.alloc(), line.as_str()) {
                values
                    .insert(name, bytes)
                    .map_err(|unsaid| AllocError::from(unsaid))?;
            }
        }
        Ok(Given { values })
    }

    /// The bytes of a name; none of one that is not there.
    pub(crate) fn bytes(&self, name: &str) -> &[u8] {
        match self.values.get(name) {
            Some(bytes) => bytes.as_slice(),
            None => &[],
        }
    }
}
