//! A disk of 2^62 bytes.

ghost use Rattle.std.specs.Prelude.{None};
ghost use Rattle.std.proofs.lemmas.Option.{none-some};

use willow_outside::{Disk, Fault};

// A disk that says that it has 2^62 bytes and tells nothing of them.
#[derive(Drop)]
pub(crate) struct LongDisk;

impl Disk for LongDisk {
    ghost facts = { λ _. record { contents = None; read_faults = 0; write_faults = 0 } };

    ghost may_leave = { λ _ _. ⊥ };

    ghost moment = { λ _. 0 };

    ghost left_since = { λ _ _ _. ⊥ };

    ghost contents_left = { λ _ c told. none-some c told };

    ghost untold = { λ _ _ _ left. left };

    ghost counts_now = { λ _ _ _ _ left. left };

    ghost only_now = { λ _ _ left. left };

    fn len(&mut self) -> Result<u64, Fault> {
        Ok(1 << 62)
    }

    fn read_at(&mut self, _at: u64, _buf: &mut [u8]) -> Result<usize, Fault> {
        Ok(0)
    }

    fn write_at(&mut self, _at: u64, _bytes: &[u8]) -> Result<(), Fault> {
        Ok(())
    }

    fn sync(&mut self) -> Result<(), Fault> {
        Ok(())
    }
}
