//! Indices taken off a key file.

ghost use Rattle.std.specs.Prelude.{◌≡◌, ◌+◌, ◌-◌, ◌<◌, ◌≤◌, ◌++◌, ℕ, Err, IfOk, IfErr, OnOk};
ghost use Rattle.std.specs.declared.vec.Vec.{Vec};
ghost use Rattle.std.specs.declared.alloc.Global.{Global};
ghost use Rattle.lms_core.specs.Accepts.{leaves};
ghost use Rattle.lms_core.specs.Key.{raised};
ghost use Rattle.lms_core.specs.Use.{Use, uses_from};
ghost use Rattle.lms_core.specs.Reserve.{HoldsKey, Reserves, CountsReserve};
ghost use Rattle.lms_core.specs.KnownTrees.{IsTreeOf};

use crate::key::LmsKey;
use crate::known_tree::KnownTree;
use crate::one_use::OneUse;
use spelling::{End, NoMemory};
use std::alloc::Global;
use std::fmt;
use std::thread::Threads;
use thiserror::Error;
use willow_outside::{Fault, Shelf};

/// Why no signer was handed out, in the order in which the causes are looked for.
#[derive(Clone, Copy, Debug, PartialEq, Eq, Error)]
pub enum KeyRefusal {
    /// The shelf's read failed, as its count of read faults shows.
    ShelfRead,
    /// There is no such name.
    Missing,
    /// The name holds no key file.
    BadKeyFile,
    /// The key has fewer indices left than were asked for: `next` is the first that is not used.
    KeySpent { next: u32 },
    /// The shelf's write failed, as its count of write faults shows; the name holds the old or the new file.
    ShelfWrite,
}

impl fmt::Display for KeyRefusal {
    fn fmt<W: fmt::Write>(&self, f: &mut fmt::Formatter<W>) -> fmt::Result {
        match self {
            KeyRefusal::ShelfRead => f.write_str("the shelf could not be read"),
            KeyRefusal::Missing => f.write_str("the shelf has no such name"),
            KeyRefusal::BadKeyFile => f.write_str("the name holds no key file"),
            KeyRefusal::KeySpent { next } => {
                write!(f, "from index {next} on the key has too few indices left")
            }
            KeyRefusal::ShelfWrite => f.write_str("the shelf could not be written"),
        }
    }
}

impl LmsKey {
    /// How many indices are not used.
    fn left(&self) -> u32
        ensures { result + self.now.next ≡ leaves self.now.height }
    {
        self.tree.height.leaves() - self.next
    }

    /// The key with its next `count` indices used.
    fn raised(&self, count: u32) -> LmsKey
        requires { self.now.next + count ≤ leaves self.now.height }
        ensures { result ≡ raised count self.now }
    {
        LmsKey {
            tree: self.tree,
            next: self.next + count,
        }
    }

    /// Signers of the next `count` indices, in order, which share what is known of the key's tree.
    fn signers(&self, alloc: Global, tree: &KnownTree, count: u32) -> Result<Vec<OneUse>, NoMemory>
        requires room { self.now.next + count ≤ leaves self.now.height }
        requires tree { IsTreeOf tree.now self.now }
        ensures { IfOk result (λ v. v.items ≡ uses_from self.now self.now.next count) }
    {
        let mut signers = Vec::new(alloc);
        for offset in 0..count {
            let signer = OneUse::new(tree.share()?, self.next + offset);
            signers.push(signer)?;
        }
        Ok(signers)
    }
}

/// The key under `name`, where it has `count` indices left.
fn find_key<H: Shelf>(shelf: &mut H, name: &str, count: u32) -> Result<LmsKey, End<KeyRefusal>>
    ensures held { IfOk result (HoldsKey (H.facts shelf.old) name.now) }
    ensures room { IfOk result (λ key. key.next + count ≤ leaves key.height) }
    ensures same { OnOk result (H.facts shelf.new ≡ H.facts shelf.old) }
    ensures refused { IfErr result (λ end. Reserves name.now count (H.facts shelf.old) (H.facts shelf.new) (Err end)) }
    ensures counts { IfErr result (λ end. CountsReserve {A = Vec Use Global} (H.facts shelf.old) (H.facts shelf.new) (Err end)) }
    ensures read_faults { (H.facts shelf.old).read_faults ≤ (H.facts shelf.new).read_faults }
    ensures write_faults { (H.facts shelf.old).write_faults ≤ (H.facts shelf.new).write_faults }
{
    let bytes = match shelf.get(name) {
        Ok(Some(bytes)) => bytes,
        Ok(None) => return Err(End::Refused(KeyRefusal::Missing)),
        Err(Fault::Failed) => return Err(End::Refused(KeyRefusal::ShelfRead)),
        Err(Fault::NoMemory) => return Err(End::NoMemory),
    };
    let Some(key) = LmsKey::decode(&bytes) else {
        return Err(End::Refused(KeyRefusal::BadKeyFile));
    };
    let next = key.next();
    if count > key.left() {
        return Err(End::Refused(KeyRefusal::KeySpent { next }));
    }
    Ok(key)
}

/// Puts the key's file back with its next `count` indices used, and hands out a signer for each.
fn hand_out<H: Shelf>(
    alloc: Global,
    shelf: &mut H,
    name: &str,
    key: &LmsKey,
    tree: &KnownTree,
    count: u32,
) -> Result<Vec<OneUse>, End<KeyRefusal>>
    requires held { HoldsKey (H.facts shelf.old) name.now key.now }
    requires room { key.now.next + count ≤ leaves key.now.height }
    requires tree { IsTreeOf tree.now key.now }
    ensures reserved { Reserves name.now count (H.facts shelf.old) (H.facts shelf.new) result }
    ensures counts { CountsReserve (H.facts shelf.old) (H.facts shelf.new) result }
    ensures read_faults { (H.facts shelf.old).read_faults ≤ (H.facts shelf.new).read_faults }
    ensures write_faults { (H.facts shelf.old).write_faults ≤ (H.facts shelf.new).write_faults }
{
    let signers = key.signers(alloc, tree, count)?;
    match shelf.put(name, &key.raised(count).file()) {
        Ok(()) => Ok(signers),
        Err(Fault::Failed) => Err(End::Refused(KeyRefusal::ShelfWrite)),
        Err(Fault::NoMemory) => Err(End::NoMemory),
    }
}

/// Takes the next `count` indices off the key file under `name`, and hands out a signer for each, in order.
///
/// The file is put back with its next index raised before any signer is handed out, and all other memory is
/// taken before that; so an index is lost where the write fails, and none is ever handed out twice. Where no
/// signer is handed out the shelf is as it was, but for a failed write, which may have put the new file.
/// Each signer hashes the leaves of the tree when it signs.
pub fn reserve_keys<H: Shelf>(
    alloc: Global,
    shelf: &mut H,
    name: &str,
    count: u32,
) -> Result<Vec<OneUse>, End<KeyRefusal>>
    requires { 0 < count }
    ensures reserved { Reserves name.now count (H.facts shelf.old) (H.facts shelf.new) result }
    ensures counts { CountsReserve (H.facts shelf.old) (H.facts shelf.new) result }
    ensures read_faults { (H.facts shelf.old).read_faults ≤ (H.facts shelf.new).read_faults }
    ensures write_faults { (H.facts shelf.old).write_faults ≤ (H.facts shelf.new).write_faults }
{
    let key = find_key(shelf, name, count)?;
    let tree = KnownTree::bare(key.tree);
    hand_out(alloc, shelf, name, &key, &tree, count)
}

/// Does what `reserve_keys` does, and hashes the leaves of the key's tree once, on all processors, before the file
/// is put back. The signers share the leaves' values, so that signing hashes one leaf, its own, and the nodes above the
/// leaves.
pub fn reserve_keys_on<R: Threads + Sync, H: Shelf>(
    rt: &R,
    alloc: Global,
    shelf: &mut H,
    name: &str,
    count: u32,
) -> Result<Vec<OneUse>, End<KeyRefusal>>
    requires { 0 < count }
    ensures reserved { Reserves name.now count (H.facts shelf.old) (H.facts shelf.new) result }
    ensures counts { CountsReserve (H.facts shelf.old) (H.facts shelf.new) result }
    ensures read_faults { (H.facts shelf.old).read_faults ≤ (H.facts shelf.new).read_faults }
    ensures write_faults { (H.facts shelf.old).write_faults ≤ (H.facts shelf.new).write_faults }
{
    let key = find_key(shelf, name, count)?;
    let tree = KnownTree::hashed(rt, alloc, key.tree)?;
    hand_out(alloc, shelf, name, &key, &tree, count)
}
