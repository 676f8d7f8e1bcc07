//! `key`: a new key under a name, and its user key.

ghost use Rattle.std.specs.Prelude.{◌≡◌, [], ◌∷◌, ◌++◌, IfOk, OnOk};
ghost use Rattle.peer_stage.specs.World.{World};
ghost use Rattle.peer_stage.specs.Faults.{CountsStep};
ghost use Rattle.willow_outside.specs.Draws.{IsDraw};
ghost use Rattle.peer_listing.specs.Listing.{key_line};
ghost use Rattle.peer_make.specs.Making.{MakesKey, FindsFree, DrawsKey, DrawsOne, DrawsAll, PutsFile, own_user_key};

use lms_core::{Height, LmsKey};
use peer_listing::key_line;
use peer_stage::{Done, Stop, put_bytes, write_output};
use std::alloc::Global;
use std::thread::Threads;
use willow_outside::{Fault, Noise, Shelf, Sink};
use willow_path::NoMemory;

/// Makes a key under a name of the shelf, which must be absent, and writes the user key as a line.
///
/// Two draws of noise are taken: the first 16 bytes of the first are the key's identifier, and the second is
/// its seed. The key's file is put before the line is written. It hashes the key's whole tree once, on all
/// processors: about a second of one at height 10.
pub fn make_key<R: Threads + Sync, H: Shelf, N: Noise, O: Sink>(
    rt: &R,
    alloc: Global,
    name: String,
    height: Height,
    shelf: &mut H,
    noise: &mut N,
    output: &mut O,
) -> Result<Done, Stop>
    ensures { (others : World) → MakesKey name height
        (record others { shelf = H.facts shelf.old; output = O.facts output.old; noise = N.facts noise.old })
        (record others { shelf = H.facts shelf.new; output = O.facts output.new; noise = N.facts noise.new }) result }
{
    let name = find_free(shelf, name)?;
    let key = draw_key(height, noise)?;
    let line = user_key_line(rt, alloc, &key)?;
    put_file(alloc, shelf, name.as_str(), &key)?;
    write_output(output, &line)?;
    Ok(Done::Made)
}

// The name, where the shelf does not have it.
fn find_free<H: Shelf>(shelf: &mut H, name: String) -> Result<String, Stop>
    ensures finds { FindsFree name (H.facts shelf.old) (H.facts shelf.new) result }
    ensures read_faults { CountsStep (H.facts shelf.old).read_faults (H.facts shelf.new).read_faults result }
    ensures write_faults { (H.facts shelf.new).write_faults ≡ (H.facts shelf.old).write_faults }
{
    match shelf.get(name.as_str()) {
        Ok(Some(_)) => Err(Stop::Taken { name }),
        Ok(None) => Ok(name),
        Err(Fault::Failed) => Err(Stop::ReadFault),
        Err(Fault::NoMemory) => Err(Stop::NoMemory),
    }
}

// The key of the next two draws.
fn draw_key<N: Noise>(height: Height, noise: &mut N) -> Result<LmsKey, Stop>
    ensures draws { DrawsKey height (N.facts noise.old) (N.facts noise.new) result }
    ensures faults { CountsStep (N.facts noise.old).faults (N.facts noise.new).faults result }
{
    let first = draw(noise)?;
    let seed = draw(noise)?;
    let mut identifier = [0; 16];
    identifier.copy_from_slice(&first[..16]);
    Ok(LmsKey::make(height, identifier, seed))
}

/// The next draw.
pub fn draw<N: Noise>(noise: &mut N) -> Result<[u8; 32], Stop>
    ensures draws { DrawsOne (N.facts noise.old) (N.facts noise.new) result }
    ensures faults { CountsStep (N.facts noise.old).faults (N.facts noise.new).faults result }
{
    match noise.words() {
        Ok(words) => {
            known(&words);
            Ok(words)
        }
        Err(Fault::Failed) => Err(Stop::ReadFault),
        Err(Fault::NoMemory) => Err(Stop::NoMemory),
    }
}

/// The next `count` draws, in order. Where one fails, those before it are taken off all the same.
pub fn draw_all<N: Noise>(alloc: Global, noise: &mut N, count: u32) -> Result<Vec<[u8; 32]>, Stop>
    ensures draws { DrawsAll count (N.facts noise.old) (N.facts noise.new) result }
    ensures faults { CountsStep (N.facts noise.old).faults (N.facts noise.new).faults result }
{
    let mut draws = Vec::new(alloc);
    for _ in 0..count {
        let words = draw(noise)?;
        put_draw(&mut draws, words)?;
    }
    Ok(draws)
}

// Appends a draw.
fn put_draw(draws: &mut Vec<[u8; 32]>, words: [u8; 32]) -> Result<(), NoMemory>
    ensures { OnOk result (draws.new.items ≡ draws.old.items ++ words ∷ []) }
{
    Ok(draws.push(words)?)
}

// Does nothing: it is called for its clause, what a draw has.
fn known(words: &[u8; 32])
    ensures { IsDraw words.now }
{
    let _bytes = words.as_slice();
}

// The user key as a line.
fn user_key_line<R: Threads + Sync>(
    rt: &R,
    alloc: Global,
    key: &LmsKey,
) -> Result<Vec<u8>, NoMemory>
    ensures { IfOk result (λ line. line.items ≡ key_line (own_user_key key.now)) }
{
    let mut line = Vec::new(alloc);
    key_line(&key.user_key_on(rt, alloc)?, &mut line)?;
    Ok(line)
}

// Puts the key's file under the name.
fn put_file<H: Shelf>(alloc: Global, shelf: &mut H, name: &str, key: &LmsKey) -> Result<(), Stop>
    ensures puts { PutsFile name.now key.now (H.facts shelf.old) (H.facts shelf.new) result }
    ensures read_faults { (H.facts shelf.new).read_faults ≡ (H.facts shelf.old).read_faults }
    ensures write_faults { CountsStep (H.facts shelf.old).write_faults (H.facts shelf.new).write_faults result }
{
    let mut file = Vec::new(alloc);
    key.encode(&mut file)?;
    put_bytes(shelf, name, &file)
}
