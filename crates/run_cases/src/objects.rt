//! The objects that a case is run over.

ghost use Rattle.std.specs.Prelude.{IfOk, ◌≤◌};
ghost use Rattle.std.specs.List.{AllByRecursion};
ghost use Rattle.willow_outside.specs.Links.{IsFresh};

use crate::fields::{draws_of, fails_of, link_fails_of, names_of};
use hex::FromHexError;
use std::alloc::{AllocError, Global};
use willow_outside::{
    Link, MemBay, MemDoor, MemLink, MemNoise, MemShelf, MemSink, MemSource, Shelf,
};

/// The most bytes that a call of the input, the output or a link moves.
pub(crate) const PIECE: usize = 100;

/// The same where so much is moved that few calls have to do.
pub(crate) const LARGE_PIECE: usize = 1 << 20;

/// The objects outside.
#[derive(Drop)]
pub struct Objects {
    pub shelf: MemShelf,
    pub input: MemSource,
    pub output: MemSink,
    pub report: MemSink,
    pub noise: MemNoise,
    pub door: MemDoor<MemLink>,
    pub bay: MemBay,
}

fn output_of(alloc: Global, faults: &str, piece: usize) -> Result<MemSink, FromHexError>
    requires { 1 ≤ piece }
{
    let fails = fails_of(alloc, faults, 'o')?;
    Ok(MemSink::new(alloc, Vec::new(alloc), fails, piece))
}

fn report_of(alloc: Global, faults: &str) -> Result<MemSink, FromHexError> {
    let fails = fails_of(alloc, faults, 'r')?;
    Ok(MemSink::new(alloc, Vec::new(alloc), fails, 7))
}

fn shelf_of(alloc: Global, names: &str, faults: &str) -> Result<MemShelf, FromHexError> {
    let names = names_of(alloc, names)?;
    let fails = fails_of(alloc, faults, 's')?;
    Ok(MemShelf::new(alloc, names, fails))
}

fn input_of(
    alloc: Global,
    bytes: Vec<u8>,
    faults: &str,
    piece: usize,
) -> Result<MemSource, FromHexError>
    requires { 1 ≤ piece }
{
    let fails = fails_of(alloc, faults, 'i')?;
    Ok(MemSource::new(alloc, bytes, fails, piece))
}

fn noise_of(alloc: Global, draws: &str, faults: &str) -> Result<MemNoise, FromHexError> {
    let draws = draws_of(alloc, draws)?;
    let fails = fails_of(alloc, faults, 'n')?;
    Ok(MemNoise::new(alloc, draws, fails))
}

// A door to links that give these bytes.
fn door_of(
    alloc: Global,
    links: Vec<Vec<u8>>,
    faults: &str,
    piece: usize,
) -> Result<MemDoor<MemLink>, FromHexError>
    requires { 1 ≤ piece }
{
    let links = links_of(alloc, links, faults, piece)?;
    Ok(MemDoor::new(alloc, links, fails_of(alloc, faults, 'd')?))
}

// Links that give these bytes.
fn links_of(
    alloc: Global,
    given: Vec<Vec<u8>>,
    faults: &str,
    piece: usize,
) -> Result<Vec<MemLink>, FromHexError>
    requires { 1 ≤ piece }
    ensures { IfOk result (λ links. AllByRecursion (λ link. IsFresh (⟦<MemLink as Link>⟧.facts link)) links.items) }
{
    let mut links = Vec::new(alloc);
    let mut number = 0u64;
    for bytes in given {
        number = number.saturating_add(1);
        let fails = link_fails_of(alloc, faults, number)?;
        links
            .push(MemLink::new(alloc, bytes, fails, piece))
            .map_err(|unsaid| AllocError::from(unsaid))?;
    }
    Ok(links)
}

// A bay whose names hold this, to disks that fail alike.
fn bay_of(alloc: Global, files: &str, faults: &str) -> Result<MemBay, FromHexError> {
    let names = names_of(alloc, files)?;
    let fails = fails_of(alloc, faults, 'b')?;
    Ok(MemBay::new(alloc, names, fails, fails_of(alloc, faults, 'k')?))
}

impl Objects {
    /// The objects that the fields say, with that input, links that give these bytes, and log files that hold these; a call of the
    /// input, the output or a link moves at most so large a piece.
    pub(crate) fn new(
        alloc: Global,
        names: &str,
        draws: &str,
        input: Vec<u8>,
        faults: &str,
        links: Vec<Vec<u8>>,
        files: &str,
        piece: usize,
    ) -> Result<Objects, FromHexError>
        requires { 1 ≤ piece }
    {
        let shelf = shelf_of(alloc, names, faults)?;
        let noise = noise_of(alloc, draws, faults)?;
        let input = input_of(alloc, input, faults, piece)?;
        let output = output_of(alloc, faults, piece)?;
        let door = door_of(alloc, links, faults, piece)?;
        let bay = bay_of(alloc, files, faults)?;
        let report = report_of(alloc, faults)?;
        Ok(Objects {
            shelf,
            input,
            output,
            report,
            noise,
            door,
            bay,
        })
    }
}

/// The bytes under a name, asked for twice where the first call fails.
pub(crate) fn held(shelf: &mut MemShelf, name: &str) -> Option<Vec<u8>> {
    if let Ok(found) = shelf.get(name) {
        return found;
    }
    shelf.get(name).unwrap_or(None)
}
