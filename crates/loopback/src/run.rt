//! One run over a door.

use crate::given::Given;
use crate::hearing::{Listener, MOST};
use peer_run::peer_run;
use sha2::{Digest, Sha256};
use std::alloc::{AllocError, Global};
use std::collections::BTreeMap;
use std::sync::atomic::{AtomicU64, Ordering};
use std::sync::{Arc, Wait};
use std::thread::Threads;
use sub_hub::{Hub, Watcher};
use willow_area::Area;
use willow_outside::{
    Bay, Door, MemBay, MemNoise, MemShelf, MemSink, MemSource, Noise, Shelf, Sink, Source,
};

// The author whose rows are exchanged. Anyone may sign for an open key.
const SIGNER: &str = "open:5555555555555555555555555555555555555555555555555555555555555555";

/// The words of a call of the one at the place.
pub(crate) fn sync_words<'a>(place: &'a str) -> [&'a str; 9] {
    [
        "sync", "--image", "i", "--cap", "c", "--key", SIGNER, "--to", place,
    ]
}

/// The words of a server for so many links.
pub(crate) fn serve_words<'a>(place: &'a str, links: &'a str) -> [&'a str; 11] {
    [
        "serve", "--image", "i", "--cap", "c", "--key", SIGNER, "--at", place, "--links", links,
    ]
}

/// The words of a call of the one at the place that follows behind its session.
pub(crate) fn following_words<'a>(place: &'a str) -> [&'a str; 11] {
    [
        "sync", "--image", "i", "--cap", "c", "--key", SIGNER, "--to", place, "--follow", "yes",
    ]
}

/// The words of a server for so many links that feeds those who stay.
pub(crate) fn feeding_words<'a>(place: &'a str, links: &'a str) -> [&'a str; 13] {
    [
        "serve", "--image", "i", "--cap", "c", "--key", SIGNER, "--at", place, "--links", links,
        "--follow", "yes",
    ]
}

/// What a run is over besides the door: the names that its image and its draws of noise have in what is given.
#[derive(Clone, Copy)]
pub(crate) struct Side<'a> {
    pub(crate) given: &'a Given,
    pub(crate) image: &'a str,
    pub(crate) draws: &'a str,
}

impl Side<'_> {
    fn shelf(&self, alloc: Global) -> Result<MemShelf, AllocError> {
        let mut names = BTreeMap::new(alloc);
        for (name, value) in [("i", self.image), ("c", "cap")] {
            let bytes = Vec::from_slice(alloc, self.given.bytes(value))?;
            names
                .insert(String::from_str(alloc, name)?, bytes)
                .map_err(|unsaid| AllocError::from(unsaid))?;
        }
        Ok(MemShelf::new(alloc, names, Vec::new(alloc)))
    }

    fn noise(&self, alloc: Global) -> Result<MemNoise, AllocError> {
        let (draws, _) = self.given.bytes(self.draws).as_chunks::<32>();
        let draws = Vec::from_slice(alloc, draws)?;
        Ok(MemNoise::new(alloc, draws, Vec::new(alloc)))
    }
}

/// What came of a run.
#[derive(Drop)]
pub(crate) struct Outcome {
    status: u8,
    image: Option<Vec<u8>>,
    heard: u64,
    report: MemSink,
}

/// The number of some bytes, and their digest.
pub(crate) fn measure(alloc: Global, bytes: &[u8]) -> Result<String, AllocError> {
    let length = bytes.len();
    let digest = hex::encode(alloc, Sha256::digest(bytes).as_slice())?;
    format!(in alloc; "{length} bytes sha256 {digest}")
}

impl Outcome {
    /// The report's lines.
    pub(crate) fn report_text(&self) -> &str {
        str::from_utf8(self.report.held()).unwrap_or("no text")
    }

    /// The status, the image that is there behind the run, and the report, below a title.
    pub(crate) fn lines(&self, alloc: Global, title: &str) -> Result<String, AllocError> {
        let head = self.head(alloc, title)?;
        let report = self.report_text();
        format!(in alloc; "{head}{report}")
    }

    /// The same, but for how many rows the log had, which may rest on what runs at the same time.
    pub(crate) fn lines_without_fronts(
        &self,
        alloc: Global,
        title: &str,
    ) -> Result<String, AllocError> {
        let mut lines = self.head(alloc, title)?;
        for line in self.report_text().lines() {
            match (line.split_once("opened "), line.split_once(" stored ")) {
                (Some((link, _)), Some((_, numbers))) => write!(lines, "{link}stored {numbers}\n")?,
                _ => write!(lines, "{line}\n")?,
            }
        }
        Ok(lines)
    }

    /// The status, the image that is there behind the run, and what one who watches heard, below a title.
    pub(crate) fn head(&self, alloc: Global, title: &str) -> Result<String, AllocError> {
        let image = match &self.image {
            Some(image) => image.as_slice(),
            None => &[],
        };
        let status = self.status;
        let image = measure(alloc, image)?;
        let mut head = format!(in alloc; "{title}: status {status}, image {image}\n")?;
        let (first, count) = (self.heard / MOST, self.heard % MOST);
        write!(head, "heard {count} rows from {first} on\n")?;
        Ok(head)
    }
}

// The words, each a text of its own.
fn owned(alloc: Global, words: &[&str]) -> Result<Vec<String>, AllocError> {
    let mut texts = Vec::new(alloc);
    for word in words {
        let text = String::from_str(alloc, *word)?;
        texts.push(text).map_err(|unsaid| AllocError::from(unsaid))?;
    }
    Ok(texts)
}

// The most bytes a call of the report.
const PIECE: usize = 1 << 20;

// An empty sink.
fn sink_of(alloc: Global) -> MemSink {
    MemSink::new(alloc, Vec::new(alloc), Vec::new(alloc), PIECE)
}

// The status of a run that one watches, who shows in this word what it heard of. It knows nothing of the objects, so that the
// contract of a run is met once for all; and the hub stays within it, since who makes one that watches hands it to nobody.
fn status_of<
    R: Wait + Threads + Sync,
    H: Shelf,
    I: Source,
    O: Sink,
    E: Sink,
    D: Door,
    N: Noise,
    B: Bay,
>(
    rt: &R,
    alloc: Global,
    words: &[String],
    shelf: &mut H,
    input: &mut I,
    output: &mut O,
    report: &mut E,
    door: &mut D,
    noise: &mut N,
    bay: &mut B,
    shown: &Arc<AtomicU64>,
) -> Result<u8, AllocError> {
    let mut hub = Hub::new(alloc);
    let listener = Listener::new(shown.clone()?);
    let watcher: Box<dyn Watcher> = Box::new(alloc, listener).map_err(|unsaid| AllocError::from(
        unsaid,
    ))?;
    if hub.add(Area::full(alloc), watcher).is_err() {
        return Err(AllocError);
    }
    Ok(peer_run(
        rt, alloc, words, shelf, input, output, report, door, noise, bay, &mut hub,
    ))
}

/// Runs the words over the side's objects and the door, with no input and without faults but the door's. One watches.
pub(crate) fn over<R: Wait + Threads + Sync, D: Door>(
    rt: &R,
    alloc: Global,
    words: &[&str],
    side: Side<'_>,
    door: &mut D,
) -> Result<Outcome, AllocError> {
    let words = owned(alloc, words)?;
    let mut shelf = side.shelf(alloc)?;
    let mut noise = side.noise(alloc)?;
    let mut input = MemSource::new(alloc, Vec::new(alloc), Vec::new(alloc), PIECE);
    let mut output = sink_of(alloc);
    let mut report = sink_of(alloc);
    // no run keeps a log
    let mut bay = MemBay::new(
        alloc,
        BTreeMap::new(alloc),
        Vec::new(alloc),
        Vec::new(alloc),
    );
    let shown = Arc::new(alloc, AtomicU64::new(0))?;
    let status = status_of(
        rt,
        alloc,
        &words,
        &mut shelf,
        &mut input,
        &mut output,
        &mut report,
        door,
        &mut noise,
        &mut bay,
        &shown,
    )?;
    Ok(Outcome {
        status,
        image: shelf.get("i").unwrap_or(None),
        heard: shown.load(Ordering::SeqCst),
        report,
    })
}
