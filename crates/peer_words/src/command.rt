//! What the words of a run ask for.

use lms_core::Height;
use mc_cap::Mode;
use willow_path::{Digest, NamespaceKey, Path, UserKey};

/// The words are no command.
#[derive(Clone, Copy, Debug, PartialEq, Eq)]
pub struct Usage;

/// Who signs: an open key, or the next index of a key file.
#[derive(Drop)]
pub enum SignerWord {
    /// `open:` and 64 hexadecimal digits: the key of kind 0 with that body.
    OpenKey(UserKey),
    /// `lms:` and the name of a key file, as `Command` says of names.
    LmsFile(String),
}

/// What the words say of an area. None stands where a field has no word; it is then that of the area at hand.
/// Where both times are given and the end is a number, it is above the start.
#[derive(Drop)]
pub struct AreaWords {
    /// `--subspace`; the inner None is the word `any`.
    pub subspace: Option<Option<UserKey>>,
    /// `--under`: a path within the limits of `Path`.
    pub under: Option<Path>,
    /// `--from`: any number of 64 bits.
    pub from: Option<u64>,
    /// `--until`: any number of 64 bits; the inner None is the word `none`.
    pub until: Option<Option<u64>>,
}

/// A command with its options, as `read_words` answers it.
///
/// The name of a file has 1 to 128 letters, digits, `.`, `_` and `-` of ASCII, and begins with a letter or digit.
/// A place has at most 255 bytes: a host of one or more bytes without `:`, a `:` and a port from 1 to 65,535 in
/// decimal digits.
#[derive(Drop)]
pub enum Command {
    /// Joins the rows of the input into the image of a store of this namespace.
    Join {
        namespace: NamespaceKey,
    },
    /// Lists the rows of an image; or only the newest, the newest first, from 1 to 65,536 of them.
    Show {
        newest: Option<u32>,
    },
    /// Makes a key file of this name and height: 5 for 32 signatures, or 10 for 1,024.
    Key {
        name: String,
        height: Height,
    },
    /// Makes a first capability of the user; there is a signer exactly where the namespace is not communal.
    Grant {
        namespace: NamespaceKey,
        mode: Mode,
        user: UserKey,
        key: Option<SignerWord>,
    },
    /// Hands a capability on to a user, for an area.
    Delegate {
        key: SignerWord,
        to: UserKey,
        area: AreaWords,
    },
    /// Makes a row. Time and length of the payload are any numbers of 64 bits; without a subspace it is that of
    /// the receiver of the capability.
    Write {
        key: SignerWord,
        path: Path,
        time: u64,
        length: u64,
        digest: Digest,
        subspace: Option<UserKey>,
    },
    /// Makes so many rows, from 1 to 65,536.
    Gen {
        rows: u32,
    },
    /// Lets two stores of so many made rows meet, from 1 to 65,536.
    Drill {
        rows: u32,
    },
    /// Lets two images meet: their names, those of the capabilities, and those of the new images. Each side offers
    /// only the newest rows of the area, from 1 to 65,536 of them at most, whose payloads have at most so many bytes
    /// together; a limit that is None limits nothing.
    Meet {
        left: String,
        right: String,
        left_cap: String,
        right_cap: String,
        left_out: String,
        right_out: String,
        area: AreaWords,
        newest: Option<u32>,
        bytes: Option<u64>,
    },
    /// Calls a peer at a place, with an image and a capability of these names, and a signer that is meant to be
    /// the receiver of the capability. What it offers is limited as in `Meet`. Where it follows, it takes what came
    /// into the peer's log since, behind the session.
    Sync {
        image: String,
        cap: String,
        key: SignerWord,
        to: String,
        area: AreaWords,
        newest: Option<u32>,
        bytes: Option<u64>,
        follow: bool,
    },
    /// Answers so many peers, from 1 to 64, at a place; image, capability, signer and limits are as in `Sync`. Where it
    /// follows, it gives each peer what came into its log since, behind the session. Where there is a log, rows are kept
    /// in the file of this name as they come.
    Serve {
        image: String,
        cap: String,
        key: SignerWord,
        at: String,
        links: u32,
        area: AreaWords,
        newest: Option<u32>,
        bytes: Option<u64>,
        follow: bool,
        log: Option<String>,
    },
    /// Tells the rows of an area of an image of this name as they come. The times of the area do not end at 0.
    Watch {
        image: String,
        area: AreaWords,
    },
}
