//! Words that are commands, words that are none, and what commands say.

use peer_words::{AreaWords, Command, SignerWord, Usage, read_words};
use std::alloc::{AllocError, Global};
use willow_path::{Digest, End, Path};

// A front, a piece so many times, and an end.
fn long_word(alloc: Global, front: &str, piece: &str, count: usize, end: &str) -> Option<String> {
    let mut text = String::from_str(alloc, front).ok()?;
    for _ in 0..count {
        text.push_str(piece).ok()?;
    }
    text.push_str(end).ok()?;
    Some(text)
}

// The word that a name of the tables stands for; other words stand for themselves.
fn word_of(alloc: Global, name: &str) -> Option<String> {
    match name {
        "COMMUNAL" => long_word(alloc, "00", "4e", 32, ""),
        "UPPER" => long_word(alloc, "00", "4E", 32, ""),
        "OWNED" => long_word(alloc, "00", "4f", 32, ""),
        "USER" => long_word(alloc, "01", "55", 32, ""),
        "KIND_2" => long_word(alloc, "02", "55", 32, ""),
        "SHORT_KEY" => long_word(alloc, "00", "55", 31, ""),
        "DIGEST" => long_word(alloc, "", "1f", 32, ""),
        "OPEN" => long_word(alloc, "open:", "5a", 32, ""),
        "OPEN_33" => long_word(alloc, "open:", "5a", 33, ""),
        "NAME_128" => long_word(alloc, "", "a", 128, ""),
        "NAME_129" => long_word(alloc, "", "a", 129, ""),
        "PLACE_255" => long_word(alloc, "", "a", 253, ":1"),
        "PLACE_256" => long_word(alloc, "", "a", 254, ":1"),
        "PART_255" => long_word(alloc, "/", "61", 255, ""),
        "PART_256" => long_word(alloc, "/", "61", 256, ""),
        "PARTS_255" => long_word(alloc, "", "/", 255, ""),
        "PARTS_256" => long_word(alloc, "", "/", 256, ""),
        "EMPTY" => String::from_str(alloc, "").ok(),
        _ => String::from_str(alloc, name).ok(),
    }
}

// The words of a line.
fn words_in(alloc: Global, line: &str) -> Option<Vec<String>> {
    let mut words = Vec::new(alloc);
    for name in line.split_whitespace() {
        words.push(word_of(alloc, name)?).ok()?;
    }
    Some(words)
}

// Whether the words of a line spell a command.
fn is_command(alloc: Global, line: &str) -> Option<bool> {
    let words = words_in(alloc, line)?;
    match read_words(alloc, &words) {
        Ok(_) => Some(true),
        Err(End::Refused(Usage)) => Some(false),
        Err(End::NoMemory) => None,
    }
}

const REFUSED: &str = "
jion
Join --namespace COMMUNAL
join
join COMMUNAL
join --namespace
join --namespace EMPTY
join --namespace COMMUNAL --namespace COMMUNAL
join --namespace COMMUNAL --newest 1
join --namespace COMMUNAL --
join --namespace=COMMUNAL
join -n COMMUNAL
join --namespace KIND_2
join --namespace SHORT_KEY
join --namespace DIGEST
show --newest
show --newest 0
show --newest 65537
show --newest 01
show --newest +1
show --newest -1
show --newest 1x
show 1
key --name k
key --height 5
key --name k --height 6
key --name k --height 05
key --name .k --height 5
key --name _k --height 5
key --name a/b --height 5
key --name NAME_129 --height 5
grant --namespace COMMUNAL --mode read --user USER --key OPEN
grant --namespace OWNED --mode read --user USER
grant --namespace COMMUNAL --mode Read --user USER
grant --namespace OWNED --mode write --user USER --key lms:.k
grant --namespace OWNED --mode write --user USER --key OPEN_33
grant --namespace OWNED --mode write --user USER --key USER
delegate --to USER
delegate --key OPEN --to USER --from 5 --until 5
delegate --key OPEN --to USER --from 5 --until 4
delegate --key OPEN --to USER --subspace none
delegate --key OPEN --to USER --until any
delegate --key OPEN --to USER --under 61
write --key OPEN --path 61 --time 5 --length 1 --digest DIGEST
write --key OPEN --path /6 --time 5 --length 1 --digest DIGEST
write --key OPEN --path /6g --time 5 --length 1 --digest DIGEST
write --key OPEN --path ./61 --time 5 --length 1 --digest DIGEST
write --key OPEN --path PART_256 --time 5 --length 1 --digest DIGEST
write --key OPEN --path PARTS_256 --time 5 --length 1 --digest DIGEST
write --key OPEN --path /61 --time 18446744073709551616 --length 1 --digest DIGEST
write --key OPEN --path /61 --time 5 --length 00 --digest DIGEST
write --key OPEN --path /61 --time 5 --length 1 --digest USER
write --key OPEN --path /61 --time 5 --length 1 --digest DIGEST --subspace any
gen
gen --rows 0
drill --rows 65537
meet --left a --right b --left-cap c --right-cap d --left-out e
sync --image a --cap b --key OPEN --to :1
sync --image a --cap b --key OPEN --to a
sync --image a --cap b --key OPEN --to a:
sync --image a --cap b --key OPEN --to a:0
sync --image a --cap b --key OPEN --to a:65536
sync --image a --cap b --key OPEN --to a:1:2
sync --image a --cap b --key OPEN --to ::1
sync --image a --cap b --key OPEN --to PLACE_256
serve --image a --cap b --key OPEN --at a:1
serve --image a --cap b --key OPEN --at a:1 --links 0
serve --image a --cap b --key OPEN --at a:1 --links 65
watch --image a --until 0
watch --image a --from 0 --until 0
watch --from 5
show --bytes 1
delegate --key OPEN --to USER --newest 1
watch --image a --newest 1
watch --image a --log l
meet --left a --right b --left-cap c --right-cap d --left-out e --right-out f --newest 0
meet --left a --right b --left-cap c --right-cap d --left-out e --right-out f --follow yes
sync --image a --cap b --key OPEN --to a:1 --newest 65537
sync --image a --cap b --key OPEN --to a:1 --newest any
sync --image a --cap b --key OPEN --to a:1 --bytes 01
sync --image a --cap b --key OPEN --to a:1 --bytes none
sync --image a --cap b --key OPEN --to a:1 --bytes 18446744073709551616
sync --image a --cap b --key OPEN --to a:1 --bytes 1 --bytes 1
sync --image a --cap b --key OPEN --to a:1 --follow
sync --image a --cap b --key OPEN --to a:1 --follow no
sync --image a --cap b --key OPEN --to a:1 --follow Yes
sync --image a --cap b --key OPEN --to a:1 --follow yes --follow yes
sync --image a --cap b --key OPEN --to a:1 --log l
serve --image a --cap b --key OPEN --at a:1 --links 1 --follow 1
serve --image a --cap b --key OPEN --at a:1 --links 1 --log
serve --image a --cap b --key OPEN --at a:1 --links 1 --log .l
serve --image a --cap b --key OPEN --at a:1 --links 1 --log a/l
serve --image a --cap b --key OPEN --at a:1 --links 1 --log NAME_129
serve --image a --cap b --key OPEN --at a:1 --log l";

const ACCEPTED: &str = "join --namespace COMMUNAL
join --namespace UPPER
show
show --newest 1
key --name NAME_128 --height 5
key --height 10 --name 0._-
grant --namespace COMMUNAL --mode read --user USER
grant --key OPEN --namespace OWNED --mode write --user USER
grant --namespace OWNED --mode write --user USER --key lms:k
delegate --key OPEN --to USER
delegate --key OPEN --to USER --from 5 --until 6 --under . --subspace any
delegate --key lms:k --to USER --from 5 --until none --under / --subspace USER
write --key OPEN --path PART_255 --time 5 --length 1 --digest DIGEST
write --key OPEN --path PARTS_255 --time 5 --length 1 --digest DIGEST
gen --rows 1
drill --rows 65536
meet --left a --right b --left-cap c --right-cap d --left-out e --right-out f
meet --left a --right a --left-cap a --right-cap a --left-out a --right-out a --from 0
sync --image a --cap b --key OPEN --to a.b:1
sync --image a --cap b --key OPEN --to a:65535
sync --image a --cap b --key OPEN --to PLACE_255 --under /61
serve --image a --cap b --key lms:k --at a:1 --links 64 --until 0
watch --image a
watch --image a --from 5
meet --left a --right b --left-cap c --right-cap d --left-out e --right-out f --newest 1
meet --bytes 0 --left a --right b --left-cap c --right-cap d --left-out e --right-out f --newest 65536 --under /
sync --image a --cap b --key OPEN --to a:1 --newest 65536
sync --image a --cap b --key OPEN --to a:1 --bytes 0
sync --image a --cap b --key OPEN --to a:1 --follow yes
sync --follow yes --image a --bytes 18446744073709551615 --cap b --key OPEN --newest 1 --to a:1 --from 5
serve --image a --cap b --key lms:k --at a:1 --links 64 --log NAME_128
serve --follow yes --log 0._- --image a --cap b --key OPEN --newest 1 --bytes 1 --at a:1 --links 1 --until none";

#[test]
fn words_that_are_no_command(rt: HostRuntime) {
    for line in REFUSED.lines() {
        assert_eq!(rt; is_command(rt.alloc(), line), Some(false), "{line}");
    }
}

#[test]
fn words_that_are_commands(rt: HostRuntime) {
    for line in ACCEPTED.lines() {
        assert_eq!(rt; is_command(rt.alloc(), line), Some(true), "{line}");
    }
}

// The key's kind, and the first and the last byte of its body.
fn key_told(alloc: Global, key: [u8; 33]) -> Result<String, AllocError> {
    let (kind, first, last) = (key[0], key[1], key[32]);
    format!(in alloc; "{kind} {first} {last}")
}

// The numbers of a row to write: its time, its length, how many components and bytes its path has, and the first and the
// last byte of the digest.
fn row_told(
    alloc: Global,
    path: &Path,
    numbers: (u64, u64),
    digest: &Digest,
) -> Result<String, AllocError> {
    let (count, total) = (path.count(), path.total());
    let (first, last) = (digest.0[0], digest.0[31]);
    let (time, len) = numbers;
    format!(in alloc; "{time} {len} {count} {total} {first} {last}")
}

// The times of an area.
fn times_told(alloc: Global, area: &AreaWords) -> Result<String, AllocError> {
    let (from, until) = (area.from, area.until);
    format!(in alloc; "{from:?} {until:?}")
}

// Two names, one behind the other.
fn names_told(alloc: Global, one: &str, two: &str) -> Result<String, AllocError> {
    format!(in alloc; "{one} {two}")
}

// The name of a log's file, and how many bytes are offered at most.
fn kept_told(alloc: Global, log: &str, bytes: Option<u64>) -> Result<String, AllocError> {
    format!(in alloc; "{log} {bytes:?}")
}

// What limits an offer, and whether it follows.
fn offer_told(
    alloc: Global,
    newest: Option<u32>,
    bytes: Option<u64>,
    follow: bool,
) -> Result<String, AllocError> {
    format!(in alloc; "{newest:?} {bytes:?} {follow}")
}

// What a command says, where one of the table's is told.
fn told(alloc: Global, command: &Command) -> Result<String, AllocError> {
    match command {
        Command::Gen { rows } | Command::Drill { rows } => format!(in alloc; "{rows}"),
        Command::Show { newest } => format!(in alloc; "{newest:?}"),
        Command::Join { namespace } => key_told(alloc, namespace.to_bytes()),
        Command::Grant {
            key: Some(SignerWord::OpenKey(key)),
            ..
        } => key_told(alloc, key.to_bytes()),
        Command::Write {
            path,
            time,
            length,
            digest,
            ..
        } => row_told(alloc, path, (*time, *length), digest),
        Command::Watch { area, .. } => times_told(alloc, area),
        Command::Meet {
            left_cap,
            right_out,
            ..
        } => names_told(alloc, left_cap.as_str(), right_out.as_str()),
        Command::Serve {
            log: Some(log),
            bytes,
            ..
        } => kept_told(alloc, log.as_str(), *bytes),
        Command::Serve { cap, at, .. } => names_told(alloc, cap.as_str(), at.as_str()),
        Command::Sync {
            newest,
            bytes,
            follow,
            ..
        } => offer_told(alloc, *newest, *bytes, *follow),
        _ => Ok(String::new(alloc)),
    }
}

// Whether the line, the words of a command and what it says, is right.
fn says(alloc: Global, line: &str) -> Option<bool> {
    let (words, due) = line.split_once(" = ")?;
    let words = words_in(alloc, words)?;
    match read_words(alloc, &words) {
        Ok(command) => Some(told(alloc, &command).ok()?.as_str() == due),
        Err(_) => None,
    }
}

const SAID: &str = "gen --rows 20000 = 20000
drill --rows 65536 = 65536
show --newest 7 = Some(7)
show = None
join --namespace UPPER = 0 78 78
write --digest DIGEST --length 18446744073709551615 --time 0 --key OPEN --path /61/6A6b// = 0 18446744073709551615 4 3 31 31
write --digest DIGEST --length 18446744073709551615 --time 0 --key OPEN --path . = 0 18446744073709551615 0 0 31 31
watch --image a = None None
watch --until none --image a --from 5 = Some(5) Some(None)
watch --until 6 --image a --from 5 = Some(5) Some(Some(6))
grant --namespace OWNED --mode write --user USER --key OPEN = 0 90 90
meet --right-out f --left a --right b --left-cap c --right-cap d --left-out e = c f
serve --image a --cap b --key lms:k --at host:80 --links 2 = b host:80
sync --image a --cap b --key OPEN --to a:1 = None None false
sync --image a --cap b --key OPEN --to a:1 --newest 7 --follow yes = Some(7) None true
sync --bytes 18446744073709551615 --image a --cap b --key OPEN --to a:1 = None Some(18446744073709551615) false
serve --image a --cap b --key OPEN --at a:1 --links 1 --log l --bytes 0 = l Some(0)
serve --follow yes --newest 65536 --image a --cap b --key OPEN --at a:1 --links 1 --log l.1 = l.1 None";

#[test]
fn what_commands_say(rt: HostRuntime) {
    for line in SAID.lines() {
        assert_eq!(rt; says(rt.alloc(), line), Some(true), "{line}");
    }
}
