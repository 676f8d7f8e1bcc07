//! Keys, capabilities and rows against bytes made elsewhere. The fills 4e and 4f are those of a communal and
//! of an owned namespace, 55 and 56 those of users.

ghost use Rattle.std.specs.Prelude.{◌≡◌, ◌<◌, ◌↔◌, slice_index, IfSome, IsSome, false};
ghost use Rattle.peer_words.specs.Signers.{IsSigner};
ghost use Rattle.scheme_core.specs.Open.{is_communal};

use lms_core::{Height, PeerScheme};
use mc_cap::{ChainRefusal, Mode, RowRefusal};
use peer_make::{
    KeySigner, delegate, draw_all, empty_areas_count_as_growing, grant, make_key, reserve_signers,
    write,
};
use peer_stage::{Done, Stop};
use peer_words::{AreaWords, SignerWord};
use scheme_core::{OpenSigner, Signer, Verify};
use std::alloc::Global;
use std::collections::BTreeMap;
use std::test::*;
use std::thread::Threads;
use willow_outside::{MemNoise, Shelf, SureShelf, SureSink, SureSource};
use willow_path::{Digest, NamespaceKey, Path, UserKey};

// The communal capability of the first user.
const COMMUNAL: &str =
    "01004e4e4e4e4e4e4e4e4e4e4e4e4e4e4e4e4e4e4e4e4e4e4e4e4e4e4e4e4e4e4e4e00555555555555555555555555555555555555555555555555555555555555555500";
// The owned capability of the first user.
const OWNED: &str =
    "03004f4f4f4f4f4f4f4f4f4f4f4f4f4f4f4f4f4f4f4f4f4f4f4f4f4f4f4f4f4f4f4f0055555555555555555555555555555555555555555555555555555555555555550020be3c28b90cdd0082f1f9331d10ad6fa606b77d379992a4d798ffdac21a380a2900";
// The communal one, handed on to the second user.
const HANDED: &str =
    "01004e4e4e4e4e4e4e4e4e4e4e4e4e4e4e4e4e4e4e4e4e4e4e4e4e4e4e4e4e4e4e4e005555555555555555555555555555555555555555555555555555555555555555010100555555555555555555555555555555555555555555555555555555555555555500000000000000000000005656565656565656565656565656565656565656565656565656565656565656002074225105019beefefa64b53731f5a786eee83f3627afed6dba14b07da76aabc5";
// The file of the key of the draws 11 and 22, and its user key.
const FILE: &str =
    "574b5931051111111111111111111111111111111122222222222222222222222222222222222222222222222222222222222222220000";

const USER: &str = "01e2a26cd3e331137eaa9d6ca84b41f08f5c54075158e1a4bc81ad7769f2a1ffa2";
// The open signature by the first user of the frame of the row of the key's last index: the empty path, time 5,
// length 1 and the digest of 32 times the byte 11, under the key's communal capability.
const ROW: &str = "6eac206e0f4c7a6809738871eabde2ddffeb6701e1f18b3c678c7a665414efee";

// The namespace of 32 times the byte.
fn namespace(fill: u8) -> Option<NamespaceKey> {
    let mut bytes = [fill; 33];
    bytes[0] = 0;
    NamespaceKey::from_bytes(bytes)
}

// The open key of 32 times the byte.
fn user(fill: u8) -> Option<UserKey>
    ensures { IfSome result (λ key. slice_index key 0 ≡ 0) }
{
    let mut bytes = [fill; 33];
    bytes[0] = 0;
    UserKey::from_bytes(bytes)
}

// What a command comes to: what it writes, or why what was made is refused; None stands for any other stop.
type Written = Result<Vec<u8>, Option<RowRefusal>>;

// Why it stopped, or that it did not.
fn end_of(end: Result<Done, Stop>) -> Result<(), Option<RowRefusal>> {
    match end {
        Ok(_) => Ok(()),
        Err(Stop::Refused(refusal)) => Err(Some(refusal)),
        Err(_) => Err(None),
    }
}

// A copy of what is held.
fn copied(alloc: Global, output: &SureSink) -> Written {
    Vec::from_slice(alloc, output.held()).map_err(|_| None)
}

// A shelf that is empty.
fn no_files(alloc: Global) -> SureShelf {
    SureShelf::new(alloc, BTreeMap::new(alloc))
}

// Grants a user a capability in a namespace.
fn grant_to<R: Threads + Sync>(
    rt: &R,
    alloc: Global,
    namespace: NamespaceKey,
    user: UserKey,
    key: Option<SignerWord>,
    output: &mut SureSink,
) -> Result<(), Option<RowRefusal>>
    requires owned { IsSome key ↔ (is_communal namespace ≡ false) }
    requires signer { IfSome key IsSigner }
{
    end_of(grant(
        rt,
        alloc,
        namespace,
        Mode::Write,
        user,
        key,
        &mut no_files(alloc),
        output,
    ))
}

// The capability of the first user in the communal namespace.
fn communal<R: Threads + Sync>(rt: &R, alloc: Global) -> Written {
    let namespace = namespace(0x4e).ok_or(None)?;
    let user = user(0x55).ok_or(None)?;
    if !PeerScheme.is_communal(&namespace) {
        return Err(None);
    }
    let mut output = SureSink::new(alloc, Vec::new(alloc));
    grant_to(rt, alloc, namespace, user, None, &mut output)?;
    copied(alloc, &output)
}

// The capability of the first user in the owned one, by an open signer.
fn owned<R: Threads + Sync>(rt: &R, alloc: Global, signer: u8) -> Written {
    let namespace = namespace(0x4f).ok_or(None)?;
    let (signer, user) = (user(signer).ok_or(None)?, user(0x55).ok_or(None)?);
    if PeerScheme.is_communal(&namespace) {
        return Err(None);
    }
    let key = Some(SignerWord::OpenKey(signer));
    let mut output = SureSink::new(alloc, Vec::new(alloc));
    grant_to(rt, alloc, namespace, user, key, &mut output)?;
    copied(alloc, &output)
}

// Whether the bytes of these digits are written.
fn is_written(alloc: Global, written: &Written, digits: &str) -> bool {
    match (written, &hex::decode(alloc, digits)) {
        (Ok(bytes), Ok(wanted)) => bytes.as_slice() == wanted.as_slice(),
        _ => false,
    }
}

// Whether what was made is refused so.
fn is_refused(written: &Written, refusal: ChainRefusal) -> bool {
    match written {
        Err(Some(found)) => *found == RowRefusal::Chain(refusal),
        _ => false,
    }
}

#[test]
fn capabilities_are_granted(rt: HostRuntime) {
    let alloc = rt.alloc();
    let found = [
        is_written(alloc, &communal(&rt, alloc), COMMUNAL),
        is_written(alloc, &owned(&rt, alloc, 0x4f), OWNED),
        is_refused(&owned(&rt, alloc, 0x55), ChainRefusal::BadInitial),
    ];
    assert!(rt; found == [true; 3]);
}

// The words of an area without a subspace and a path.
fn times(from: Option<u64>, until: Option<Option<u64>>) -> AreaWords {
    AreaWords {
        subspace: None,
        under: None,
        from,
        until,
    }
}

// Hands a capability on to a user.
fn hand_to<R: Threads + Sync>(
    rt: &R,
    alloc: Global,
    bytes: Vec<u8>,
    key: SignerWord,
    to: UserKey,
    area: AreaWords,
    output: &mut SureSink,
) -> Result<(), Option<RowRefusal>>
    requires { IsSigner key }
{
    end_of(delegate(
        rt,
        alloc,
        key,
        to,
        area,
        &mut no_files(alloc),
        &mut SureSource::new(alloc, bytes),
        output,
    ))
}

// The capability of the bytes, handed on by the first user to this one for all that it grants.
fn handed<R: Threads + Sync>(rt: &R, alloc: Global, bytes: Vec<u8>, to: UserKey) -> Written {
    let key = SignerWord::OpenKey(user(0x55).ok_or(None)?);
    let area = times(None, None);
    let mut output = SureSink::new(alloc, Vec::new(alloc));
    hand_to(rt, alloc, bytes, key, to, area, &mut output)?;
    copied(alloc, &output)
}

// The communal capability, handed on to the second user.
fn handed_once<R: Threads + Sync>(rt: &R, alloc: Global) -> Written {
    let to = user(0x56).ok_or(None)?;
    handed(rt, alloc, communal(rt, alloc)?, to)
}

// The communal capability, handed on by the first user to itself so often.
fn handed_often<R: Threads + Sync>(rt: &R, alloc: Global, count: u32) -> Written {
    let to = user(0x55).ok_or(None)?;
    let mut bytes = communal(rt, alloc)?;
    for _ in 0..count {
        bytes = handed(rt, alloc, bytes, to)?;
    }
    Ok(bytes)
}

// How many bytes that has.
fn length_often<R: Threads + Sync>(rt: &R, alloc: Global, count: u32) -> Option<usize> {
    Some(handed_often(rt, alloc, count).ok()?.len())
}

#[test]
fn capabilities_are_handed_on(rt: HostRuntime) {
    let alloc = rt.alloc();
    let is_handed = is_written(alloc, &handed_once(&rt, alloc), HANDED);
    let length = length_often(&rt, alloc, 16);
    let often = handed_often(&rt, alloc, 17);
    let is_full = is_refused(&often, ChainRefusal::TooManyDelegations);
    assert!(rt; (is_handed, length, is_full) == (true, Some(1844), true));
}

// What comes of the communal capability, handed on for times that are none, with a key file that is missing.
fn handed_for_none<R: Threads + Sync>(rt: &R, alloc: Global) -> Written {
    let to = user(0x56).ok_or(None)?;
    let bytes = communal(rt, alloc)?;
    let name = String::from_str(alloc, "missing").map_err(|_| None)?;
    let area = times(Some(5), Some(Some(5)));
    let mut output = SureSink::new(alloc, Vec::new(alloc));
    hand_to(
        rt,
        alloc,
        bytes,
        SignerWord::LmsFile(name),
        to,
        area,
        &mut output,
    )?;
    copied(alloc, &output)
}

#[test]
fn no_times_count_as_growing(rt: HostRuntime) {
    empty_areas_count_as_growing();
    let handed = handed_for_none(&rt, rt.alloc());
    assert!(rt; is_refused(&handed, ChainRefusal::AreaGrows { at: 1 }));
}

// Noise of the draws 11 and 22.
fn two_draws(alloc: Global) -> Option<MemNoise> {
    let draws = Vec::from_slice(alloc, &[[0x11; 32], [0x22; 32]]).ok()?;
    Some(MemNoise::new(alloc, draws, Vec::new(alloc)))
}

// Whether a key is made of the noise under the name `k`, or the name is taken; None stands for any other stop.
fn makes<R: Threads + Sync>(
    rt: &R,
    alloc: Global,
    shelf: &mut SureShelf,
    noise: &mut MemNoise,
    output: &mut SureSink,
) -> Option<bool> {
    let name = String::from_str(alloc, "k").ok()?;
    match make_key(rt, alloc, name, Height::H5, shelf, noise, output) {
        Ok(_) => Some(true),
        Err(Stop::Taken { .. }) => Some(false),
        Err(_) => None,
    }
}

// The same of the draws 11 and 22.
fn makes_of_two<R: Threads + Sync>(
    rt: &R,
    alloc: Global,
    shelf: &mut SureShelf,
    output: &mut SureSink,
) -> Option<bool> {
    makes(rt, alloc, shelf, &mut two_draws(alloc)?, output)
}

// The bytes that the digits spell, with one more.
fn with_byte(alloc: Global, digits: &str, byte: u8) -> Option<Vec<u8>> {
    let mut bytes = hex::decode(alloc, digits).ok()?;
    bytes.push(byte).ok()?;
    Some(bytes)
}

// The file of the key with this next index.
fn file_at(alloc: Global, next: u8) -> Option<Vec<u8>> {
    let mut file = with_byte(alloc, FILE, 0)?;
    file.push(next).ok()?;
    Some(file)
}

// Whether the shelf has that file.
fn has_file(alloc: Global, shelf: &mut SureShelf, next: u8) -> bool {
    match (&shelf.get("k"), &file_at(alloc, next)) {
        (Ok(Some(kept)), Some(file)) => kept.as_slice() == file.as_slice(),
        _ => false,
    }
}

// Whether the bytes are the digits' own and a newline.
fn is_line(bytes: &[u8], digits: &str) -> bool {
    bytes.strip_suffix(b"\n".as_slice()) == Some(digits.as_bytes())
}

// Whether the key is made on a shelf, with its line and its file, and not once more.
fn makes_once<R: Threads + Sync>(
    rt: &R,
    alloc: Global,
    shelf: &mut SureShelf,
    output: &mut SureSink,
) -> [bool; 3] {
    let is_made = makes_of_two(rt, alloc, shelf, output) == Some(true);
    let is_kept = has_file(alloc, shelf, 0);
    let is_told = is_line(output.held(), USER);
    let is_taken = makes_of_two(rt, alloc, shelf, output) == Some(false);
    [is_made && is_told, is_kept, is_taken]
}

#[test]
fn a_key_is_made_once(rt: HostRuntime) {
    let alloc = rt.alloc();
    let mut output = SureSink::new(alloc, Vec::new(alloc));
    let found = makes_once(&rt, alloc, &mut no_files(alloc), &mut output);
    assert!(rt; found == [true; 3]);
}

// The communal capability of the key.
fn capability_of_key(alloc: Global) -> Option<Vec<u8>> {
    let mut bytes = hex::decode(alloc, COMMUNAL).ok()?;
    bytes.truncate(34);
    bytes.extend_from_slice(&with_byte(alloc, USER, 0)?).ok()?;
    Some(bytes)
}

// Whether the key file writes a row, or is spent; None stands for any other stop.
fn writes<R: Threads + Sync>(
    rt: &R,
    alloc: Global,
    shelf: &mut SureShelf,
    input: &mut SureSource,
    output: &mut SureSink,
) -> Option<bool> {
    let name = String::from_str(alloc, "k").ok()?;
    match write(
        rt,
        alloc,
        SignerWord::LmsFile(name),
        Path::empty(alloc),
        5,
        1,
        Digest([0x11; 32]),
        None,
        shelf,
        input,
        output,
    ) {
        Ok(_) => Some(true),
        Err(Stop::KeySpent) => Some(false),
        Err(_) => None,
    }
}

// The same under the key's communal capability.
fn writes_under<R: Threads + Sync>(
    rt: &R,
    alloc: Global,
    shelf: &mut SureShelf,
    output: &mut SureSink,
) -> Option<bool> {
    let mut input = SureSource::new(alloc, capability_of_key(alloc)?);
    writes(rt, alloc, shelf, &mut input, output)
}

// Whether the open signature by the first user of what is held is the row's.
fn is_row(alloc: Global, output: &SureSink) -> Option<bool> {
    let signature = OpenSigner::new(user(0x55)?)
        .sign(alloc, output.held())
        .ok()?;
    Some(signature.as_slice() == hex::decode(alloc, ROW).ok()?.as_slice())
}

// A shelf with the key file at this next index.
fn shelf_at(alloc: Global, next: u8) -> Option<SureShelf> {
    let mut contents = BTreeMap::new(alloc);
    let name = String::from_str(alloc, "k").ok()?;
    contents.insert(name, file_at(alloc, next)?).ok()?;
    Some(SureShelf::new(alloc, contents))
}

// Whether the key file's last index writes the row and then none, and the file is that of a spent key.
fn writes_once<R: Threads + Sync>(
    rt: &R,
    alloc: Global,
    shelf: &mut SureShelf,
    output: &mut SureSink,
) -> [bool; 3] {
    let is_written = writes_under(rt, alloc, shelf, output) == Some(true);
    let is_row = is_row(alloc, output) == Some(true);
    let is_spent = writes_under(rt, alloc, shelf, output) == Some(false);
    [is_written && is_row, is_spent, has_file(alloc, shelf, 32)]
}

// The same of a shelf with that key file.
fn last_writes_once<R: Threads + Sync>(rt: &R, alloc: Global) -> Option<[bool; 3]> {
    let mut output = SureSink::new(alloc, Vec::new(alloc));
    Some(writes_once(rt, alloc, &mut shelf_at(alloc, 31)?, &mut output))
}

#[test]
fn the_last_index_writes_one_row(rt: HostRuntime) {
    assert!(rt; last_writes_once(&rt, rt.alloc()) == Some([true; 3]));
}

// The index that a signer names in its signature: four bytes behind the public key.
fn index_of(alloc: Global, signer: KeySigner) -> Option<u32> {
    let mut signer = signer;
    let signature = signer.sign(alloc, b"abc").ok()?;
    let mut index = [0; 4];
    index.copy_from_slice(signature.get(56..60)?);
    Some(u32::from_be_bytes(index))
}

// Whether signers have these indices, in order.
fn have_indices(alloc: Global, signers: Vec<KeySigner>, wanted: &[u32]) -> bool {
    let mut at = 0usize;
    for signer in signers {
        if index_of(alloc, signer) != wanted.get(at).copied() {
            return false;
        }
        at = at.saturating_add(1);
    }
    at == wanted.len()
}

// Whether so many signers of the key file have these indices, or it has too few; None stands for any other stop.
fn reserves<R: Threads + Sync>(
    rt: &R,
    alloc: Global,
    shelf: &mut SureShelf,
    count: u32,
    wanted: &[u32],
) -> Option<bool>
    requires { 0 < count }
{
    let key = SignerWord::LmsFile(String::from_str(alloc, "k").ok()?);
    match reserve_signers(rt, alloc, shelf, key, count) {
        Ok(signers) => have_indices(alloc, signers, wanted).then_some(true),
        Err(Stop::KeySpent) => Some(false),
        Err(_stop) => None,
    }
}

// Whether of a key file with four indices left two signers get the first, and then no three any.
fn reserves_two<R: Threads + Sync>(rt: &R, alloc: Global, shelf: &mut SureShelf) -> [bool; 4] {
    let are_reserved = reserves(rt, alloc, shelf, 2, &[28, 29]) == Some(true);
    let is_put_back = has_file(alloc, shelf, 30);
    let are_too_few = reserves(rt, alloc, shelf, 3, &[]) == Some(false);
    [
        are_reserved,
        is_put_back,
        are_too_few,
        has_file(alloc, shelf, 30),
    ]
}

// The same of a shelf with that key file.
fn last_four_are_reserved<R: Threads + Sync>(rt: &R, alloc: Global) -> Option<[bool; 4]> {
    Some(reserves_two(rt, alloc, &mut shelf_at(alloc, 28)?))
}

#[test]
fn many_signers_have_indices_of_their_own(rt: HostRuntime) {
    assert!(rt; last_four_are_reserved(&rt, rt.alloc()) == Some([true; 4]));
}

// Noise of three draws, of which the third fails.
fn three_draws(alloc: Global) -> Option<MemNoise> {
    let draws = Vec::from_slice(alloc, &[[0x11; 32], [0x22; 32], [0x33; 32]]).ok()?;
    let fails = Vec::from_slice(alloc, &[3]).ok()?;
    Some(MemNoise::new(alloc, draws, fails))
}

// Whether so many draws of that noise are these.
fn draws(alloc: Global, count: u32, wanted: &[[u8; 32]]) -> Option<bool> {
    let mut noise = three_draws(alloc)?;
    let draws = draw_all(alloc, &mut noise, count).ok()?;
    Some(draws.as_slice() == wanted)
}

#[test]
fn many_draws_come_in_order(rt: HostRuntime) {
    let alloc = rt.alloc();
    let two = draws(alloc, 2, &[[0x11; 32], [0x22; 32]]);
    assert!(rt; (two, draws(alloc, 3, &[])) == (Some(true), None));
}
