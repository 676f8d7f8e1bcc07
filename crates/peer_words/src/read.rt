//! Words to commands.

ghost use Rattle.std.specs.Prelude.{◌≡◌, List, codes, not, IsErrOf};
ghost use Rattle.spelling.specs.declared.ending.End.TheVariants as ends;
ghost use Rattle.peer_words.specs.Commands.{IsOf, ReadsWords};
ghost use Rattle.peer_words.specs.Memory.{AskForMemory, AsksOf};
ghost use Rattle.peer_words.specs.Options.{MayBeSet};
ghost use Rattle.peer_words.specs.Values.{IsNameWord};
ghost use Rattle.peer_words.specs.Words.{Reads, texts};
ghost use Rattle.peer_words.specs.declared.verb.Verb.TheVariants as verbs;

use crate::area::area_of;
use crate::command::{Command, SignerWord, Usage};
use crate::name::{Name, Place};
use crate::number::Links;
use crate::options::Options;
use crate::verb::{Verb, verb_at};
use lms_core::{Height, PeerScheme};
use mc_cap::Mode;
use scheme_core::Verify;
use std::alloc::Global;
use willow_path::{Digest, End, NamespaceKey, Path, UserKey};

/// The command that the words spell: its word, and then its options in any order, each at most once, a name
/// and a value each. The error is `Refused(Usage)`, which comes only where the words spell no command, or
/// `NoMemory`, which comes only where the words ask for memory: a command is named, options of it stand behind it,
/// and all that is read of these before memory is asked for is as it should be. Names of files, places and paths
/// take memory; `join`, `show`, `gen` and `drill` never ask for any.
pub fn read_words(alloc: Global, words: &[String]) -> Result<Command, End<Usage>>
    ensures reads { ReadsWords (texts words.now) result }
    ensures asked { IsErrOf result ends.NoMemory → AskForMemory (texts words.now) }
{
    if words.is_empty() {
        return Err(End::Refused(Usage));
    }
    let (_, others) = words.split_at(1);
    let Some(verb) = verb_at(&words[0]) else {
        return Err(End::Refused(Usage));
    };
    let Some(options) = Options::read(verb, others) else {
        return Err(End::Refused(Usage));
    };
    command_of(alloc, verb, &options)
}

// The command with what its options give.
fn command_of(alloc: Global, verb: Verb, options: &Options) -> Result<Command, End<Usage>>
    ensures reads { Reads (IsOf verb options.now) result }
    ensures asked { IsErrOf result ends.NoMemory → AsksOf verb options.now }
{
    match verb {
        Verb::Join => join(alloc, options),
        Verb::Show => show(alloc, options),
        Verb::Key => key(alloc, options),
        Verb::Grant => grant(alloc, options),
        Verb::Delegate => delegate(alloc, options),
        Verb::Write => write(alloc, options),
        Verb::Gen => generate(alloc, options),
        Verb::Drill => drill(alloc, options),
        Verb::Meet => meet(alloc, options),
        Verb::Sync => sync(alloc, options),
        Verb::Serve => serve(alloc, options),
        Verb::Watch => watch(alloc, options),
    }
}

fn join(alloc: Global, options: &Options) -> Result<Command, End<Usage>>
    ensures reads { Reads (IsOf verbs.Join options.now) result }
    ensures asked { IsErrOf result ends.NoMemory → AsksOf verbs.Join options.now }
{
    let namespace = options.given::<NamespaceKey>(alloc, "--namespace")?;
    Ok(Command::Join { namespace })
}

fn show(alloc: Global, options: &Options) -> Result<Command, End<Usage>>
    ensures reads { Reads (IsOf verbs.Show options.now) result }
    ensures asked { IsErrOf result ends.NoMemory → AsksOf verbs.Show options.now }
{
    let newest = options.given_if::<u32>(alloc, "--newest")?;
    Ok(Command::Show { newest })
}

fn key(alloc: Global, options: &Options) -> Result<Command, End<Usage>>
    ensures reads { Reads (IsOf verbs.Key options.now) result }
    ensures asked { IsErrOf result ends.NoMemory → AsksOf verbs.Key options.now }
{
    let height = options.given::<Height>(alloc, "--height")?;
    let name = options.given::<Name>(alloc, "--name")?.0;
    Ok(Command::Key { name, height })
}

fn grant(alloc: Global, options: &Options) -> Result<Command, End<Usage>>
    ensures reads { Reads (IsOf verbs.Grant options.now) result }
    ensures asked { IsErrOf result ends.NoMemory → AsksOf verbs.Grant options.now }
{
    let namespace = options.given::<NamespaceKey>(alloc, "--namespace")?;
    let mode = options.given::<Mode>(alloc, "--mode")?;
    let user = options.given::<UserKey>(alloc, "--user")?;
    let key = options.given_if::<SignerWord>(alloc, "--key")?;
    options.have_own_names();
    if key.is_some() == PeerScheme.is_communal(&namespace) {
        return Err(End::Refused(Usage));
    }
    Ok(Command::Grant {
        namespace,
        mode,
        user,
        key,
    })
}

fn delegate(alloc: Global, options: &Options) -> Result<Command, End<Usage>>
    ensures reads { Reads (IsOf verbs.Delegate options.now) result }
    ensures asked { IsErrOf result ends.NoMemory → AsksOf verbs.Delegate options.now }
{
    let to = options.given::<UserKey>(alloc, "--to")?;
    let key = options.given::<SignerWord>(alloc, "--key")?;
    let area = area_of(alloc, options)?;
    Ok(Command::Delegate { key, to, area })
}

fn write(alloc: Global, options: &Options) -> Result<Command, End<Usage>>
    ensures reads { Reads (IsOf verbs.Write options.now) result }
    ensures asked { IsErrOf result ends.NoMemory → AsksOf verbs.Write options.now }
{
    let time = options.given::<u64>(alloc, "--time")?;
    let length = options.given::<u64>(alloc, "--length")?;
    let digest = options.given::<Digest>(alloc, "--digest")?;
    let subspace = options.given_if::<UserKey>(alloc, "--subspace")?;
    let key = options.given::<SignerWord>(alloc, "--key")?;
    let path = options.given::<Path>(alloc, "--path")?;
    Ok(Command::Write {
        key,
        path,
        time,
        length,
        digest,
        subspace,
    })
}

fn generate(alloc: Global, options: &Options) -> Result<Command, End<Usage>>
    ensures reads { Reads (IsOf verbs.Gen options.now) result }
    ensures asked { IsErrOf result ends.NoMemory → AsksOf verbs.Gen options.now }
{
    let rows = options.given::<u32>(alloc, "--rows")?;
    Ok(Command::Gen { rows })
}

fn drill(alloc: Global, options: &Options) -> Result<Command, End<Usage>>
    ensures reads { Reads (IsOf verbs.Drill options.now) result }
    ensures asked { IsErrOf result ends.NoMemory → AsksOf verbs.Drill options.now }
{
    let rows = options.given::<u32>(alloc, "--rows")?;
    Ok(Command::Drill { rows })
}

fn meet(alloc: Global, options: &Options) -> Result<Command, End<Usage>>
    ensures reads { Reads (IsOf verbs.Meet options.now) result }
    ensures asked { IsErrOf result ends.NoMemory → AsksOf verbs.Meet options.now }
{
    let newest = options.given_if::<u32>(alloc, "--newest")?;
    let bytes = options.given_if::<u64>(alloc, "--bytes")?;
    let left = options.given::<Name>(alloc, "--left")?.0;
    let right = options.given::<Name>(alloc, "--right")?.0;
    let left_cap = options.given::<Name>(alloc, "--left-cap")?.0;
    let right_cap = options.given::<Name>(alloc, "--right-cap")?.0;
    let left_out = options.given::<Name>(alloc, "--left-out")?.0;
    let right_out = options.given::<Name>(alloc, "--right-out")?.0;
    let area = area_of(alloc, options)?;
    Ok(Command::Meet {
        left,
        right,
        left_cap,
        right_cap,
        left_out,
        right_out,
        area,
        newest,
        bytes,
    })
}

fn sync(alloc: Global, options: &Options) -> Result<Command, End<Usage>>
    ensures reads { Reads (IsOf verbs.Sync options.now) result }
    ensures asked { IsErrOf result ends.NoMemory → AsksOf verbs.Sync options.now }
{
    let newest = options.given_if::<u32>(alloc, "--newest")?;
    let bytes = options.given_if::<u64>(alloc, "--bytes")?;
    let follow = options.asked("--follow")?;
    let image = options.given::<Name>(alloc, "--image")?.0;
    let cap = options.given::<Name>(alloc, "--cap")?.0;
    let key = options.given::<SignerWord>(alloc, "--key")?;
    let to = options.given::<Place>(alloc, "--to")?.0;
    let area = area_of(alloc, options)?;
    Ok(Command::Sync {
        image,
        cap,
        key,
        to,
        area,
        newest,
        bytes,
        follow,
    })
}

fn serve(alloc: Global, options: &Options) -> Result<Command, End<Usage>>
    ensures reads { Reads (IsOf verbs.Serve options.now) result }
    ensures asked { IsErrOf result ends.NoMemory → AsksOf verbs.Serve options.now }
{
    let links = options.given::<Links>(alloc, "--links")?.0;
    let newest = options.given_if::<u32>(alloc, "--newest")?;
    let bytes = options.given_if::<u64>(alloc, "--bytes")?;
    let follow = options.asked("--follow")?;
    let image = options.given::<Name>(alloc, "--image")?.0;
    let cap = options.given::<Name>(alloc, "--cap")?.0;
    let key = options.given::<SignerWord>(alloc, "--key")?;
    let at = options.given::<Place>(alloc, "--at")?.0;
    let log = log_of(alloc, options)?;
    let area = area_of(alloc, options)?;
    Ok(Command::Serve {
        image,
        cap,
        key,
        at,
        links,
        area,
        newest,
        bytes,
        follow,
        log,
    })
}

// The name of a log's file, where one is given.
fn log_of(alloc: Global, options: &Options) -> Result<Option<String>, End<Usage>>
    ensures { Reads (MayBeSet IsNameWord options.now (codes "--log")) result }
{
    match options.given_if::<Name>(alloc, "--log")? {
        Some(name) => Ok(Some(name.0)),
        None => Ok(None),
    }
}

fn watch(alloc: Global, options: &Options) -> Result<Command, End<Usage>>
    ensures reads { Reads (IsOf verbs.Watch options.now) result }
    ensures asked { IsErrOf result ends.NoMemory → AsksOf verbs.Watch options.now }
{
    let image = options.given::<Name>(alloc, "--image")?.0;
    let area = area_of(alloc, options)?;
    options.have_own_names();
    if area.until == Some(Some(0)) {
        return Err(End::Refused(Usage));
    }
    Ok(Command::Watch { image, area })
}
