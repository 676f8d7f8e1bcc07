//! The one call that `main` makes.

ghost use Rattle.std.specs.Prelude.{◌≡◌, ℕ, List, ◌≤◌, ◌↔◌, IsTrue};
ghost use Rattle.peer_run.specs.Locals.{IsLocal, IsMaker, IsServer};
ghost use Rattle.sub_hub.specs.Seen.{hub_seen};
ghost use Rattle.peer_stage.specs.World.{World};
ghost use Rattle.peer_words.specs.Words.{texts};
ghost use Rattle.peer_words.specs.Commands.{IsWords};
ghost use Rattle.peer_run.specs.Deeds.{deed_of};
ghost use Rattle.peer_run.specs.Hosting.{calling_words, serving_words};
ghost use Rattle.peer_run.specs.Run.{RunsWords};
ghost use Rattle.peer_run.specs.Promises.{KeepsPromises};

use crate::drilling::drill;
use crate::judging::RowChecker;
use crate::meeting::{MeetWords, meet};
use crate::sessions::{HostWords, host};
use area_interest::Interest;
use peer_make::{delegate, grant, make_key, write};
use peer_report::end_run;
use peer_rows::{generate, join, show, watch};
use peer_stage::{Done, Stop};
use peer_words::{AreaWords, Command, SignerWord, Usage, read_words};
use spelling::End;
use std::alloc::Global;
use std::sync::Wait;
use std::thread::Threads;
use sub_hub::Hub;
use willow_outside::{Bay, Door, Noise, Shelf, Sink, Source};

/// Runs a command that calls nobody over the objects that it calls.
fn run_command<R: Threads + Sync, H: Shelf, I: Source, O: Sink, N: Noise>(
    rt: &R,
    alloc: Global,
    command: Command,
    shelf: &mut H,
    input: &mut I,
    output: &mut O,
    noise: &mut N,
    hub: &mut Hub,
) -> Result<Done, Stop>
    requires words { (words : List (List ℕ)) × IsWords words command }
    requires local { IsLocal command }
    ensures { (others : World) → (deed_of command).meets
        (record others { shelf = H.facts shelf.old; input = I.facts input.old; output = O.facts output.old; noise = N.facts noise.old; hub = hub_seen (λ w. told (w.vtable, w.value)) hub.old })
        (record others { shelf = H.facts shelf.new; input = I.facts input.new; output = O.facts output.new; noise = N.facts noise.new; hub = hub_seen (λ w. told (w.vtable, w.value)) hub.new }) result }
{
    match command {
        Command::Join { namespace } => {
            join::<RowChecker, R, I, O>(rt, alloc, &namespace, input, output)
        }
        Command::Show { newest } => {
            show::<RowChecker, R, I, O>(rt, alloc, newest, input, output)
        }
        Command::Gen { rows } => generate(rt, alloc, rows, output),
        Command::Drill { rows } => drill(rt, alloc, rows, output),
        Command::Meet {
            left,
            right,
            left_cap,
            right_cap,
            left_out,
            right_out,
            area,
            newest,
            bytes,
        } => {
            let words = MeetWords {
                left,
                right,
                left_cap,
                right_cap,
                left_out,
                right_out,
                area,
                limits: Interest { newest, bytes },
            };
            meet(rt, alloc, words, shelf, output)
        }
        Command::Sync { .. } | Command::Serve { .. } => unreachable!(),
        Command::Watch { image, area } => {
            watch::<RowChecker, R, H, I>(rt, alloc, image, &area, shelf, input, hub)
        }
        made => run_maker(rt, alloc, made, shelf, input, output, noise),
    }
}

/// Runs a command that makes a key, a capability or a row.
fn run_maker<R: Threads + Sync, H: Shelf, I: Source, O: Sink, N: Noise>(
    rt: &R,
    alloc: Global,
    command: Command,
    shelf: &mut H,
    input: &mut I,
    output: &mut O,
    noise: &mut N,
) -> Result<Done, Stop>
    requires words { (words : List (List ℕ)) × IsWords words command }
    requires maker { IsMaker command }
    ensures { (others : World) → (deed_of command).meets
        (record others { shelf = H.facts shelf.old; input = I.facts input.old; output = O.facts output.old; noise = N.facts noise.old })
        (record others { shelf = H.facts shelf.new; input = I.facts input.new; output = O.facts output.new; noise = N.facts noise.new }) result }
{
    match command {
        Command::Key { name, height } => make_key(rt, alloc, name, height, shelf, noise, output),
        Command::Grant {
            namespace,
            mode,
            user,
            key,
        } => grant(rt, alloc, namespace, mode, user, key, shelf, output),
        Command::Delegate { key, to, area } => delegate(
            rt, alloc, key, to, area, shelf, input, output,
        ),
        Command::Write {
            key,
            path,
            time,
            length,
            digest,
            subspace,
        } => write(
            rt, alloc, key, path, time, length, digest, subspace, shelf, input, output,
        ),
        _ => unreachable!(),
    }
}

/// Whether a command calls nobody and waits for nobody.
fn is_local(command: &Command) -> bool
    ensures { IsTrue result ↔ IsLocal command.now }
{
    !matches!(command, Command::Sync { .. } | Command::Serve { .. })
}

/// A link to the place is called for.
fn calling_words(
    image: String,
    cap: String,
    key: SignerWord,
    to: String,
    area: AreaWords,
    limits: Interest,
    follow: bool,
) -> HostWords
    ensures { result ≡ calling_words image cap key to area limits follow }
{
    HostWords {
        awaited: false,
        image,
        cap,
        key,
        place: to,
        links: 1,
        area,
        limits,
        follow,
        log: None,
    }
}

/// So many links are waited for at the place, with a log file where one is named.
fn serving_words(
    image: String,
    cap: String,
    key: SignerWord,
    at: String,
    links: u32,
    area: AreaWords,
    limits: Interest,
    follow: bool,
    log: Option<String>,
) -> HostWords
    ensures { result ≡ serving_words image cap key at links area limits follow log }
{
    HostWords {
        awaited: true,
        image,
        cap,
        key,
        place: at,
        links,
        area,
        limits,
        follow,
        log,
    }
}

/// Runs a command that talks to others over links.
fn run_afar<R: Wait + Threads + Sync, H: Shelf, D: Door, N: Noise, B: Bay>(
    rt: &R,
    alloc: Global,
    command: Command,
    shelf: &mut H,
    door: &mut D,
    noise: &mut N,
    bay: &mut B,
    hub: &mut Hub,
) -> Result<Done, Stop>
    requires words { (words : List (List ℕ)) × IsWords words command }
    requires afar { IsLocal command → ⊥ }
    ensures { (others : World) → (deed_of command).meets
        (record others { shelf = H.facts shelf.old; door = D.facts door.old; noise = N.facts noise.old; bay = B.facts bay.old; hub = hub_seen (λ w. told (w.vtable, w.value)) hub.old })
        (record others { shelf = H.facts shelf.new; door = D.facts door.new; noise = N.facts noise.new; bay = B.facts bay.new; hub = hub_seen (λ w. told (w.vtable, w.value)) hub.new }) result }
{
    match command {
        Command::Sync {
            image,
            cap,
            key,
            to,
            area,
            newest,
            bytes,
            follow,
        } => {
            let limits = Interest { newest, bytes };
            let words = calling_words(image, cap, key, to, area, limits, follow);
            host(rt, alloc, words, shelf, door, noise, bay, hub)
        }
        server => run_server(rt, alloc, server, shelf, door, noise, bay, hub),
    }
}

/// Runs a command that waits for those who come.
fn run_server<R: Wait + Threads + Sync, H: Shelf, D: Door, N: Noise, B: Bay>(
    rt: &R,
    alloc: Global,
    command: Command,
    shelf: &mut H,
    door: &mut D,
    noise: &mut N,
    bay: &mut B,
    hub: &mut Hub,
) -> Result<Done, Stop>
    requires words { (words : List (List ℕ)) × IsWords words command }
    requires server { IsServer command }
    ensures { (others : World) → (deed_of command).meets
        (record others { shelf = H.facts shelf.old; door = D.facts door.old; noise = N.facts noise.old; bay = B.facts bay.old; hub = hub_seen (λ w. told (w.vtable, w.value)) hub.old })
        (record others { shelf = H.facts shelf.new; door = D.facts door.new; noise = N.facts noise.new; bay = B.facts bay.new; hub = hub_seen (λ w. told (w.vtable, w.value)) hub.new }) result }
{
    match command {
        Command::Serve {
            image,
            cap,
            key,
            at,
            links,
            area,
            newest,
            bytes,
            follow,
            log,
        } => {
            let limits = Interest { newest, bytes };
            let words = serving_words(image, cap, key, at, links, area, limits, follow, log);
            host(rt, alloc, words, shelf, door, noise, bay, hub)
        }
        _ => unreachable!(),
    }
}

/// Runs a command that words ask for and that calls nobody, over the objects outside, and answers its status, as `peer_run`
/// does. It waits for nobody.
pub fn run_local<R: Threads + Sync, H: Shelf, I: Source, O: Sink, E: Sink, N: Noise>(
    rt: &R,
    alloc: Global,
    command: Command,
    shelf: &mut H,
    input: &mut I,
    output: &mut O,
    report: &mut E,
    noise: &mut N,
    hub: &mut Hub,
) -> u8
    requires words { (words : List (List ℕ)) × IsWords words command }
    requires local { IsLocal command }
    ensures promises { (words : List (List ℕ)) (others : World) → IsWords words command → KeepsPromises (record {
      words = words;
      old = record others { shelf = H.facts shelf.old; input = I.facts input.old; output = O.facts output.old; report = E.facts report.old; noise = N.facts noise.old; hub = hub_seen (λ w. told (w.vtable, w.value)) hub.old };
      new = record others { shelf = H.facts shelf.new; input = I.facts input.new; output = O.facts output.new; report = E.facts report.new; noise = N.facts noise.new; hub = hub_seen (λ w. told (w.vtable, w.value)) hub.new };
      status = result;
    }) }
{
    let end = run_command(rt, alloc, command, shelf, input, output, noise, hub);
    end_run(alloc, &end, report)
}

/// Runs what the words ask for, over the objects outside, and answers its status: 0, or 1 where a row was not
/// authorised or what was to be made is refused; 2 for words that are no command that is built; 3 or 4 where
/// reading or writing failed; 5 for bytes that are not in their grammar, a name that is missing or taken; 6 where
/// a session is refused, before it begins or in it; 7 for want of memory; 8 where a row met a full log; 9 for a key
/// file without an index left. The report gets the lines of that end. What a command does not call stays as it was.
///
/// Those who watch in the hub are told by `watch` and by `serve`: each begins the hub at the log of the image, with the area of
/// its words (a server once it listens, with the area that it asks for), and tells of the rows that come into the log behind it.
/// The hub's front is the length of the log behind a `watch` with 0 or 1, and a `serve` that put an image. By any other command
/// the hub stays as it was.
///
/// A `serve` with a log file opens its name at the bay, and gives the disk back however it ends. It keeps each row that comes into its
/// log, behind those that the file held, and these stand behind the image's in the log with which it begins. By any other command
/// the bay stays as it was.
///
/// In `sync` it waits for the one that it calls, and in `serve` for those who come. Of every other command it answers what `run_local` answers.
pub fn peer_run<
    R: Wait + Threads + Sync,
    H: Shelf,
    I: Source,
    O: Sink,
    E: Sink,
    D: Door,
    N: Noise,
    B: Bay,
>(
    rt: &R,
    alloc: Global,
    words: &[String],
    shelf: &mut H,
    input: &mut I,
    output: &mut O,
    report: &mut E,
    door: &mut D,
    noise: &mut N,
    bay: &mut B,
    hub: &mut Hub,
) -> u8
    ensures promises { KeepsPromises (record {
      words = texts words.now;
      old = record {
        shelf = H.facts shelf.old;
        input = I.facts input.old;
        output = O.facts output.old;
        report = E.facts report.old;
        door = D.facts door.old;
        noise = N.facts noise.old;
        hub = hub_seen (λ w. told (w.vtable, w.value)) hub.old;
        bay = B.facts bay.old;
      };
      new = record {
        shelf = H.facts shelf.new;
        input = I.facts input.new;
        output = O.facts output.new;
        report = E.facts report.new;
        door = D.facts door.new;
        noise = N.facts noise.new;
        hub = hub_seen (λ w. told (w.vtable, w.value)) hub.new;
        bay = B.facts bay.new;
      };
      status = result;
    }) }
{
    match read_words(alloc, words) {
        Ok(command) => {
            if is_local(&command) {
                run_local(rt, alloc, command, shelf, input, output, report, noise, hub)
            } else {
                let end = run_afar(rt, alloc, command, shelf, door, noise, bay, hub);
                end_run(alloc, &end, report)
            }
        }
        Err(End::Refused(Usage)) => end_run(alloc, &Err(Stop::Usage), report),
        Err(End::NoMemory) => end_run(alloc, &Err(Stop::NoMemory), report),
    }
}
