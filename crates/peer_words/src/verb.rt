//! The words that name the commands.

ghost use Rattle.std.specs.Prelude.{◌≡◌};
ghost use Rattle.std.specs.List.{list_any};
ghost use Rattle.std.specs.Str.{bytes_eq};
ghost use Rattle.peer_words.specs.Verbs.{verb_at, area_names, interest_names, meet_names, serve_names, names_of};
ghost use Rattle.peer_words.specs.declared.verb.Verb.TheVariants as verbs;

/// Which command the words ask for.
#[derive(Clone, Copy)]
pub(crate) enum Verb {
    Join,
    Show,
    Key,
    Grant,
    Delegate,
    Write,
    Gen,
    Drill,
    Meet,
    Sync,
    Serve,
    Watch,
}

/// The command that the word names; none where it names none.
pub(crate) fn verb_at(word: &str) -> Option<Verb>
    ensures { result ≡ verb_at word.now }
{
    match word {
        "join" => Some(Verb::Join),
        "show" => Some(Verb::Show),
        "key" => Some(Verb::Key),
        "grant" => Some(Verb::Grant),
        "delegate" => Some(Verb::Delegate),
        "write" => Some(Verb::Write),
        "gen" => Some(Verb::Gen),
        "drill" => Some(Verb::Drill),
        "meet" => Some(Verb::Meet),
        "sync" => Some(Verb::Sync),
        "serve" => Some(Verb::Serve),
        "watch" => Some(Verb::Watch),
        _ => None,
    }
}

impl Verb {
    /// Whether it is the name of an option of this command.
    pub(crate) fn has_option(self, name: &str) -> bool
        ensures { result ≡ list_any (λ option. bytes_eq option name.now) (names_of self) }
    {
        match self {
            Verb::Join => ["--namespace"].contains(&name),
            Verb::Show => ["--newest"].contains(&name),
            Verb::Key => ["--name", "--height"].contains(&name),
            Verb::Grant => ["--namespace", "--mode", "--user", "--key"].contains(&name),
            Verb::Delegate => ["--key", "--to"].contains(&name) || is_area_option(name),
            Verb::Write => is_write_option(name),
            Verb::Gen => ["--rows"].contains(&name),
            Verb::Drill => ["--rows"].contains(&name),
            Verb::Meet => {
                is_meet_option(name) || (is_interest_option(name) || is_area_option(name))
            }
            Verb::Sync => {
                ["--image", "--cap", "--key", "--to", "--follow"].contains(&name)
                    || (is_interest_option(name) || is_area_option(name))
            }
            Verb::Serve => is_serve_option(name)
                || (is_interest_option(name) || is_area_option(name)),
            Verb::Watch => ["--image"].contains(&name) || is_area_option(name),
        }
    }
}

// Whether it is the name of an option that says an area.
fn is_area_option(name: &str) -> bool
    ensures { result ≡ list_any (λ option. bytes_eq option name.now) area_names }
{
    ["--subspace", "--under", "--from", "--until"].contains(&name)
}

// Whether it is the name of an option that says how much is offered.
fn is_interest_option(name: &str) -> bool
    ensures { result ≡ list_any (λ option. bytes_eq option name.now) interest_names }
{
    ["--newest", "--bytes"].contains(&name)
}

// Whether it is the name of an option of `serve` alone.
fn is_serve_option(name: &str) -> bool
    ensures { result ≡ list_any (λ option. bytes_eq option name.now) serve_names }
{
    [
        "--image", "--cap", "--key", "--at", "--links", "--follow", "--log",
    ]
    .contains(&name)
}

// Whether it is the name of an option of `write`.
fn is_write_option(name: &str) -> bool
    ensures { result ≡ list_any (λ option. bytes_eq option name.now) (names_of verbs.Write) }
{
    [
        "--key",
        "--path",
        "--time",
        "--length",
        "--digest",
        "--subspace",
    ]
    .contains(&name)
}

// Whether it is the name of an option of `meet` that names a file.
fn is_meet_option(name: &str) -> bool
    ensures { result ≡ list_any (λ option. bytes_eq option name.now) meet_names }
{
    [
        "--left",
        "--right",
        "--left-cap",
        "--right-cap",
        "--left-out",
        "--right-out",
    ]
    .contains(&name)
}
