//! The options of a command.

ghost use Rattle.std.specs.Prelude.{◌≡◌, ℕ, List, MatchBool, MatchOption, IsErrOf};
ghost use Rattle.spelling.specs.declared.ending.End.TheVariants as ends;
ghost use Rattle.peer_words.specs.Memory.{IsSetAs};
ghost use Rattle.peer_words.specs.Options.{Setting, IsValue, HaveOwnNames, AreSettings, IsSpelled, IsSet, IsSetTo, MayBeSet, IsAsked};
ghost use Rattle.peer_words.specs.Pairs.{settings_of};
ghost use Rattle.peer_words.specs.Verbs.{names_of};
ghost use Rattle.peer_words.specs.Words.{texts, Reads};

use crate::command::Usage;
use crate::verb::Verb;
use crate::word::Word;
use std::alloc::Global;
use std::marker::Model;
use willow_path::End;

/// Options that are set, each once. A contract sees their names and values, in the order of the words.
#[derive(Drop)]
pub(crate) struct Options<'a> {
    words: &'a [String],
}

impl<'a> Model for Options<'a> {
    ghost use Rattle.std.specs.Prelude.{List};
    ghost use Rattle.peer_words.specs.Options.{Setting, HaveOwnNames};
    ghost use Rattle.peer_words.specs.Pairs.{settings_of};
    ghost use Rattle.peer_words.specs.Words.{texts};

    ghost Value = { List Setting };

    ghost view = { λ o. settings_of (texts o.words.now) };

    ghost invariant = { λ o. HaveOwnNames (settings_of (texts o.words.now)) };
}

impl<'a> Options<'a> {
    /// The options that the words set, behind the word of a command; none where they are no options of it,
    /// each at most once, with a value each.
    pub(crate) fn read(verb: Verb, words: &'a [String]) -> Option<Options<'a>>
        ensures { MatchOption result ((settings : List Setting) → IsSpelled (names_of verb) (texts words.now) settings → ⊥) (IsSpelled (names_of verb) (texts words.now)) }
    {
        if words.len() % 2 != 0 {
            return None;
        }
        if !are_settings(verb, words) {
            return None;
        }
        Some(Options { words })
    }

    /// Each name stands once. This does nothing: it is called for its clause.
    pub(crate) fn have_own_names(&self)
        ensures { HaveOwnNames self.now }
    {
        let _ = &self.words;
    }

    /// The value behind a name. No other stands behind it.
    pub(crate) fn value_of(&self, name: &str) -> Option<&'a str>
        ensures { MatchOption result ((word : List ℕ) → IsSet self.now name.now word → ⊥) (λ value. IsSet self.now name.now value.now × ((word : List ℕ) → IsSet self.now name.now word → word ≡ value.now)) }
    {
        value_in(self.words, name)
    }

    /// What the value behind a name spells; refused where the name does not stand, or its value spells nothing.
    /// Memory is asked for only where that value asks.
    pub(crate) fn given<T: Word>(&self, alloc: Global, name: &str) -> Result<T, End<Usage>>
        ensures reads { Reads (IsSetTo T.spells self.now name.now) result }
        ensures asked { IsErrOf result ends.NoMemory → IsSetAs T.asks self.now name.now }
    {
        match self.value_of(name) {
            Some(word) => T::of_word(alloc, word),
            None => Err(End::Refused(Usage)),
        }
    }

    /// What the value behind a name spells, where the name stands; refused where its value spells nothing.
    /// Memory is asked for only where that value asks.
    pub(crate) fn given_if<T: Word>(
        &self,
        alloc: Global,
        name: &str,
    ) -> Result<Option<T>, End<Usage>>
        ensures reads { Reads (MayBeSet T.spells self.now name.now) result }
        ensures asked { IsErrOf result ends.NoMemory → IsSetAs T.asks self.now name.now }
    {
        match self.value_of(name) {
            Some(word) => Ok(Some(T::of_word(alloc, word)?)),
            None => Ok(None),
        }
    }

    /// Whether the name stands; refused where its value is not `yes`.
    pub(crate) fn asked(&self, name: &str) -> Result<bool, End<Usage>>
        ensures reads { Reads (IsAsked self.now name.now) result }
        ensures no_memory { IsErrOf result ends.NoMemory → ⊥ }
    {
        match self.value_of(name) {
            Some(word) => {
                if word == "yes" {
                    return Ok(true);
                }
                Err(End::Refused(Usage))
            }
            None => Ok(false),
        }
    }
}

// The first value behind a name.
fn value_in<'a>(words: &'a [String], name: &str) -> Option<&'a str>
    ensures { MatchOption result ((word : List ℕ) → IsSet (settings_of (texts words.now)) name.now word → ⊥) (λ value. IsSet (settings_of (texts words.now)) name.now value.now) }
{
    let mut left = words;
    while let [option, value, others @ ..] = left {
        if option.as_str() == name {
            return Some(value.as_str());
        }
        left = others;
    }
    None
}

// Whether the pairs of words are a name of the command's options and a value each, each name at most once.
fn are_settings(verb: Verb, words: &[String]) -> bool
    ensures { MatchBool result (AreSettings (names_of verb) (settings_of (texts words.now))) (AreSettings (names_of verb) (settings_of (texts words.now)) → ⊥) }
{
    let mut left = words;
    while let [option, value, others @ ..] = left {
        if !verb.has_option(option) {
            return false;
        }
        if !is_value(value) {
            return false;
        }
        if value_in(others, option).is_some() {
            return false;
        }
        left = others;
    }
    true
}

// Whether the word may stand as a value.
fn is_value(word: &str) -> bool
    ensures { MatchBool result (IsValue word.now) (IsValue word.now → ⊥) }
{
    match word.as_bytes() {
        [] => false,
        [first, ..] => *first != b'-',
    }
}
