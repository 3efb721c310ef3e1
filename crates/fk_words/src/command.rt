//! The words of the command line.
ghost use Rattle.std.specs.Prelude.{◌≡◌, ◌≤◌, ⊤, map, option_map, string_bytes, IfSome, IfNone, Some, true, false};
ghost use Rattle.fk_words.specs.Commands as commands;

use fk_model::{is_name, plain_number_up_to};
use fk_responders::Watch;

/// What the words of the command line ask for.
#[derive(Clone, Copy)]
pub enum Command<'a> {
    /// Assembles the source's text and runs it as one thread.
    Exec,
    /// Reads the source's scenario and tells its counts.
    Check,
    /// Runs the source's scenario by itself, and puts its trace under a name where one is given.
    Run(Option<&'a str>),
    /// Runs the source's scenario by the moves of the trace with this name.
    Play(&'a str),
    /// Shows the counts of the image with this name.
    Show(&'a str),
    /// Runs the scenario with so many processes by itself, and tells its line.
    Soak(u32),
    /// Runs the source's scenario by itself, and puts its trace under a name and the record of what an observer sees.
    Record(&'a str, Watch),
    /// Runs the source's scenario by the moves of the trace with this name, and its servers reply what the record with this name says.
    Replay(&'a str),
    /// Runs the source's scenario with a pager of the subtree in this slot of the root, of which so many pages are home at a time.
    Page(u8, u16),
}

/// The number of processes that a word says: 1 to 100.
fn count_of(word: &[u8]) -> Option<u32>
    ensures value { result ≡ commands.count_of word.now }
    ensures within { IfSome result (λ count. (1 ≤ count) × (count ≤ 100)) }
{
    match plain_number_up_to(100, word)? {
        0 => None,
        count => Some(count as u32),
    }
}

/// The command of a word alone.
fn command_alone(word: &str) -> Option<Command<'_>>
    ensures value { option_map commands.seen result ≡ commands.command_alone word.now }
    ensures count { IfSome result (λ command. commands.HasCount (commands.seen command)) }
{
    if word == "exec" {
        Some(Command::Exec)
    } else if word == "check" {
        Some(Command::Check)
    } else if word == "run" {
        Some(Command::Run(None))
    } else {
        None
    }
}

/// The command of a word and what it is given.
fn command_with<'a>(word: &str, given: &'a str) -> Option<Command<'a>>
    ensures value { option_map commands.seen result ≡ commands.command_with word.now given.now }
    ensures count { IfSome result (λ command. commands.HasCount (commands.seen command)) }
{
    if word == "soak" {
        match count_of(given.as_bytes()) {
            Some(count) => Some(Command::Soak(count)),
            None => None,
        }
    } else if word == "play" {
        if is_name(given.as_bytes()) {
            Some(Command::Play(given))
        } else {
            None
        }
    } else if word == "show" {
        if is_name(given.as_bytes()) {
            Some(Command::Show(given))
        } else {
            None
        }
    } else if word == "replay" {
        if is_name(given.as_bytes()) {
            Some(Command::Replay(given))
        } else {
            None
        }
    } else {
        None
    }
}

/// The command of a word with an option and a name.
fn command_traced<'a>(word: &str, option: &str, name: &'a str) -> Option<Command<'a>>
    ensures value { option_map commands.seen result ≡ commands.command_traced word.now option.now name.now }
    ensures count { IfSome result (λ command. commands.HasCount (commands.seen command)) }
{
    if word == "run" && option == "--trace" && is_name(name.as_bytes()) {
        Some(Command::Run(Some(name)))
    } else {
        None
    }
}

/// The observer that a word names.
fn watch_of(word: &str) -> Option<Watch>
    ensures { result ≡ commands.watch_of word.now }
{
    if word == "all" {
        Some(Watch::All)
    } else if word == "replies" {
        Some(Watch::Replies)
    } else if word == "said" {
        Some(Watch::Said)
    } else {
        None
    }
}

/// The command `record` with a name and an observer.
fn record_with<'a>(name: &'a str, watch: Option<Watch>) -> Option<Command<'a>>
    ensures value { option_map commands.seen result ≡ commands.record_with name.now watch }
    ensures count { IfSome result (λ command. commands.HasCount (commands.seen command)) }
{
    match watch {
        Some(watch) => {
            if is_name(name.as_bytes()) {
                Some(Command::Record(name, watch))
            } else {
                None
            }
        }
        None => None,
    }
}

/// The slot of a subtree that a word says: 0 to 239.
fn slot_of(word: &[u8]) -> Option<u8>
    ensures value { result ≡ commands.slot_of word.now }
    ensures within { IfSome result (λ slot. slot ≤ 239) }
{
    let slot = plain_number_up_to(239, word)?;
    Some(slot as u8)
}

/// How many pages may be home that a word says: 2 to 256.
fn room_of(word: &[u8]) -> Option<u16>
    ensures value { result ≡ commands.room_of word.now }
    ensures within { IfSome result (λ room. (2 ≤ room) × (room ≤ 256)) }
{
    match plain_number_up_to(256, word)? {
        0 | 1 => None,
        room => Some(room as u16),
    }
}

/// The command `page` with a slot and a number of pages.
fn page_with<'a>(slot: Option<u8>, room: Option<u16>) -> Option<Command<'a>>
    requires slot { IfSome slot (λ slot. slot ≤ 239) }
    requires room { IfSome room (λ room. (2 ≤ room) × (room ≤ 256)) }
    ensures value { option_map commands.seen result ≡ commands.page_with slot room }
    ensures count { IfSome result (λ command. commands.HasCount (commands.seen command)) }
{
    match slot {
        Some(slot) => match room {
            Some(room) => Some(Command::Page(slot, room)),
            None => None,
        },
        None => None,
    }
}

/// The command of three words.
#[tactic(auto, unfolding(crate::specs::Commands::command_of_three))]
fn command_of_three<'a>(word: &str, second: &'a str, third: &'a str) -> Option<Command<'a>>
    ensures value { option_map commands.seen result ≡ commands.command_of_three word.now second.now third.now }
    ensures count { IfSome result (λ command. commands.HasCount (commands.seen command)) }
{
    if word == "record" {
        record_with(second, watch_of(third))
    } else if word == "page" {
        page_with(slot_of(second.as_bytes()), room_of(third.as_bytes()))
    } else {
        command_traced(word, second, third)
    }
}

/// The command of these words, if they are one.
pub fn command_of(words: &[String]) -> Option<Command<'_>>
    ensures value { option_map commands.seen result ≡ commands.command_of (map string_bytes words.now) }
    ensures count { IfSome result (λ command. commands.HasCount (commands.seen command)) }
{
    match words {
        [] => None,
        [word] => command_alone(word.as_str()),
        [word, given] => command_with(word.as_str(), given.as_str()),
        [word, second, third] => {
            command_of_three(word.as_str(), second.as_str(), third.as_str())
        }
        [_, _, _, _, ..] => None,
    }
}

/// The command of these words where it is one that workers share.
pub fn shared_command(words: &[String]) -> Option<Command<'_>>
    ensures some { IfSome result (λ command. commands.command_of (map string_bytes words.now) ≡ Some (commands.seen command)) }
    ensures shared { IfSome result (λ command. commands.is_shared (Some (commands.seen command)) ≡ true) }
    ensures count { IfSome result (λ command. commands.HasCount (commands.seen command)) }
    ensures none { IfNone result (commands.is_shared (commands.command_of (map string_bytes words.now)) ≡ false) }
{
    match command_of(words) {
        Some(Command::Run(trace)) => Some(Command::Run(trace)),
        Some(Command::Soak(count)) => Some(Command::Soak(count)),
        Some(
            Command::Exec
            | Command::Check
            | Command::Play(_)
            | Command::Show(_)
            | Command::Record(..)
            | Command::Replay(_)
            | Command::Page(..),
        )
        | None => None,
    }
}
