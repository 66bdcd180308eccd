//! Parses the words after `tower` to a command on towers: names of levels, files of texts, fuel.

ghost use Rattle.som_cmd.specs.Words.{are_levels, are_texts, asked_by, compare_asked, count_before, fuel_in, is_file, is_fuel_flag, make_asked, make_with, run_on_asked, run_on_with, tower_asked};
ghost use Rattle.som_cmd_tower_make.specs.TowerMakeAnswer.{has_main};
ghost use Rattle.som_towerimage.specs.Spelling.{most_below};
ghost use Rattle.std.specs.Prelude.{codes, length, ◌≡◌, ◌≤◌};
ghost use Rattle.std.specs.Str.{bytes_eq};

use crate::words::{Command, all_files, are_names, is_file, is_main, mains, value_of};
use som_cmd_towers::TowerCommand;
use som_model::{DEFAULT_FUEL, Text};
use som_towerimage::{MAX_BELOW_CLIENT, MAX_BELOW_LIBRARY};

fn is_make(word: &Text) -> bool
    ensures { result ≡ bytes_eq word.now (codes "make") }
{
    word.is(b"make")
}

fn is_check(word: &Text) -> bool
    ensures { result ≡ bytes_eq word.now (codes "check") }
{
    word.is(b"check")
}

fn is_run(word: &Text) -> bool
    ensures { result ≡ bytes_eq word.now (codes "run") }
{
    word.is(b"run")
}

fn is_fuel_flag(word: &Text) -> bool
    ensures { result ≡ is_fuel_flag word.now }
{
    word.is(b"--fuel")
}

// How many words stand before the first name of a file.
#[tactic(auto, using(crate::proofs::TowerWordLaws::none_before, crate::proofs::TowerWordLaws::one_before, crate::proofs::TowerWordLaws::found, crate::proofs::TowerWordLaws::all_before))]
fn count_before_files(words: &[Text]) -> usize
    ensures count { result ≡ count_before is_file words.now }
    ensures within { result ≤ length words.now }
{
    let mut count = 0usize;
    for word in words {
        if is_file(word) {
            return count;
        }
        count += 1;
    }
    count
}

// How many words stand before the one that a number for the fuel follows.
#[tactic(auto, using(crate::proofs::TowerWordLaws::none_before, crate::proofs::TowerWordLaws::one_before, crate::proofs::TowerWordLaws::found, crate::proofs::TowerWordLaws::all_before))]
fn count_before_fuel(words: &[Text]) -> usize
    ensures count { result ≡ count_before is_fuel_flag words.now }
    ensures within { result ≤ length words.now }
{
    let mut count = 0usize;
    for word in words {
        if is_fuel_flag(word) {
            return count;
        }
        count += 1;
    }
    count
}

// Whether one of the words names a file with a main.
fn has_main(words: &[Text]) -> bool
    ensures { result ≡ has_main words.now }
{
    for word in words {
        if is_main(word) {
            return true;
        }
    }
    false
}

// How many levels may be below a client, or below a library.
fn most_below(client: bool) -> usize
    ensures { result ≡ most_below client }
{
    if client {
        usize::from(MAX_BELOW_CLIENT)
    } else {
        usize::from(MAX_BELOW_LIBRARY)
    }
}

// Whether there is a level at least and so many at most, and none of their names is empty.
fn are_levels(most: usize, below: &[Text]) -> bool
    ensures { result ≡ are_levels most below.now }
{
    below.len() >= 1 && below.len() <= most && are_names(below)
}

// Whether there is a file at least, and one of them at most has a main.
fn are_texts(files: &[Text]) -> bool
    ensures { result ≡ are_texts files.now }
{
    !files.is_empty() && all_files(files) && mains(files) <= 1
}

// What `tower make` asks for with a name, names of levels, and files.
fn make_with<'a>(out: &'a Text, below: &'a [Text], files: &'a [Text]) -> Command<'a>
    ensures { asked_by result ≡ make_with out.now below.now files.now }
{
    let most = most_below(has_main(files));
    if !out.is_empty() && are_levels(most, below) && are_texts(files) {
        Command::Tower(TowerCommand::Make { out, below, files })
    } else {
        Command::Bad
    }
}

// What `tower make` asks for with a name and the words after it.
fn make_asked<'a>(out: &'a Text, words: &'a [Text]) -> Command<'a>
    ensures { asked_by result ≡ make_asked out.now words.now }
{
    let levels = count_before_files(words);
    make_with(out, &words[..levels], &words[levels..])
}

// What `tower check` asks for with a name and the words after it.
fn compare_asked<'a>(old: &'a Text, words: &'a [Text]) -> Command<'a>
    ensures { asked_by result ≡ compare_asked old.now words.now }
{
    match words {
        [new] => {
            if !old.is_empty() && !new.is_empty() {
                Command::Tower(TowerCommand::Check { old, new })
            } else {
                Command::Bad
            }
        }
        _ => Command::Bad,
    }
}

// The fuel that words ask for.
fn fuel_in(words: &[Text]) -> Option<u32>
    ensures { result ≡ fuel_in words.now }
{
    match words {
        [] => Some(DEFAULT_FUEL),
        [flag, word] => {
            if is_fuel_flag(flag) {
                value_of(word.as_slice())
            } else {
                None
            }
        }
        _ => None,
    }
}

// A client on levels with this fuel, if there is one.
fn run_on_with<'a>(client: &'a Text, below: &'a [Text], fuel: Option<u32>) -> Command<'a>
    ensures { asked_by result ≡ run_on_with client.now below.now fuel }
{
    match fuel {
        Some(fuel) => {
            if !client.is_empty() && are_levels(usize::from(MAX_BELOW_CLIENT), below) {
                Command::Tower(TowerCommand::Run {
                    client,
                    below,
                    fuel,
                })
            } else {
                Command::Bad
            }
        }
        None => Command::Bad,
    }
}

// What `tower run` asks for with a name and the words after it.
fn run_on_asked<'a>(client: &'a Text, words: &'a [Text]) -> Command<'a>
    ensures { asked_by result ≡ run_on_asked client.now words.now }
{
    let levels = count_before_fuel(words);
    run_on_with(client, &words[..levels], fuel_in(&words[levels..]))
}

/// What `tower` asks for with two words and the words after these.
pub(crate) fn tower_asked<'a>(kind: &Text, name: &'a Text, words: &'a [Text]) -> Command<'a>
    ensures { asked_by result ≡ tower_asked kind.now name.now words.now }
{
    if is_make(kind) {
        make_asked(name, words)
    } else if is_check(kind) {
        compare_asked(name, words)
    } else if is_run(kind) {
        run_on_asked(name, words)
    } else {
        Command::Bad
    }
}
