//! Parses the words of the command line to a command, with its names, fuel, trace, turns or count.

ghost use Rattle.som_cmd.specs.Words.{are_clients, are_files, asked, asked_by, asked_of, client_asked, count_of, from_one_to, fuel_of, generate_asked, is_digit, is_file, is_name, is_pattern, leads_with_zero, library_asked, rounds_of, run_asked, run_with, tasks_asked, trace_in, turns_with, witness_asked};
ghost use Rattle.som_cmd_tasks.specs.Patterns.{names_client};
ghost use Rattle.som_model.specs.Lists.{every};
ghost use Rattle.som_cmd_main.specs.Traces.{shown_in};
ghost use Rattle.som_sources.specs.Sources.{is_main, mains_in};
ghost use Rattle.std.specs.Option.{option_map};
ghost use Rattle.std.specs.Prelude.{codes, length, ◌≡◌};
ghost use Rattle.std.specs.Str.{bytes_eq};

use crate::tower_words::tower_asked;
use som_cmd_run::Trace;
use som_cmd_tasks::{MAX_CLIENTS, MAX_PATTERN, MAX_ROUNDS};
use som_cmd_towers::TowerCommand;
use som_generator::MAX_CLASSES;
use som_model::{DEFAULT_FUEL, List, MAX_FUEL, Text};

/// What the words ask for. The names are lent by the words.
#[derive(Clone, Copy)]
pub enum Command<'a> {
    Run {
        client: &'a Text,
        library: &'a Text,
        fuel: u32,
        trace: Trace<'a>,
    },
    Show {
        image: &'a Text,
    },
    Check {
        images: &'a [Text],
    },
    Library {
        out: &'a Text,
        files: &'a [Text],
    },
    Client {
        out: &'a Text,
        library: &'a Text,
        files: &'a [Text],
    },
    Tasks {
        library: &'a Text,
        pattern: &'a Text,
        rounds: u32,
        clients: &'a [Text],
    },
    Witness {
        out: &'a Text,
        old: &'a Text,
        new: &'a Text,
    },
    Generate {
        count: u32,
    },
    Tower(TowerCommand<'a>),
    /// The words have no form.
    Bad,
}

fn is_run(word: &Text) -> bool
    ensures { result ≡ bytes_eq word.now (codes "run") }
{
    word.is(b"run")
}

fn is_show(word: &Text) -> bool
    ensures { result ≡ bytes_eq word.now (codes "show") }
{
    word.is(b"show")
}

fn is_check(word: &Text) -> bool
    ensures { result ≡ bytes_eq word.now (codes "check") }
{
    word.is(b"check")
}

fn is_library(word: &Text) -> bool
    ensures { result ≡ bytes_eq word.now (codes "library") }
{
    word.is(b"library")
}

fn is_client(word: &Text) -> bool
    ensures { result ≡ bytes_eq word.now (codes "client") }
{
    word.is(b"client")
}

fn is_tasks(word: &Text) -> bool
    ensures { result ≡ bytes_eq word.now (codes "tasks") }
{
    word.is(b"tasks")
}

fn is_witness(word: &Text) -> bool
    ensures { result ≡ bytes_eq word.now (codes "witness") }
{
    word.is(b"witness")
}

fn is_generate(word: &Text) -> bool
    ensures { result ≡ bytes_eq word.now (codes "generate") }
{
    word.is(b"generate")
}

fn is_tower(word: &Text) -> bool
    ensures { result ≡ bytes_eq word.now (codes "tower") }
{
    word.is(b"tower")
}

pub(crate) fn is_main(word: &Text) -> bool
    ensures { result ≡ is_main word.now }
{
    word.as_slice().ends_with(b".main")
}

pub(crate) fn is_file(word: &Text) -> bool
    ensures { result ≡ is_file word.now }
{
    let name = word.as_slice();
    name.ends_with(b".idl") || name.ends_with(b".bod") || is_main(word)
}

// How many of the words name a file with a main.
#[tactic(auto, using(crate::proofs::WordLaws::one_main, crate::proofs::WordLaws::no_main, crate::proofs::WordLaws::none_counted, crate::proofs::WordLaws::all_counted))]
pub(crate) fn mains(words: &[Text]) -> usize
    ensures { result ≡ mains_in words.now }
{
    let mut count = 0usize;
    for word in words {
        if is_main(word) {
            count += 1;
        }
    }
    count
}

// Whether each word names a file.
pub(crate) fn all_files(words: &[Text]) -> bool
    ensures { result ≡ every is_file words.now }
{
    for word in words {
        if !is_file(word) {
            return false;
        }
    }
    true
}

// Whether each word names a file, and so many of them one with a main.
fn are_files(wanted: usize, words: &[Text]) -> bool
    ensures { result ≡ are_files wanted words.now }
{
    all_files(words) && mains(words) == wanted
}

// Whether none of the words is empty.
pub(crate) fn are_names(words: &[Text]) -> bool
    ensures { result ≡ every is_name words.now }
{
    for word in words {
        if word.is_empty() {
            return false;
        }
    }
    true
}

// What a word asks for with two or more names.
fn command_with<'a>(word: &Text, names: &'a [Text]) -> Command<'a>
    ensures { asked_by result ≡ asked_of word.now names.now }
{
    if is_check(word) && are_names(names) {
        Command::Check { images: names }
    } else {
        Command::Bad
    }
}

// What `library` asks for with a name and files.
fn library_with<'a>(out: &'a Text, files: &'a [Text]) -> Command<'a>
    ensures { asked_by result ≡ library_asked out.now files.now }
{
    if !out.is_empty() && are_files(0, files) {
        Command::Library { out, files }
    } else {
        Command::Bad
    }
}

// What `client` asks for with two names and files.
fn client_with<'a>(out: &'a Text, library: &'a Text, files: &'a [Text]) -> Command<'a>
    ensures { asked_by result ≡ client_asked out.now library.now files.now }
{
    if !out.is_empty() && !library.is_empty() && are_files(1, files) {
        Command::Client {
            out,
            library,
            files,
        }
    } else {
        Command::Bad
    }
}

fn leads_with_zero(digits: &[u8]) -> bool
    ensures { result ≡ leads_with_zero digits.now }
{
    match digits {
        [first, rest @ ..] => *first == b'0' && !rest.is_empty(),
        [] => false,
    }
}

fn is_digit(byte: u8) -> bool
    ensures { result ≡ is_digit byte }
{
    byte >= b'0' && byte <= b'9'
}

// The number of a word of decimal digits, if it isn't too great a fuel.
pub(crate) fn value_of(digits: &[u8]) -> Option<u32>
    ensures { result ≡ fuel_of digits.now }
{
    if digits.is_empty() || leads_with_zero(digits) {
        return None;
    }
    let mut value: u64 = 0;
    for digit in digits {
        if !is_digit(*digit) {
            return None;
        }
        if value > u64::from(MAX_FUEL) {
            return None;
        }
        value = value * 10 + u64::from(*digit - b'0');
    }
    if value <= u64::from(MAX_FUEL) {
        Some(value as u32)
    } else {
        None
    }
}

// The number of a word of decimal digits, if it is at least one and at most this.
fn from_one_to(most: u32, digits: &[u8]) -> Option<u32>
    ensures { result ≡ from_one_to most (fuel_of digits.now) }
{
    match value_of(digits) {
        Some(number) => {
            if number >= 1 && number <= most {
                Some(number)
            } else {
                None
            }
        }
        None => None,
    }
}

// The count of a word of decimal digits, if there may be so many classes.
fn count_of(digits: &[u8]) -> Option<u32>
    ensures { result ≡ count_of digits.now }
{
    from_one_to(MAX_CLASSES, digits)
}

// The rounds of a word of decimal digits, if there may be so many.
fn rounds_of(digits: &[u8]) -> Option<u32>
    ensures { result ≡ rounds_of digits.now }
{
    from_one_to(MAX_ROUNDS, digits)
}

fn names_client(clients: usize, digit: u8) -> bool
    ensures { result ≡ names_client clients digit }
{
    digit >= b'0' && usize::from(digit - b'0') < clients
}

// Whether each byte is a digit that names one of so many clients.
fn name_clients(clients: usize, pattern: &[u8]) -> bool
    ensures { result ≡ every (names_client clients) pattern.now }
{
    for digit in pattern {
        if !names_client(clients, *digit) {
            return false;
        }
    }
    true
}

// Whether a word is a pattern of digits, no more than may be asked for, each of which names one of so many clients.
fn is_pattern(clients: usize, pattern: &Text) -> bool
    ensures { result ≡ is_pattern clients pattern.now }
{
    let digits = pattern.as_slice();
    digits.len() >= 1 && digits.len() <= MAX_PATTERN && name_clients(clients, digits)
}

// Whether there is a client or more, no more than may take turns, and none of their names is empty.
fn are_clients(clients: &[Text]) -> bool
    ensures { result ≡ are_clients clients.now }
{
    clients.len() >= 1 && clients.len() <= MAX_CLIENTS && are_names(clients)
}

// So many rounds of the turns of a pattern, if there is a number of rounds.
fn turns_with<'a>(
    library: &'a Text,
    pattern: &'a Text,
    clients: &'a [Text],
    rounds: Option<u32>,
) -> Command<'a>
    ensures { asked_by result ≡ turns_with library.now pattern.now clients.now rounds }
{
    match rounds {
        Some(rounds) => Command::Tasks {
            library,
            pattern,
            rounds,
            clients,
        },
        None => Command::Bad,
    }
}

// What `tasks` asks for with two words, and the words after these.
fn tasks_with<'a>(library: &'a Text, pattern: &'a Text, words: &'a [Text]) -> Command<'a>
    ensures { asked_by result ≡ tasks_asked library.now pattern.now words.now }
{
    match words {
        [word, clients @ ..] => {
            if !library.is_empty() && are_clients(clients) && is_pattern(clients.len(), pattern) {
                turns_with(library, pattern, clients, rounds_of(word.as_slice()))
            } else {
                Command::Bad
            }
        }
        [] => Command::Bad,
    }
}

// What `witness` asks for with two words, and the words after these.
fn witness_with<'a>(out: &'a Text, old: &'a Text, words: &'a [Text]) -> Command<'a>
    ensures { asked_by result ≡ witness_asked out.now old.now words.now }
{
    match words {
        [new] => {
            if !out.is_empty() && !old.is_empty() && !new.is_empty() {
                Command::Witness { out, old, new }
            } else {
                Command::Bad
            }
        }
        _ => Command::Bad,
    }
}

// What `generate` asks for with a word.
fn generate_with(word: &Text) -> Command<'_>
    ensures { asked_by result ≡ generate_asked word.now }
{
    match count_of(word.as_slice()) {
        Some(count) => Command::Generate { count },
        None => Command::Bad,
    }
}

// The calls that the words after the fuel ask to be shown.
fn trace_in(words: &[Text]) -> Option<Trace<'_>>
    ensures { option_map shown_in result ≡ trace_in words.now }
{
    match words {
        [] => Some(Trace::Nothing),
        [flag] => {
            if flag.is(b"--trace") {
                Some(Trace::Every)
            } else {
                None
            }
        }
        [flag, class] => {
            if flag.is(b"--trace") && !class.is_empty() {
                Some(Trace::Only(class))
            } else {
                None
            }
        }
        _ => None,
    }
}

// A run with this fuel and this trace, if there are both.
fn run_with<'a>(
    client: &'a Text,
    library: &'a Text,
    fuel: Option<u32>,
    trace: Option<Trace<'a>>,
) -> Command<'a>
    ensures { asked_by result ≡ run_with client.now library.now fuel (option_map shown_in trace.entry) }
{
    match fuel {
        Some(fuel) => match trace {
            Some(trace) => Command::Run {
                client,
                library,
                fuel,
                trace,
            },
            None => Command::Bad,
        },
        None => Command::Bad,
    }
}

// What the words after the names of a run ask for.
fn run_asked<'a>(client: &'a Text, library: &'a Text, words: &'a [Text]) -> Command<'a>
    ensures { asked_by result ≡ run_asked client.now library.now words.now }
{
    match words {
        [flag, word, rest @ ..] => {
            if flag.is(b"--fuel") {
                run_with(client, library, value_of(word.as_slice()), trace_in(rest))
            } else {
                run_with(client, library, Some(DEFAULT_FUEL), trace_in(words))
            }
        }
        _ => run_with(client, library, Some(DEFAULT_FUEL), trace_in(words)),
    }
}

/// The command of these words.
pub fn command_of(words: &List<Text>) -> Command<'_>
    ensures { asked_by result ≡ asked words.now }
{
    match words.as_slice() {
        [word, image] => {
            if is_show(word) && !image.is_empty() {
                Command::Show { image }
            } else if is_generate(word) {
                generate_with(image)
            } else {
                Command::Bad
            }
        }
        [word, client, library, rest @ ..] => {
            if is_run(word) && !client.is_empty() && !library.is_empty() {
                run_asked(client, library, rest)
            } else if is_library(word) {
                library_with(client, &words.as_slice()[2..])
            } else if is_client(word) {
                client_with(client, library, rest)
            } else if is_tasks(word) {
                tasks_with(client, library, rest)
            } else if is_witness(word) {
                witness_with(client, library, rest)
            } else if is_tower(word) {
                tower_asked(client, library, rest)
            } else {
                command_with(word, &words.as_slice()[1..])
            }
        }
        _ => Command::Bad,
    }
}
