//! The words of a command.

ghost use Rattle.std.specs.Prelude.{◌≡◌, ◌<◌, ◌≤◌, length, IfOk, IfSome};
ghost use Rattle.std.specs.List.{position};
ghost use Rattle.prove_top.specs.Words.{all_graphic, all_names, check_of, command_of, files_of, fresh_name, fresh_number, in_range, is_graphic, is_name, is_option, is_plain, map_of, option_place, options_of, prove_of, replay_of, sample_of, task_of, with_option};

use crate::numbers::plain_number;
use bit_base::text::Text;
use std::alloc::{AllocError, Global};

/// How many Verilog files a command may name beside the first.
pub(crate) const OTHERS_LIMIT: usize = 15;

/// The greatest bound and the greatest budget.
pub(crate) const BOUND_LIMIT: u64 = 32;

pub(crate) const BUDGET_LIMIT: u64 = 200_000;

/// The names of a description, a ports file and a Verilog file, and how many Verilog files are named
/// after it.
#[derive(Drop)]
pub(crate) struct FileNames {
    pub rdl: Text,
    pub ports: Text,
    pub verilog: Text,
    pub others: usize,
}

/// The options of `prove`.
#[derive(Drop)]
pub(crate) struct Options {
    pub bound: Option<u64>,
    pub budget: Option<u64>,
    pub seed: Option<u64>,
    pub cert: Option<Text>,
    pub trace: Option<Text>,
}

/// What words ask for that are in the word grammar; `Check` and `Replay` begin with the name of the
/// certificate or the trace.
#[derive(Drop)]
pub(crate) enum Command {
    Prove(FileNames, Options),
    Check(Text, FileNames),
    Replay(Text, FileNames),
    Map(Text),
    Sample(u64),
}

/// What is done with a block: its sampled run under this seed, or the run of the trace of this name.
#[derive(Drop)]
pub(crate) enum Work {
    Sample(u64),
    Replay(Text),
}

/// A command on a block that is answered: the names of its three files, what is done with it, and the name
/// of the file that the trace of a difference is stored in.
#[derive(Drop)]
pub(crate) struct BlockTask {
    pub rdl: Text,
    pub ports: Text,
    pub verilog: Text,
    pub work: Work,
    pub trace_file: Option<Text>,
}

/// A command that is answered: on a block, or the register map of the description of this name.
#[derive(Drop)]
pub(crate) enum Task {
    Block(BlockTask),
    Describe(Text),
}

/// Whether this byte may stand in a name.
fn is_graphic(byte: u8) -> bool
    ensures { result ≡ is_graphic byte }
{
    b'!' <= byte && byte <= b'~'
}

/// Whether each byte may stand in a name.
fn all_graphic(name: &[u8]) -> bool
    ensures { result ≡ all_graphic name.now }
{
    name.iter().all(|byte| is_graphic(*byte))
}

/// Whether a word begins like an option.
fn is_option(word: &Text) -> bool
    ensures { result ≡ is_option word.now }
{
    word.as_bytes().starts_with(b"--".as_slice())
}

/// Whether a word is the name of a file: 1 to 255 bytes from `!` to `~`, and no option.
fn is_name(word: &Text) -> bool
    ensures { result ≡ is_name word.now }
{
    let name = word.as_bytes();
    if name.is_empty() || name.len() > 255 {
        return false;
    }
    if is_option(word) {
        return false;
    }
    all_graphic(name)
}

/// Whether each word is the name of a file.
fn all_names(words: &[Text]) -> bool
    ensures { result ≡ all_names words.now }
{
    words.iter().all(|word| is_name(word))
}

/// The files of these names, where there are three to eighteen.
#[tactic(auto, unfolding(crate::specs::Words::files_of))]
fn files_of(alloc: Global, names: &[Text]) -> Result<Option<FileNames>, AllocError>
    ensures { IfOk result (λ files. files ≡ files_of names.now) }
{
    let [rdl, ports, verilog, others @ ..] = names else {
        return Ok(None);
    };
    if others.len() > OTHERS_LIMIT {
        return Ok(None);
    }
    if !all_names(names) {
        return Ok(None);
    }
    Ok(Some(FileNames {
        rdl: rdl.copy(alloc)?,
        ports: ports.copy(alloc)?,
        verilog: verilog.copy(alloc)?,
        others: others.len(),
    }))
}

/// The number, where it lies between these two.
fn in_range(number: Option<u64>, low: u64, high: u64) -> Option<u64>
    ensures { result ≡ in_range number low high }
{
    match number {
        Some(value) if low <= value && value <= high => Some(value),
        _ => None,
    }
}

/// The number of an option that hasn't come before.
#[tactic(auto, unfolding(crate::specs::Words::fresh_number))]
fn fresh_number(
    alloc: Global,
    before: Option<u64>,
    word: &Text,
    low: u64,
    high: u64,
) -> Result<Option<u64>, AllocError>
    ensures { IfOk result (λ number. number ≡ fresh_number before low high word.now) }
{
    if before.is_some() {
        return Ok(None);
    }
    let number = plain_number(alloc, word.as_bytes())?;
    Ok(in_range(number, low, high))
}

/// The name of an option that hasn't come before.
#[tactic(auto, unfolding(crate::specs::Words::fresh_name))]
fn fresh_name(alloc: Global, before: &Option<Text>, word: &Text) -> Result<Option<Text>, AllocError>
    ensures { IfOk result (λ name. name ≡ fresh_name before.now word.now) }
{
    if before.is_some() {
        return Ok(None);
    }
    if !is_name(word) {
        return Ok(None);
    }
    Ok(Some(word.copy(alloc)?))
}

/// The options with one more, which hasn't come before.
#[tactic(auto, unfolding(crate::specs::Words::with_option))]
fn with_option(
    alloc: Global,
    options: Options,
    name: &Text,
    word: &Text,
) -> Result<Option<Options>, AllocError>
    ensures { IfOk result (λ more. more ≡ with_option options name.now word.now) }
{
    if name.as_bytes() == b"--bound".as_slice() {
        return match fresh_number(alloc, options.bound, word, 1, BOUND_LIMIT)? {
            Some(bound) => Ok(Some(Options {
                bound: Some(bound),
                ..options
            })),
            None => Ok(None),
        };
    }
    if name.as_bytes() == b"--budget".as_slice() {
        return match fresh_number(alloc, options.budget, word, 1, BUDGET_LIMIT)? {
            Some(budget) => Ok(Some(Options {
                budget: Some(budget),
                ..options
            })),
            None => Ok(None),
        };
    }
    if name.as_bytes() == b"--seed".as_slice() {
        return match fresh_number(alloc, options.seed, word, 0, u64::MAX)? {
            Some(seed) => Ok(Some(Options {
                seed: Some(seed),
                ..options
            })),
            None => Ok(None),
        };
    }
    if name.as_bytes() == b"--cert".as_slice() {
        return match fresh_name(alloc, &options.cert, word)? {
            Some(cert) => Ok(Some(Options {
                cert: Some(cert),
                ..options
            })),
            None => Ok(None),
        };
    }
    if name.as_bytes() == b"--trace".as_slice() {
        return match fresh_name(alloc, &options.trace, word)? {
            Some(trace) => Ok(Some(Options {
                trace: Some(trace),
                ..options
            })),
            None => Ok(None),
        };
    }
    Ok(None)
}

/// The options with those of these words, pairs of a name and a value.
fn options_of(alloc: Global, words: &[Text], found: Options) -> Result<Option<Options>, AllocError>
    ensures { IfOk result (λ options. options ≡ options_of words.now found) }
{
    match words {
        [] => Ok(Some(found)),
        [name, word, rest @ ..] => {
            let next = with_option(alloc, found, name, word)?;
            match next {
                Some(more) => options_of(alloc, rest, more),
                None => Ok(None),
            }
        }
        _ => Ok(None),
    }
}

/// The place of the first word that begins like an option.
fn first_option(words: &[Text]) -> Option<usize>
    ensures place { result ≡ position is_option words.now }
    ensures inside { IfSome result (λ place. place < length words.now) }
{
    words.iter().position(|word| is_option(word))
}

/// How many words come before the first option.
fn option_place(words: &[Text]) -> usize
    ensures place { result ≡ option_place words.now }
    ensures inside { result ≤ length words.now }
{
    match first_option(words) {
        Some(place) => place,
        None => words.len(),
    }
}

/// The command `prove` of the words after it.
#[tactic(auto, unfolding(crate::specs::Words::prove_of))]
fn prove_of(alloc: Global, words: &[Text]) -> Result<Option<Command>, AllocError>
    ensures { IfOk result (λ command. command ≡ prove_of words.now) }
{
    let place = option_place(words);
    let Some(files) = files_of(alloc, &words[..place])? else {
        return Ok(None);
    };
    let none = Options {
        bound: None,
        budget: None,
        seed: None,
        cert: None,
        trace: None,
    };
    match options_of(alloc, &words[place..], none)? {
        Some(options) => Ok(Some(Command::Prove(files, options))),
        None => Ok(None),
    }
}

/// The command `check` of the words after it.
#[tactic(auto, unfolding(crate::specs::Words::check_of))]
fn check_of(alloc: Global, words: &[Text]) -> Result<Option<Command>, AllocError>
    ensures { IfOk result (λ command. command ≡ check_of words.now) }
{
    let [cert, names @ ..] = words else {
        return Ok(None);
    };
    if !is_name(cert) {
        return Ok(None);
    }
    match files_of(alloc, names)? {
        Some(files) => Ok(Some(Command::Check(cert.copy(alloc)?, files))),
        None => Ok(None),
    }
}

/// The command `replay` of the words after it.
#[tactic(auto, unfolding(crate::specs::Words::replay_of))]
fn replay_of(alloc: Global, words: &[Text]) -> Result<Option<Command>, AllocError>
    ensures { IfOk result (λ command. command ≡ replay_of words.now) }
{
    let [trace, names @ ..] = words else {
        return Ok(None);
    };
    if !is_name(trace) {
        return Ok(None);
    }
    match files_of(alloc, names)? {
        Some(files) => Ok(Some(Command::Replay(trace.copy(alloc)?, files))),
        None => Ok(None),
    }
}

/// The command `map` of the words after it.
#[tactic(auto, unfolding(crate::specs::Words::map_of))]
fn map_of(alloc: Global, words: &[Text]) -> Result<Option<Command>, AllocError>
    ensures { IfOk result (λ command. command ≡ map_of words.now) }
{
    match words {
        [rdl] if is_name(rdl) => Ok(Some(Command::Map(rdl.copy(alloc)?))),
        _ => Ok(None),
    }
}

/// The command `sample` of the words after it.
#[tactic(auto, unfolding(crate::specs::Words::sample_of))]
fn sample_of(alloc: Global, words: &[Text]) -> Result<Option<Command>, AllocError>
    ensures { IfOk result (λ command. command ≡ sample_of words.now) }
{
    let [word] = words else {
        return Ok(None);
    };
    match plain_number(alloc, word.as_bytes())? {
        Some(number) => Ok(Some(Command::Sample(number))),
        None => Ok(None),
    }
}

/// The command of the words, where they are in the word grammar.
pub(crate) fn command_of(alloc: Global, words: &[Text]) -> Result<Option<Command>, AllocError>
    ensures { IfOk result (λ command. command ≡ command_of words.now) }
{
    let [verb, rest @ ..] = words else {
        return Ok(None);
    };
    if verb.as_bytes() == b"prove".as_slice() {
        return prove_of(alloc, rest);
    }
    if verb.as_bytes() == b"check".as_slice() {
        return check_of(alloc, rest);
    }
    if verb.as_bytes() == b"replay".as_slice() {
        return replay_of(alloc, rest);
    }
    if verb.as_bytes() == b"map".as_slice() {
        return map_of(alloc, rest);
    }
    if verb.as_bytes() == b"sample".as_slice() {
        return sample_of(alloc, rest);
    }
    Ok(None)
}

/// Whether no option is given but a seed and a file for the trace.
fn is_plain(options: &Options) -> bool
    ensures { result ≡ is_plain options.now }
{
    options.bound.is_none() && options.budget.is_none() && options.cert.is_none()
}

/// The task of a command, where it is one that is answered.
pub(crate) fn task_of(command: Command) -> Option<Task>
    ensures { result ≡ task_of command }
{
    match command {
        Command::Prove(names, options) => {
            if names.others > 0 || !is_plain(&options) {
                return None;
            }
            Some(Task::Block(BlockTask {
                rdl: names.rdl,
                ports: names.ports,
                verilog: names.verilog,
                work: Work::Sample(options.seed.unwrap_or(1)),
                trace_file: options.trace,
            }))
        }
        Command::Replay(trace, names) => {
            if names.others > 0 {
                return None;
            }
            Some(Task::Block(BlockTask {
                rdl: names.rdl,
                ports: names.ports,
                verilog: names.verilog,
                work: Work::Replay(trace),
                trace_file: None,
            }))
        }
        Command::Map(rdl) => Some(Task::Describe(rdl)),
        _ => None,
    }
}
