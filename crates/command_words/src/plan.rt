ghost use Rattle.std.specs.Prelude.{◌≡◌, ◌⊎◌, IfOk, MatchResult, None, Some, [], codes, map, option_and_then, option_map};
ghost use Rattle.std.specs.List.{AllByRecursion};
ghost use Rattle.std.specs.Str.{IsUtf8};
ghost use Rattle.command_words.specs.Forms.{Answers, check_plan, dump_plan, form_by, form_of, gen_options, gen_plan, init_options, init_plan, only_positional, serve_options, serve_plan, session_plan};
ghost use Rattle.command_words.specs.Lines.{Line, line_of, value_in};
ghost use Rattle.command_words.specs.declared.plan.Usage.TheVariants.{OutOfMemory};

use crate::line::{POSITIONAL, read};
use crate::values::{block_size, guid, number, number_or};
use crate::word::Word;
use std::alloc::{AllocError, Global};

/// What the words of a command line ask for.
#[derive(Drop)]
pub enum Plan {
    /// Serve standard input over the tables of a file, and commit to it.
    Session {
        path: Word,
    },
    /// Read the tables of a file, and print its two lines or its first damage.
    Check {
        path: Word,
    },
    /// Read the tables of a file, and print all of them, or its first damage.
    Dump {
        path: Word,
    },
    /// Make a new file, with blocks of this size, and print its two lines.
    Init {
        path: Word,
        block: u32,
        guid: [u8; 16],
        signature: u32,
    },
    /// Serve a session that is drawn from a seed, of so many units, and print what came of it.
    Gen {
        units: u32,
        seed: u32,
    },
    /// Serve so many sessions that come to a socket, by so many workers, over the tables of a file.
    Serve {
        path: Word,
        listen: Word,
        sessions: u32,
        workers: u32,
    },
}

/// Why words have no plan.
#[derive(Clone, Copy, Debug, PartialEq, Eq)]
pub enum Usage {
    /// The words are no form of the program.
    NotAForm,
    OutOfMemory,
}

impl From<AllocError> for Usage {
    ghost from_gives = { λ _ why. why ≡ OutOfMemory };

    fn from(_e: AllocError) -> Usage {
        Usage::OutOfMemory
    }
}

/// The plan that words stand for. The program's own name is not among them.
pub fn plan_of(alloc: Global, words: &[Word]) -> Result<Plan, Usage>
    ensures { Answers (form_of words.now) result }
{
    let texts = texts_of(alloc, words)?;
    match texts.as_slice() {
        [command, words @ ..] => plan_by(alloc, command, words),
        [] => Err(Usage::NotAForm),
    }
}

/// The words as texts.
pub(crate) fn texts_of<'a>(alloc: Global, words: &'a [Word]) -> Result<Vec<&'a str>, AllocError>
    ensures same { IfOk result (λ texts. map (λ w. w.now) texts.items ≡ words.now) }
    ensures texts { IfOk result (λ texts. AllByRecursion IsUtf8 (map (λ w. w.now) texts.items)) }
{
    let mut texts = Vec::with_capacity(alloc, words.len())?;
    for word in words {
        texts.push(word.as_str())?;
    }
    Ok(texts)
}

fn plan_by<'a>(alloc: Global, command: &str, words: &'a [&'a str]) -> Result<Plan, Usage>
    requires { AllByRecursion IsUtf8 (map (λ w. w.now) words.now) }
    ensures { Answers (form_by command.now (map (λ w. w.now) words.now)) result }
{
    match command {
        "session" => session(alloc, words),
        "check" => check(alloc, words),
        "dump" => dump(alloc, words),
        "init" => init(alloc, words),
        "gen" => generate(alloc, words),
        "serve" => serve(alloc, words),
        _ => Err(Usage::NotAForm),
    }
}

fn session<'a>(alloc: Global, words: &'a [&'a str]) -> Result<Plan, Usage>
    requires { AllByRecursion IsUtf8 (map (λ w. w.now) words.now) }
    ensures { Answers (option_and_then session_plan (line_of [] (map (λ w. w.now) words.now)))
        result }
{
    let path = only_path(alloc, words)?;
    Ok(Plan::Session { path })
}

fn check<'a>(alloc: Global, words: &'a [&'a str]) -> Result<Plan, Usage>
    requires { AllByRecursion IsUtf8 (map (λ w. w.now) words.now) }
    ensures { Answers (option_and_then check_plan (line_of [] (map (λ w. w.now) words.now)))
        result }
{
    let path = only_path(alloc, words)?;
    Ok(Plan::Check { path })
}

fn dump<'a>(alloc: Global, words: &'a [&'a str]) -> Result<Plan, Usage>
    requires { AllByRecursion IsUtf8 (map (λ w. w.now) words.now) }
    ensures { Answers (option_and_then dump_plan (line_of [] (map (λ w. w.now) words.now)))
        result }
{
    let path = only_path(alloc, words)?;
    Ok(Plan::Dump { path })
}

// The words of an `init`: its path, and the values of its options.
#[derive(Drop)]
struct InitWords<'a> {
    path: &'a str,
    block: Option<&'a str>,
    guid: Option<&'a str>,
    signature: Option<&'a str>,
}

fn init<'a>(alloc: Global, words: &'a [&'a str]) -> Result<Plan, Usage>
    requires { AllByRecursion IsUtf8 (map (λ w. w.now) words.now) }
    ensures { Answers (option_and_then init_plan
        (line_of init_options (map (λ w. w.now) words.now))) result }
{
    let options = ["block", "guid", "signature"];
    let given = init_words(alloc, options.as_slice(), words)?;
    let block = block_size(given.block)?;
    let guid = guid(given.guid)?;
    let signature = number_or(given.signature, 0, u32::MAX, 0)?;
    let path = Word::new(String::from_str(alloc, given.path)?);
    Ok(Plan::Init {
        path,
        block,
        guid,
        signature,
    })
}

fn init_words<'a>(
    alloc: Global,
    options: &'a [&'a str],
    words: &'a [&'a str],
) -> Result<InitWords<'a>, Usage>
    requires options { map (λ o. o.now) options.now ≡ init_options }
    requires texts { AllByRecursion IsUtf8 (map (λ w. w.now) words.now) }
    ensures { let line_is = line_of init_options (map (λ w. w.now) words.now) in
        MatchResult result
        (λ given. (line : Line) × (line_is ≡ Some line)
        × (only_positional line ≡ Some given.path.now)
        × (value_in (codes "block") line.options ≡ option_map (λ t. t.now) given.block)
        × (value_in (codes "guid") line.options ≡ option_map (λ t. t.now) given.guid)
        × (value_in (codes "signature") line.options
        ≡ option_map (λ t. t.now) given.signature))
        (λ why. (why ≡ Usage.OutOfMemory)
        ⊎ ((why ≡ Usage.NotAForm) × (option_and_then only_positional line_is ≡ None))) }
{
    let matches = read(alloc, options, words)?;
    let Some([file]) = matches.get_strs(POSITIONAL) else {
        return Err(Usage::NotAForm);
    };
    Ok(InitWords {
        path: file,
        block: matches.get_str("block"),
        guid: matches.get_str("guid"),
        signature: matches.get_str("signature"),
    })
}

fn generate<'a>(alloc: Global, words: &'a [&'a str]) -> Result<Plan, Usage>
    requires { AllByRecursion IsUtf8 (map (λ w. w.now) words.now) }
    ensures { Answers (option_and_then gen_plan (line_of gen_options (map (λ w. w.now) words.now)))
        result }
{
    let matches = read(alloc, &["seed"], words)?;
    let Some([units]) = matches.get_strs(POSITIONAL) else {
        return Err(Usage::NotAForm);
    };
    let units = number(units, 1, 10_000)?;
    let seed = number_or(matches.get_str("seed"), 0, u32::MAX, 1)?;
    Ok(Plan::Gen { units, seed })
}

fn serve<'a>(alloc: Global, words: &'a [&'a str]) -> Result<Plan, Usage>
    requires { AllByRecursion IsUtf8 (map (λ w. w.now) words.now) }
    ensures { Answers (option_and_then serve_plan
        (line_of serve_options (map (λ w. w.now) words.now))) result }
{
    let matches = read(alloc, &["listen", "sessions", "workers"], words)?;
    let Some([path]) = matches.get_strs(POSITIONAL) else {
        return Err(Usage::NotAForm);
    };
    let listen = matches.get_str("listen").ok_or(Usage::NotAForm)?;
    let sessions = matches.get_str("sessions").ok_or(Usage::NotAForm)?;
    let sessions = number(sessions, 1, u32::MAX)?;
    let workers = number_or(matches.get_str("workers"), 1, 64, 4)?;
    let path = Word::new(String::from_str(alloc, path)?);
    let listen = Word::new(String::from_str(alloc, listen)?);
    Ok(Plan::Serve {
        path,
        listen,
        sessions,
        workers,
    })
}

// The one positional of words without options.
fn only_path<'a>(alloc: Global, words: &'a [&'a str]) -> Result<Word, Usage>
    requires { AllByRecursion IsUtf8 (map (λ w. w.now) words.now) }
    ensures { Answers (option_and_then only_positional
        (line_of [] (map (λ w. w.now) words.now))) result }
{
    let matches = read(alloc, &[], words)?;
    let Some([path]) = matches.get_strs(POSITIONAL) else {
        return Err(Usage::NotAForm);
    };
    Ok(Word::new(String::from_str(alloc, path)?))
}
