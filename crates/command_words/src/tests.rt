//! Command lines, each with the plan that it stands for, and lines of a command with options.

use crate::line::{POSITIONAL, read};
use crate::plan::{Plan, Usage, plan_of, texts_of};
use crate::word::Word;
use clap::ArgMatches;
use std::alloc::Global;
use std::test::Fail;

// The words of a line, one behind each space: two spaces have an empty word between them.
fn words_of(alloc: Global, line: &str) -> Result<Vec<Word>, Fail> {
    let mut words = Vec::new(alloc);
    for word in line.split(' ') {
        words.push(Word::new(String::from_str(alloc, word)?))?;
    }
    Ok(words)
}

// What the words ask for, as a text.
fn asked(alloc: Global, words: &[Word]) -> Result<String, Fail> {
    match plan_of(alloc, words) {
        Ok(Plan::Session { path }) => Ok(format!(in alloc; "session {}", path.as_str())?),
        Ok(Plan::Check { path }) => Ok(format!(in alloc; "check {}", path.as_str())?),
        Ok(Plan::Dump { path }) => Ok(format!(in alloc; "dump {}", path.as_str())?),
        Ok(
            Plan::Init {
                path,
                block,
                guid,
                signature,
            },
        ) => {
            let guid = hex::encode(alloc, guid.as_slice())?;
            Ok(format!(in alloc;
                "init {} {block} {} {signature}",
                path.as_str(),
                guid.as_str()
            )?)
        }
        Ok(Plan::Gen { units, seed }) => Ok(format!(in alloc; "gen {units} {seed}")?),
        Ok(
            Plan::Serve {
                path,
                listen,
                sessions,
                workers,
            },
        ) => Ok(format!(in alloc;
            "serve {} {} {sessions} {workers}",
            path.as_str(),
            listen.as_str()
        )?),
        Err(Usage::NotAForm) => Ok(String::from_str(alloc, "")?),
        Err(Usage::OutOfMemory) => Ok(String::from_str(alloc, "out of memory")?),
    }
}

// Lines, each with the plan that it stands for.
const PLANS: &str = "\
    session P => session P\n\
    session - => session -\n\
    session -- P => session P\n\
    session -- -- => session --\n\
    session session => session session\n\
    check P => check P\n\
    check -- P => check P\n\
    check P -- => check P\n\
    check - => check -\n\
    check -- - => check -\n\
    check -- -P => check -P\n\
    check -- -- => check --\n\
    check -- --help => check --help\n\
    check -- --P=Q => check --P=Q\n\
    check help => check help\n\
    check check => check check\n\
    check session => check session\n\
    check P=Q => check P=Q\n\
    check =P => check =P\n\
    check = => check =\n\
    check a-b => check a-b\n\
    check /a/b.pdb => check /a/b.pdb\n\
    check é => check é\n\
    check \u{2212}x => check \u{2212}x\n\
    dump P => dump P\n\
    dump - => dump -\n\
    dump -- -P => dump -P\n\
    dump P=Q -- => dump P=Q\n\
    dump check => dump check\n\
    init P => init P 4096 00000000000000000000000000000000 0\n\
    init --block 512 P => init P 512 00000000000000000000000000000000 0\n\
    init P --block=0512 => init P 512 00000000000000000000000000000000 0\n\
    init --block 0000032768 P => init P 32768 00000000000000000000000000000000 0\n\
    init P --guid 00112233445566778899aAbBcCdDeEfF => init P 4096 00112233445566778899aabbccddeeff 0\n\
    init P --signature 4294967295 => init P 4096 00000000000000000000000000000000 4294967295\n\
    init --signature=7 --guid=000000000000000000000000000000ff --block=1024 -- -P => init -P 1024 000000000000000000000000000000ff 7\n\
    gen 1 => gen 1 1\n\
    gen 10000 => gen 10000 1\n\
    gen 0000000001 => gen 1 1\n\
    gen -- 2000 => gen 2000 1\n\
    gen 2 --seed 0 => gen 2 0\n\
    gen --seed=4294967295 2 => gen 2 4294967295\n\
    serve P --listen S --sessions 1 => serve P S 1 4\n\
    serve --workers 64 --sessions 4294967295 --listen=-x P => serve P -x 4294967295 64\n\
    serve --sessions=0002 --listen - --workers=1 -- -P => serve -P - 2 1";

// Lines that are no form, each between bars.
const NO_FORMS: &str = "\
    ||\n\
    |-|\n\
    |--|\n\
    |P|\n\
    |help|\n\
    |-h|\n\
    |--help|\n\
    |-V|\n\
    |--version|\n\
    |sess|\n\
    |sessions|\n\
    |Session|\n\
    |--session|\n\
    |-- session|\n\
    |session=|\n\
    | session|\n\
    |session |\n\
    |session -x|\n\
    |session --x|\n\
    |session ---|\n\
    |session -h|\n\
    |session --help|\n\
    |session -V|\n\
    |session --version|\n\
    |session --block 512|\n\
    |session P --block 512|\n\
    |session P Q|\n\
    |session|\n\
    |session --|\n\
    |session help x|\n\
    |init|\n\
    |init P Q|\n\
    |init --block 512|\n\
    |init P --block 511|\n\
    |init P --block 65536|\n\
    |init P --block 4000|\n\
    |init P --block +512|\n\
    |init P --block -512|\n\
    |init P --block=-512|\n\
    |init P --block 512k|\n\
    |init P --block 00000000512|\n\
    |init P --block= |\n\
    |init P --block|\n\
    |init P --block -- 512|\n\
    |init P --block 512 --block 512|\n\
    |init P --guid 0|\n\
    |init P --guid 0011223344556677889900112233445g|\n\
    |init P --guid 001122334455667788990011223344556677|\n\
    |init P --signature 4294967296|\n\
    |init P --signature 10000000000|\n\
    |init P --signature 0x10|\n\
    |init P --seed 1|\n\
    |Init P|\n\
    |check|\n\
    |check |\n\
    |check --|\n\
    |check -- |\n\
    |check P |\n\
    |check  P|\n\
    |check P Q|\n\
    |check P P|\n\
    |check -- P Q|\n\
    |check P -- Q|\n\
    |check -- P --|\n\
    |check -- -- P|\n\
    |check -P|\n\
    |check --P|\n\
    |check ---|\n\
    |check -=P|\n\
    |check --=P|\n\
    |check P -Q|\n\
    |check P --Q|\n\
    |check -h|\n\
    |check --help|\n\
    |check -V P|\n\
    |check --version P|\n\
    |check --path P|\n\
    |check --PATH P|\n\
    |check --PATH=P|\n\
    |check --block 512 P|\n\
    |check -é|\n\
    |check --é|\n\
    |Check P|\n\
    |CHECK P|\n\
    |chec P|\n\
    |checks P|\n\
    |check=P|\n\
    |--check P|\n\
    |-- check P|\n\
    |dump|\n\
    |dump |\n\
    |dump P Q|\n\
    |dump -P|\n\
    |dump --help|\n\
    |dump --block 512 P|\n\
    |Dump P|\n\
    |dumps P|\n\
    |gen|\n\
    |gen 0|\n\
    |gen 10001|\n\
    |gen 00000000001|\n\
    |gen +1|\n\
    |gen -1|\n\
    |gen 1 2|\n\
    |gen P|\n\
    |gen 1 --seed 4294967296|\n\
    |gen 1 --seed|\n\
    |gen 1 --seed 1 --seed 1|\n\
    |gen 1 --block 512|\n\
    |gen --seed 1|\n\
    |serve P|\n\
    |serve P --listen S|\n\
    |serve P --sessions 1|\n\
    |serve --listen S --sessions 1|\n\
    |serve P Q --listen S --sessions 1|\n\
    |serve P --listen= --sessions 1|\n\
    |serve P --listen -x --sessions 1|\n\
    |serve P --listen S --sessions 0|\n\
    |serve P --listen S --sessions 4294967296|\n\
    |serve P --listen S --sessions 1 --workers 0|\n\
    |serve P --listen S --sessions 1 --workers 65|\n\
    |serve P --listen S --listen S --sessions 1|\n\
    |serve P --listen S --sessions 1 --seed 1|";

#[test]
fn lines_with_plans(rt: HostRuntime) -> Result<(), Fail> {
    let alloc = rt.alloc();
    for case in PLANS.split('\n') {
        let (line, want) = case.split_once(" => ").ok_or("a line and its plan")?;
        let words = words_of(alloc, line)?;
        assert_eq!(rt; asked(alloc, &words)?.as_str(), want, "{line}");
    }
    Ok(())
}

#[test]
fn lines_of_no_form(rt: HostRuntime) -> Result<(), Fail> {
    let alloc = rt.alloc();
    assert_eq!(rt; asked(alloc, &[])?.as_str(), "");
    for case in NO_FORMS.split('\n') {
        let line = case
            .strip_prefix('|')
            .and_then(|line| line.strip_suffix('|'));
        let line = line.ok_or("a line between bars")?;
        let words = words_of(alloc, line)?;
        assert_eq!(rt; asked(alloc, &words)?.as_str(), "", "{line}");
    }
    Ok(())
}

static NAMES: [&str; 2] = ["block", "guid"];

// The options that were found and the positionals, as a text.
fn found(alloc: Global, matches: &ArgMatches) -> Result<String, Fail> {
    let mut text = String::new(alloc);
    for name in NAMES {
        if let Some(value) = matches.get_str(name) {
            text.push_str(format!(in alloc; "{name}={value},")?.as_str())?;
        }
    }
    for word in matches.get_strs(POSITIONAL).unwrap_or(&[]) {
        text.push_str(format!(in alloc; "{word},")?.as_str())?;
    }
    Ok(text)
}

// Lines of a command with two options, and what each gives.
#[test]
fn lines_with_options(rt: HostRuntime) -> Result<(), Fail> {
    let alloc = rt.alloc();
    for (line, want) in [
        ("--", Some("")),
        ("P - Q", Some("P,-,Q,")),
        ("--block 512 P", Some("block=512,P,")),
        ("P --block 512", Some("block=512,P,")),
        ("--block=512 P", Some("block=512,P,")),
        ("P --guid 0 Q --block=1", Some("block=1,guid=0,P,Q,")),
        ("--block -", Some("block=-,")),
        ("--block=-x", Some("block=-x,")),
        ("--block=--", Some("block=--,")),
        ("--block=a=b", Some("block=a=b,")),
        ("--block==", Some("block==,")),
        ("-- --block 512", Some("--block,512,")),
        ("--block 1 -- --block", Some("block=1,--block,")),
        ("P -- -- -x", Some("P,--,-x,")),
        ("--block", None),
        ("P --block", None),
        ("--block -x", None),
        ("--block --guid 0", None),
        ("--block --guid=0", None),
        ("--block -- 512", None),
        ("--block ", None),
        ("--block=", None),
        ("--block= P", None),
        ("--block 1 --block 2", None),
        ("--block=1 P --block=1", None),
        ("--blocks 1", None),
        ("--bloc 1", None),
        ("--Block 1", None),
        ("-block 1", None),
        ("-b 1", None),
        ("--=1", None),
        (" --block 1", None),
    ] {
        let words = words_of(alloc, line)?;
        let texts = texts_of(alloc, &words)?;
        let got = match read(alloc, NAMES.as_slice(), texts.as_slice()) {
            Ok(matches) => Some(found(alloc, &matches)?),
            Err(_) => None,
        };
        assert_eq!(rt; got.as_ref().map(|text| text.as_str()), want, "{line}");
    }
    Ok(())
}
