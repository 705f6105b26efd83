// Words with what they ask for, by the rules of the simple command and the table of commands.
use fing_words::{CommandLine, read_words};
use std::alloc::Global;
use std::process::Abort;
use std::test::Fail;

// Asserts that the words are this command line, or none.
fn reads(
    rt: &impl Abort,
    alloc: Global,
    words: &[&str],
    wanted: Option<CommandLine>,
) -> Result<(), Fail> {
    let mut texts = Vec::new(alloc);
    for word in words {
        texts.push(String::from_str(alloc, word)?)?;
    }
    assert_eq!(rt; read_words(alloc, &texts).ok(), Some(wanted), "{words:?}");
    Ok(())
}

const LINES: [(&[&str], CommandLine); 19] = [
    (&["check"], CommandLine::Check),
    (&["emit"], CommandLine::Emit { simplify: false }),
    (
        &["emit", "--simplify"],
        CommandLine::Emit { simplify: true },
    ),
    (
        &["--simplify", "emit"],
        CommandLine::Emit { simplify: true },
    ),
    (
        &["--simplify", "--", "emit"],
        CommandLine::Emit { simplify: true },
    ),
    (&["link"], CommandLine::Link),
    (&["link", "--"], CommandLine::Link),
    (&["--", "link"], CommandLine::Link),
    (&["verify"], CommandLine::Verify),
    (&["emit", "--"], CommandLine::Emit { simplify: false }),
    (&["--", "emit"], CommandLine::Emit { simplify: false }),
    (&["run"], CommandLine::Run { budget: 1000000 }),
    (
        &["run", "--budget", "10000000"],
        CommandLine::Run { budget: 10000000 },
    ),
    (&["run", "--budget=5"], CommandLine::Run { budget: 5 }),
    (&["--budget", "0", "run"], CommandLine::Run { budget: 0 }),
    (&["gen", "1"], CommandLine::Gen { size: 1 }),
    (&["gen", "300"], CommandLine::Gen { size: 300 }),
    (&["gen", "00000030"], CommandLine::Gen { size: 30 }),
    (&["gen", "--", "7"], CommandLine::Gen { size: 7 }),
];

#[test]
fn command_lines(rt: HostRuntime) -> Result<(), Fail> {
    for (words, line) in LINES {
        reads(&rt, rt.alloc(), words, Some(line))?;
    }
    Ok(())
}

const OTHERS: [&[&str]; 53] = [
    &[],
    &[""],
    &["frobnicate"],
    &["Emit"],
    &["emit "],
    &["help"],
    &["--help"],
    &["-h"],
    &["--version"],
    &["-V"],
    &["emit", "--help"],
    &["emit", "-h"],
    &["check", "1"],
    &["emit", "emit"],
    &["emit", "--budget", "1"],
    &["emit", "--budget=1"],
    &["verify", "--budget", "1"],
    &["verify", "1"],
    &["--", "emit", "--"],
    &["--budget", "5"],
    &["run", "5"],
    &["run", "--budget"],
    &["run", "--budget="],
    &["run", "--budget", "10000001"],
    &["run", "--budget", "000000005"],
    &["run", "--budget", "+5"],
    &["run", "--budget=-5"],
    &["run", "--budget", "5", "--budget", "5"],
    &["gen"],
    &["gen", "0"],
    &["gen", "301"],
    &["gen", "1", "1"],
    &["gen", "1", "--budget", "1"],
    &["gen", "1x"],
    &["--simplify"],
    &["check", "--simplify"],
    &["run", "--simplify"],
    &["run", "--budget", "5", "--simplify"],
    &["verify", "--simplify"],
    &["gen", "1", "--simplify"],
    &["link", "--simplify"],
    &["emit", "--simplify", "--simplify"],
    &["emit", "--simplify=true"],
    &["emit", "--simplify", "true"],
    &["emit", "--simplify", "1"],
    &["emit", "--simplify", "--budget", "5"],
    &["emit", "--", "--simplify"],
    &["emit", "--simpl"],
    &["emit", "-s"],
    &["link", "1"],
    &["link", "--budget", "5"],
    &["link", "link"],
    &["Link"],
];

#[test]
fn no_command_lines(rt: HostRuntime) -> Result<(), Fail> {
    for words in OTHERS {
        reads(&rt, rt.alloc(), words, None)?;
    }
    Ok(())
}
