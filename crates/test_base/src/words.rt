//! What words ask for.

use c_types::Memory;
use cmd_words::{Job, command, number};
use std::alloc::Global;

static COMMANDS: [(&[&str], Option<Job<'static>>); 37] = [
    (&[], None),
    (&["help"], Some(Job::Help)),
    (&["help", "show"], None),
    (&["show", "a.c"], Some(Job::Show("a.c"))),
    (&["show"], None),
    (&["show", ""], None),
    (&["show", "a.c", "b.c"], None),
    (&["moves", "a.c"], Some(Job::Moves("a.c"))),
    (&["moves", "-a"], None),
    (
        &["restructure", "a.c", "a.c"],
        Some(Job::Restructure("a.c", "a.c", None)),
    ),
    (
        &["restructure", "a.c", "b.c", "--report", "a.c"],
        Some(Job::Restructure("a.c", "b.c", Some("a.c"))),
    ),
    (&["restructure", "a.c", "b.c", "--report", "b.c"], None),
    (&["restructure", "a.c", "b.c", "--report=r.txt"], None),
    (&["run", "a.c"], Some(Job::Run("a.c", 10000000))),
    (&["run", "a.c", "--steps", "0"], Some(Job::Run("a.c", 0))),
    (
        &["run", "a.c", "--steps", "0070"],
        Some(Job::Run("a.c", 70)),
    ),
    (&["run", "a.c", "--steps", "-1"], None),
    (&["run", "a.c", "--steps=5"], None),
    (&["run", "a.c", "--steps"], None),
    (
        &["replay", "a.c", "r.txt", "b.c"],
        Some(Job::Replay("a.c", "r.txt", "b.c")),
    ),
    (
        &["replay", "a.c", "a.c", "a.c"],
        Some(Job::Replay("a.c", "a.c", "a.c")),
    ),
    (&["replay", "a.c", "-r", "b.c"], None),
    (&["replay", "a.c", "r.txt"], None),
    (&["demo", "2"], Some(Job::Demo(2))),
    (&["demo", "002000"], Some(Job::Demo(2000))),
    (&["demo", "0"], None),
    (&["demo", "2001"], None),
    (&["demo", "4294967297"], None),
    (&["demo", "x"], None),
    (&["demo"], None),
    (&["demo", "2", "2"], None),
    (&["tidy", "a.c", "a.c"], Some(Job::Tidy("a.c", "a.c"))),
    (&["tidy", "a.c", ""], None),
    (&["tidy", "a.c"], None),
    (&["lower", "a.c", "b.c"], Some(Job::Lower("a.c", "b.c"))),
    (&["lower", "-a", "b.c"], None),
    (&["lower", "a.c", "b.c", "--report", "r.txt"], None),
];

fn words_of(alloc: Global, texts: &[&str]) -> Result<Vec<String>, Memory> {
    let mut words = Vec::new(alloc);
    for text in texts {
        words.push(String::from_str(alloc, text)?)?;
    }
    Ok(words)
}

fn asks_for(alloc: Global, texts: &[&str], job: &Option<Job<'static>>) -> Result<bool, Memory> {
    let words = words_of(alloc, texts)?;
    let same = command(&words) == *job;
    drop(words);
    Ok(same)
}

#[test]
fn words_ask_for_a_job(rt: HostRuntime) {
    for (number, (texts, job)) in COMMANDS.iter().enumerate() {
        assert!(rt; asks_for(rt.alloc(), texts, job) == Ok(true), "{number}");
    }
}

static NUMBERS: [(&str, Option<u64>); 12] = [
    ("0", Some(0)),
    ("7", Some(7)),
    ("2000", Some(2000)),
    ("100000000", Some(100000000)),
    ("999999999999999999", Some(999999999999999999)),
    ("1000000000000000000", None),
    ("0000000000000000001", None),
    ("", None),
    ("+1", None),
    ("-1", None),
    ("01", Some(1)),
    ("1 ", None),
];

#[test]
fn a_number_is_digits_alone(rt: HostRuntime) {
    for (word, value) in &NUMBERS {
        assert!(rt; number(word) == *value, "{word}");
    }
}
