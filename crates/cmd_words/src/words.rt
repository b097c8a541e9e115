ghost use Rattle.std.specs.Prelude.{◌≡◌, Some, map, option_map, string_bytes, [], ◌∷◌};
ghost use Rattle.cmd_words.specs.Command.{names_file, asks_for_report, pair_of, run_of, replay_of, demo_of, command_of, seen};
ghost use Rattle.cmd_words.specs.Numbers.{number_of};

use crate::numbers::number;

/// How many steps a program makes at most where no number is given.
pub const STEPS: u64 = 10000000;

/// How many functions a demonstration has at most.
const MOST_FUNCTIONS: u32 = 2000;

/// What the words of a command ask for (docs/COMMANDS.md).
#[derive(Clone, Copy, Debug, PartialEq, Eq)]
pub enum Job<'a> {
    /// Restructure the first file, write the second, and the report of the moves to the third if there is one.
    Restructure(&'a str, &'a str, Option<&'a str>),
    /// Run `main` of the file for at most so many steps.
    Run(&'a str, u64),
    /// Restructure a text of so many functions that is made by a rule, and run its program and that of the result.
    Demo(u32),
    /// Write the list of commands.
    Help,
    /// Restructure the file, and write the text to the standard output.
    Show(&'a str),
    /// Restructure the file, and write the report of the moves to the standard output.
    Moves(&'a str),
    /// Make the moves of a report: the file that is read, the one of the report, and the one that is written.
    Replay(&'a str, &'a str, &'a str),
    /// Tidy the first file, and write the second.
    Tidy(&'a str, &'a str),
    /// Lower the first file, and write the second.
    Lower(&'a str, &'a str),
}

/// Whether a word names a file: it isn't empty and doesn't begin with `-`.
fn names_a_file(word: &str) -> bool
    ensures { result ≡ names_file word.now }
{
    match word.as_bytes() {
        [] => false,
        [first, ..] => *first != b'-',
    }
}

/// The job that the words ask for, or `None` where they fit no form. It takes no memory.
pub fn command<'a>(words: &'a [String]) -> Option<Job<'a>>
    ensures { option_map seen result ≡ command_of (map string_bytes words.now) }
{
    match words {
        [word] => {
            if word.as_str() == "help" {
                Some(Job::Help)
            } else {
                None
            }
        }
        [word, from] => file_job(word.as_str(), from.as_str()),
        [word, from, to] => two_job(word.as_str(), from.as_str(), to.as_str()),
        [word, first, second, third] => three_job(
            word.as_str(),
            first.as_str(),
            second.as_str(),
            third.as_str(),
        ),
        [word, from, to, flag, report] => report_job(
            word.as_str(),
            from.as_str(),
            to.as_str(),
            flag.as_str(),
            report.as_str(),
        ),
        [] => None,
        [_, _, _, _, _, _, ..] => None,
    }
}

fn file_job<'a>(word: &str, from: &'a str) -> Option<Job<'a>>
    ensures { option_map seen result ≡ command_of (word.now ∷ from.now ∷ []) }
{
    if word == "show" && names_a_file(from) {
        Some(Job::Show(from))
    } else if word == "moves" && names_a_file(from) {
        Some(Job::Moves(from))
    } else if word == "run" && names_a_file(from) {
        Some(Job::Run(from, STEPS))
    } else if word == "demo" {
        demo_job(from)
    } else {
        None
    }
}

fn demo_job<'a>(count: &str) -> Option<Job<'a>>
    ensures { option_map seen result ≡ demo_of (number_of count.now) }
{
    match number(count) {
        Some(count) => demo_with(count),
        None => None,
    }
}

fn demo_with<'a>(count: u64) -> Option<Job<'a>>
    ensures { option_map seen result ≡ demo_of (Some count) }
{
    if count >= 1 && count <= MOST_FUNCTIONS as u64 {
        Some(Job::Demo(count as u32))
    } else {
        None
    }
}

fn steps_job<'a>(from: &'a str, flag: &str, steps: &str) -> Option<Job<'a>>
    ensures { option_map seen result ≡ run_of from.now flag.now steps.now }
{
    if names_a_file(from) && flag == "--steps" {
        match number(steps) {
            Some(steps) => Some(Job::Run(from, steps)),
            None => None,
        }
    } else {
        None
    }
}

fn replay_job<'a>(word: &str, from: &'a str, report: &'a str, to: &'a str) -> Option<Job<'a>>
    ensures { option_map seen result ≡ replay_of word.now from.now report.now to.now }
{
    if word == "replay" && names_a_file(from) && names_a_file(report) && names_a_file(to) {
        Some(Job::Replay(from, report, to))
    } else {
        None
    }
}

fn three_job<'a>(word: &str, first: &'a str, second: &'a str, third: &'a str) -> Option<Job<'a>>
    ensures { option_map seen result ≡ command_of (word.now ∷ first.now ∷ second.now ∷ third.now ∷ []) }
{
    if word == "run" {
        steps_job(first, second, third)
    } else {
        replay_job(word, first, second, third)
    }
}

fn pair_job<'a>(word: &str, from: &'a str, to: &'a str) -> Option<Job<'a>>
    ensures { option_map seen result ≡ pair_of word.now from.now to.now }
{
    if word == "restructure" {
        Some(Job::Restructure(from, to, None))
    } else if word == "tidy" {
        Some(Job::Tidy(from, to))
    } else if word == "lower" {
        Some(Job::Lower(from, to))
    } else {
        None
    }
}

fn two_job<'a>(word: &str, from: &'a str, to: &'a str) -> Option<Job<'a>>
    ensures { option_map seen result ≡ command_of (word.now ∷ from.now ∷ to.now ∷ []) }
{
    if names_a_file(from) && names_a_file(to) {
        pair_job(word, from, to)
    } else {
        None
    }
}

fn report_job<'a>(
    word: &str,
    from: &'a str,
    to: &'a str,
    flag: &str,
    report: &'a str,
) -> Option<Job<'a>>
    ensures { option_map seen result ≡ command_of (word.now ∷ from.now ∷ to.now ∷ flag.now ∷ report.now ∷ []) }
{
    if asks_report(word, from, to, flag, report) {
        Some(Job::Restructure(from, to, Some(report)))
    } else {
        None
    }
}

/// Whether the words ask for a report beside the text.
fn asks_report(word: &str, from: &str, to: &str, flag: &str, report: &str) -> bool
    ensures { result ≡ asks_for_report word.now from.now to.now flag.now report.now }
{
    word == "restructure"
        && names_a_file(from)
        && names_a_file(to)
        && flag == "--report"
        && names_a_file(report)
        && to != report
}
