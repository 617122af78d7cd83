//! The words that the program is called with, and what they ask for.

ghost use Rattle.outside.specs.Below.{map, string_bytes, Some, IfSome, list_all, is_ascii_digit};
ghost use Rattle.std.specs.Prelude.{◌≡◌, ◌≤◌};
ghost use Rattle.outside.specs.Words.{question_alone, question_in, generation_in, job_in, number_written, is_numeral};
ghost use Rattle.outside.specs.declared.words.Generation.{Generation as Asked};

/// What commands are generated from: a seed, and how many are wanted.
#[derive(Clone, Copy, PartialEq, Eq, Debug)]
pub struct Generation {
    pub seed: u64,
    pub count: u64,
}

/// How many threads find the orders of a hierarchy.
#[derive(Clone, Copy, PartialEq, Eq, Debug)]
pub enum Pace {
    /// The caller's own.
    Single,
    /// As many as there are processors.
    Parallel,
}

/// What is asked of a text.
#[derive(Clone, Copy, PartialEq, Eq, Debug)]
pub enum Question {
    /// `run N`: the text is a script, and each of its commands has N units.
    Run(u64),
    /// `share N`: the text is an opening and sessions of callers who share a machine, and each command has N units.
    Share(u64),
    /// `check` or `check par`: the text is a hierarchy, whose report is wanted.
    Check(Pace),
}

/// What the program is asked for.
#[derive(Clone, Copy, PartialEq, Eq, Debug)]
pub enum Job {
    /// A text is read and answered.
    Answer(Question),
    /// `gen SEED COUNT`: commands are generated.
    Generate(Generation),
}

/// What the words ask for: `run N` or `share N` with a decimal numeral from 1 to 1_000_000_000, `check`, `check par`, or
/// `gen SEED COUNT` with decimal numerals, the seed one of 64 bits, the count at most 100_000; `None` for any other words.
pub fn job_of(words: &[String]) -> Option<Job>
    ensures job { result ≡ job_in (map string_bytes words.now) }
    ensures few { (g : Asked) → result ≡ Some (Job.Generate g) → g.count ≤ 100000 }
{
    match words {
        [command] => {
            let question = question_alone(command.as_str())?;
            Some(Job::Answer(question))
        }
        [command, word] => {
            let question = question_of(command.as_str(), word.as_str())?;
            Some(Job::Answer(question))
        }
        [command, seed, count] => {
            let generation = generation_of(command.as_str(), seed.as_str(), count.as_str())?;
            Some(Job::Generate(generation))
        }
        _ => None,
    }
}

// What one word asks of a text.
fn question_alone(command: &str) -> Option<Question>
    ensures { result ≡ question_alone command.now }
{
    if command == "check" {
        Some(Question::Check(Pace::Single))
    } else {
        None
    }
}

// What two words ask of a text.
fn question_of(command: &str, word: &str) -> Option<Question>
    ensures { result ≡ question_in command.now word.now }
{
    if command == "run" {
        let units = number(word, 1, 1_000_000_000)?;
        Some(Question::Run(units))
    } else if command == "share" {
        let units = number(word, 1, 1_000_000_000)?;
        Some(Question::Share(units))
    } else if command == "check" && word == "par" {
        Some(Question::Check(Pace::Parallel))
    } else {
        None
    }
}

// The numbers of three words.
fn generation_of(command: &str, seed: &str, count: &str) -> Option<Generation>
    ensures numbers { result ≡ generation_in command.now seed.now count.now }
    ensures few { IfSome result (λ g. g.count ≤ 100000) }
{
    if command == "gen" {
        let seed = number(seed, 0, u64::MAX)?;
        let count = number(count, 0, 100_000)?;
        Some(Generation { seed, count })
    } else {
        None
    }
}

// The number that a text writes, from `low` to `high`.
fn number(text: &str, low: u64, high: u64) -> Option<u64>
    ensures written { result ≡ number_written low high text.now }
    ensures most { IfSome result (λ n. n ≤ high) }
{
    if !is_plain(text.as_bytes()) {
        return None;
    }
    match text.parse::<u64>() {
        Ok(number) => if (low..=high).contains(&number) {
            Some(number)
        } else {
            None
        },
        Err(_) => None,
    }
}

// Digits alone, with no zero in front of others.
fn is_plain(text: &[u8]) -> bool
    ensures { result ≡ is_numeral text.now }
{
    match text {
        [] => false,
        [b'0', _, ..] => false,
        _ => all_digits(text),
    }
}

fn all_digits(text: &[u8]) -> bool
    ensures { result ≡ list_all is_ascii_digit text.now }
{
    text.iter().all(|byte| byte.is_ascii_digit())
}
