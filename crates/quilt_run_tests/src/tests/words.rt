//! The words of the program, worked lists of them and drawn ones, each done where there is no file.
use crate::runs::{Ran, done, has_ended, put_by};
use quilt_scripts::Run;
use quilt_top::End;
use std::alloc::Global;
use std::thread::Threads;

/// Words that may stand anywhere.
static ANY: [&str; 16] = [
    "run", "new", "trial", "m", "16", "3", "--pool", "--pool", "--pool=8", "--pool=9", "--", "8",
    "7", "-x", "-", "--pools",
];

/// Words by their place in a list, so that more of the lists are in the table.
static PLACED: [[&str; 4]; 8] = [
    ["trial", "m", "7", "8"],
    ["--pool=9", "run", "m", "--"],
    ["new", "m", "16", "3"],
    ["--", "new", "m", "16"],
    ["run", "--", "m", "3"],
    ["new", "--", "m", "30"],
    ["--pool", "8", "run", "m"],
    ["new", "m", "--", "16"],
];

fn next(state: u64) -> u64 {
    state
        .wrapping_mul(6_364_136_223_846_793_005)
        .wrapping_add(1_442_695_040_888_963_407)
}

/// The word of a place of one of the lists, three times out of four, and else any word.
fn drawn_word(list: &[&'static str], place: usize, state: u64) -> Option<&'static str> {
    let drawn = state >> 33;
    match list.get(place) {
        Some(word) if drawn % 4 > 0 => Some(word),
        _ => ANY.get(((drawn >> 8) % 16) as usize).copied(),
    }
}

/// From 2 to 5 words.
fn drawn_words(alloc: Global, state: &mut u64) -> Option<Vec<&'static str>> {
    *state = next(*state);
    let drawn = *state >> 33;
    let list = PLACED.get((drawn % 8) as usize)?;
    let most = ((drawn >> 7) % 4) as usize;
    let mut words = Vec::new(alloc);
    for place in 0..5_usize {
        *state = next(*state);
        if place < most.wrapping_add(2) {
            words.push(drawn_word(list, place, *state)?).ok()?;
        }
    }
    Some(words)
}

/// What a list of words asks for: a file of so many pages and of a level, or that commands are run over a file.
#[derive(Clone, Copy)]
enum Asked {
    New(u32, u32),
    Run,
}

/// The numbers that are among the words.
static NUMBERS: [(&str, u32); 6] = [
    ("3", 3),
    ("7", 7),
    ("8", 8),
    ("9", 9),
    ("16", 16),
    ("30", 30),
];

/// The number of a word, where it lies between these.
fn spelled(word: &str, low: u32, high: u32) -> Option<u32> {
    let (_, value) = NUMBERS.iter().find(|(number, _)| *number == word)?;
    (low <= *value && *value <= high).then_some(*value)
}

/// Whether the option's word is a number of pages, where it is there.
fn is_pool(pool: Option<&str>) -> bool {
    match pool {
        None => true,
        Some(word) => spelled(word, 8, 4096).is_some(),
    }
}

/// What the table says of the words behind `new` and a file.
fn new_by_table(rest: &[&str]) -> Option<Asked> {
    let [pages, level] = rest else {
        return None;
    };
    let pages = spelled(pages, 16, 30000)?;
    Some(Asked::New(pages, spelled(level, 1, 12)?))
}

/// What the table says of the words behind `trial` and a file.
fn trial_by_table(rest: &[&str]) -> Option<Asked> {
    let [seed, count] = rest else {
        return None;
    };
    spelled(seed, 0, 30)?;
    spelled(count, 1, 1_000_000)?;
    Some(Asked::Run)
}

/// What the table says of words that stand alone and of the option's word.
fn by_table(alone: &[&str], pool: Option<&str>) -> Option<Asked> {
    let [mode, _, rest @ ..] = alone else {
        return None;
    };
    match *mode {
        "run" if rest.is_empty() => is_pool(pool).then_some(Asked::Run),
        "new" if pool.is_none() => new_by_table(rest),
        "trial" if is_pool(pool) => trial_by_table(rest),
        _ => None,
    }
}

/// What is read of words, from the first to the last.
#[derive(Drop)]
struct Reading<'a> {
    alone: Vec<&'a str>,
    pool: Option<&'a str>,
    is_wanted: bool,
    has_ended: bool,
}

impl<'a> Reading<'a> {
    /// Takes the option's word, which may come once.
    fn takes_pool(&mut self, word: &'a str) -> Option<()> {
        if self.pool.is_some() {
            return None;
        }
        self.pool = Some(word);
        Some(())
    }

    /// Takes a word that begins with a dash and has more behind it.
    fn takes_dashed(&mut self, word: &'a str) -> Option<()> {
        match word {
            "--" => self.has_ended = true,
            "--pool" => self.is_wanted = true,
            "--pool=8" => self.takes_pool("8")?,
            "--pool=9" => self.takes_pool("9")?,
            _ => return None,
        }
        Some(())
    }

    /// Takes the next word.
    fn takes(&mut self, word: &'a str) -> Option<()> {
        let is_dashed = word.starts_with("-") && word.len() > 1;
        if self.is_wanted {
            self.is_wanted = false;
            if is_dashed {
                return None;
            }
            self.takes_pool(word)
        } else if is_dashed && !self.has_ended {
            self.takes_dashed(word)
        } else {
            self.alone.push(word).ok()
        }
    }

    /// Takes all words.
    fn takes_all(&mut self, words: &[&'a str]) -> Option<()> {
        for word in words {
            self.takes(word)?;
        }
        Some(())
    }

    /// What the table says of the words that were taken.
    fn asked(&self) -> Option<Asked> {
        if self.is_wanted {
            return None;
        }
        by_table(&self.alone, self.pool)
    }
}

/// What the table says of the words, read from the first to the last.
fn expected(alloc: Global, words: &[&str]) -> Option<Asked> {
    let mut reading = Reading {
        alone: Vec::new(alloc),
        pool: None,
        is_wanted: false,
        has_ended: false,
    };
    match reading.takes_all(words) {
        Some(()) => reading.asked(),
        None => None,
    }
}

/// Whether a run over no file, of which the table says this, may end so and put this.
fn is_answer(alloc: Global, wanted: Option<Asked>, ran: &Ran) -> Option<bool> {
    Some(match wanted {
        None => has_ended(ran, End::Usage, b""),
        Some(Asked::Run) => has_ended(ran, End::Missing, b""),
        Some(Asked::New(pages, level)) if ran.0 == End::Done => {
            let line = format!(in alloc; "new {pages} pages level {level}\n").ok()?;
            put_by(&ran.1) == line.as_bytes()
        }
        Some(Asked::New(..)) => has_ended(ran, End::Taken, b""),
    })
}

/// Does what the words say where there is no file: whether the run ends as the table says of them.
fn reads_as<R: Threads + Sync>(
    rt: &R,
    alloc: Global,
    words: &[&str],
    wanted: Option<Asked>,
) -> bool {
    match done(rt, alloc, Run::of(words, b""), None) {
        Some(ran) => is_answer(alloc, wanted, &ran) == Some(true),
        None => false,
    }
}

/// Draws words: whether they are in the table.
fn reads_drawn<R: Threads + Sync>(rt: &R, alloc: Global, state: &mut u64) -> Option<bool> {
    let words = drawn_words(alloc, state)?;
    let wanted = expected(alloc, &words);
    reads_as(rt, alloc, &words, wanted).then_some(wanted.is_some())
}

#[test]
fn reads_drawn_lists_of_words(rt: HostRuntime) {
    let mut state = 1;
    let mut taken = 0_u32;
    for _ in 0..400_u32 {
        let read = reads_drawn(&rt, rt.alloc(), &mut state);
        assert!(rt; read.is_some());
        taken = taken.saturating_add(u32::from(read == Some(true)));
    }
    assert!(rt; taken > 40);
}

/// Words that ask for a run, with the option wherever it may stand.
static TAKEN: [&[&str]; 12] = [
    &["run", "m"],
    &["run", "m", "--pool", "8"],
    &["run", "m", "--pool=8"],
    &["run", "--pool", "8", "m"],
    &["run", "--pool=8", "m", "--"],
    &["--pool", "8", "run", "m"],
    &["--pool=8", "--", "run", "m"],
    &["--", "run", "--pool=8"],
    &["run", "-", "--pool", "4096"],
    &["trial", "m", "0", "1", "--pool", "8"],
    &["--pool=8", "trial", "m", "7", "--", "1"],
    &["trial", "m", "18446744073709551615", "1000000"],
];

#[test]
fn reads_the_option_wherever_it_stands(rt: HostRuntime) {
    for words in &TAKEN {
        assert!(rt; reads_as(&rt, rt.alloc(), words, Some(Asked::Run)));
    }
}

/// Words that the table has not.
static OTHER_WORDS: [&[&str]; 14] = [
    &[],
    &["run"],
    &["new", "m", "15", "3"],
    &["new", "m", "16", "13"],
    &["new", "m", "016", "3"],
    &["new", "-m", "16", "3"],
    &["new", "", "16", "3"],
    &["new", "m", "16", "3", "3"],
    &["trial", "m", "1"],
    &["trial", "m", "1", "0"],
    &["trial", "m", "01", "1"],
    &["trial", "", "1", "1"],
    &["trial", "m", "18446744073709551616", "1"],
    &["trial", "m", "1", "1000001"],
];

#[test]
fn refuses_other_words(rt: HostRuntime) {
    for words in &OTHER_WORDS {
        assert!(rt; reads_as(&rt, rt.alloc(), words, None));
    }
}

/// Options that the table has not.
static OTHER_OPTIONS: [&[&str]; 13] = [
    &["run", "m", "--pool", "7"],
    &["run", "m", "--pool=4097"],
    &["run", "m", "--pool", "08"],
    &["run", "m", "--pool="],
    &["run", "m", "--pool"],
    &["run", "m", "--pool", "--", "8"],
    &["run", "m", "--pool", "8", "--pool", "8"],
    &["new", "m", "16", "3", "--pool", "8"],
    &["trial", "m", "1", "1", "--pool", "7"],
    &["run", "m", "--help"],
    &["-h"],
    &["--version"],
    &["run", "m", "-p", "8"],
];

#[test]
fn refuses_other_options(rt: HostRuntime) {
    for words in &OTHER_OPTIONS {
        assert!(rt; reads_as(&rt, rt.alloc(), words, None));
    }
}
