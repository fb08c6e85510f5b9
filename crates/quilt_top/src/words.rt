ghost use Rattle.std.specs.Prelude.{◌≡◌, ◌≤◌, ◌+◌, ◌-◌, ◌*◌, ◌^◌, ◌&&◌, codes, map, nat_le, is_none, if◌then◌else◌, Some, None, option_map, IfSome, IfOk};
ghost use Rattle.quilt_words.specs.Spelling as spelling;
ghost use Rattle.std.specs.Str.{bytes_eq};
ghost use Rattle.clap.specs.Words.{first_value, found_of};
ghost use Rattle.quilt_top.specs.CommandLine.{order_by};
ghost use Rattle.quilt_top.specs.Meanings.{meant, run_from};
ghost use Rattle.quilt_top.specs.Words as table;

use crate::command_line::parsed;
use crate::orders::{NewFile, Order, RunFile, Source};
use clap::ArgMatches;
use std::alloc::{AllocError, Global};

/// Whether these are decimal digits, with no zero before others.
fn is_spelled(word: &[u8]) -> bool
    ensures { result ≡ spelling.is_spelled word.now }
{
    match word {
        [] => false,
        [digit] => digit.is_ascii_digit(),
        [first, ..] => *first != b'0' && word.iter().all(|b| b.is_ascii_digit()),
    }
}

/// The value with a digit more behind it, where that is at most `high`.
fn with_digit(high: u64, value: u64, digit: u8) -> Option<u64>
    ensures { let next = 10 * value + (digit - 48) in result ≡ (if nat_le next high then Some next else None) }
{
    let next = value
        .checked_mul(10)?
        .checked_add(u64::from(digit.saturating_sub(b'0')))?;
    (next <= high).then_some(next)
}

/// The value of decimal digits, where it is at most `high`.
fn value_within(high: u64, digits: &[u8]) -> Option<u64>
    ensures { result ≡ (if nat_le (spelling.value_of digits.now) high then Some (spelling.value_of digits.now) else None) }
{
    let mut value = 0;
    for digit in digits {
        value = with_digit(high, value, *digit)?;
    }
    Some(value)
}

/// The number from `low` to `high` that the word spells.
#[tactic(auto, unfolding(quilt_words::specs::Spelling::number))]
fn number(low: u64, high: u64, word: &str) -> Option<u64>
    ensures value { result ≡ spelling.number low high word.now }
    ensures range { IfSome result (λ n. (low ≤ n) × (n ≤ high)) }
{
    if !is_spelled(word.as_bytes()) {
        return None;
    }
    let value = value_within(high, word.as_bytes())?;
    (low <= value).then_some(value)
}

/// The number of pages that the option's word asks for, and 256 where it is not there.
fn pool_size(pool: Option<&str>) -> Option<u32>
    ensures value { result ≡ table.pool_size (option_map (λ w. w.now) pool.entry) }
    ensures range { IfSome result (λ n. (8 ≤ n) × (n ≤ 4096)) }
{
    match pool {
        None => Some(256),
        Some(word) => number(8, 4096, word).map(|size| size as u32),
    }
}

/// The file that the commands of this source are run over, where it has a name.
fn run_over<'a>(path: &'a str, pool: u32, source: Source) -> Option<Order<'a>>
    requires { (8 ≤ pool) × (pool ≤ 4096) }
    ensures { option_map meant result ≡ (if table.is_unnamed path.entry.now then None else Some (run_from source path.entry.now pool)) }
{
    if path.is_empty() {
        return None;
    }
    Some(Order::Run(RunFile { path, pool, source }))
}

/// The file that the input is run over, where the first word says so.
fn run_of<'a>(mode: &str, path: &'a str, pool: Option<&str>) -> Option<Order<'a>>
    ensures { option_map meant result
        ≡ (if bytes_eq mode.now (codes "run") then table.run_order path.entry.now (table.pool_size (option_map (λ w. w.now) pool.entry)) else None) }
{
    if mode != "run" {
        return None;
    }
    run_over(path, pool_size(pool)?, Source::Input)
}

/// The file that a trial is run over, where the first word says so.
fn trial_of<'a>(
    mode: &str,
    path: &'a str,
    seed: &str,
    count: &str,
    pool: Option<&str>,
) -> Option<Order<'a>>
    ensures { option_map meant result
        ≡ (if bytes_eq mode.now (codes "trial")
        then table.trial_order path.entry.now (spelling.number 0 (2 ^ 64 - 1) seed.now) (spelling.number 1 1000000 count.now)
        (table.pool_size (option_map (λ w. w.now) pool.entry)) else None) }
{
    if mode != "trial" {
        return None;
    }
    let seed = number(0, u64::MAX, seed)?;
    let count = number(1, 1_000_000, count)? as u32;
    run_over(path, pool_size(pool)?, Source::Trial { seed, count })
}

/// The file to be made, where the other two words are its numbers.
fn new_of<'a>(path: &'a str, pages: &str, level: &str) -> Option<Order<'a>>
    ensures { option_map meant result ≡ table.new_order path.entry.now (spelling.number 16 30000 pages.now) (spelling.number 1 12 level.now) }
{
    let pages = number(16, 30000, pages)?;
    let level = number(1, 12, level)?;
    if path.is_empty() {
        return None;
    }
    Some(Order::New(NewFile {
        path,
        pages: pages as u32,
        level: level as u8,
    }))
}

/// What is asked for by the words that the command found.
fn order_of<'a>(matches: &ArgMatches<'a>) -> Option<Order<'a>>
    ensures { option_map meant result ≡ order_by (first_value (found_of matches.now)) }
{
    let mode = matches.get_str("mode")?;
    let path = matches.get_str("file")?;
    let pool = matches.get_str("pool");
    match (matches.get_str("first"), matches.get_str("second")) {
        (None, None) => run_of(mode, path, pool),
        (Some(pages), Some(level)) if mode == "new" && pool.is_none() => new_of(path, pages, level),
        (Some(seed), Some(count)) => trial_of(mode, path, seed, count, pool),
        _ => None,
    }
}

/// What the words ask for, if they are `new FILE PAGES LEVEL`, or `run FILE` or `trial FILE SEED COUNT` with at most one `--pool P`.
#[inline(never)]
pub(crate) fn read_order<'a>(
    alloc: Global,
    words: &'a [&'a str],
) -> Result<Option<Order<'a>>, AllocError>
    ensures { IfOk result (λ o. option_map meant o ≡ table.asked_for (map (λ w. w.now) words.entry.now)) }
{
    let Some(matches) = parsed(alloc, words)? else {
        return Ok(None);
    };
    Ok(order_of(&matches))
}
