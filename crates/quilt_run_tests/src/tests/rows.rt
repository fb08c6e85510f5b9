//! Worked commands, and texts that are too long to stand in a table.
use super::scripts::SCRIPTS;
use crate::runs::{Ran, done, file_of_level_3, has_ended, is_write, log_of};
use quilt_scripts::{Run, Turns, file_of, plays, put_within};
use quilt_top::End;
use quilt_world::Image;
use std::alloc::{AllocError, Global};
use std::process::Abort;
use std::thread::Threads;

/// Plays the script behind its name, which is told where it is not answered.
fn plays_named<R: Threads + Sync + Abort>(rt: &R, alloc: Global, text: &str) {
    let (name, script) = text.split_once('\n').unwrap_or((text, ""));
    let is_answered = plays(rt, alloc, script).is_some();
    assert!(rt; is_answered, "{name}");
}

#[test]
fn scripts_are_answered(rt: HostRuntime) {
    for text in &SCRIPTS {
        plays_named(&rt, rt.alloc(), text);
    }
}

/// What a map is told, with its reply.
enum Said {
    /// A command, as in a script.
    Turn(&'static str, &'static str),
    /// A raster of a layer with so many rows of pairs of pixels: the first pair and the second stand row by row in turn. In the first
    /// two rows so many pairs are of colour 0.
    Raster(&'static str, u32, u32, &'static str, &'static str),
    /// As many new region layers, each of which is made.
    Layers(u32),
    /// A line of so many letters.
    Line(u32, &'static str),
}

use Said::{Layers, Line, Raster, Turn};

/// 1 stands in the second pixel of a pair and in the first, row by row in turn.
const STRIPED: &str = "0001 0100";

/// Long texts, by their names: the pages and the level of the file, and what its map is told.
static LONG: [(&str, [&str; 2], &[Said]); 5] = [
    (
        "the quota is exact",
        ["16", "4"],
        &[
            Turn("region a 0", "ok"),
            Raster("a", 16, 0, STRIPED, "ok"),
            Turn("records", "257 of 512; ok"),
            Turn("region b 0", "ok"),
            Raster("b", 16, 0, STRIPED, "no 11 full"),
            Turn("records", "259 of 512; ok"),
            Turn("blocks a", "1 256; ok"),
            Turn("blocks b", "16 1; ok"),
            Raster("b", 16, 1, STRIPED, "ok"),
            Turn("blocks b", "2 1; 1 252; ok"),
            Turn("records", "511 of 512; ok"),
            Turn("region c 0", "no 11 full"),
            Turn("points p", "no 11 full"),
            Turn("publish", "edition 1; ok"),
        ],
    ),
    (
        "a layer outgrows the smallest pool",
        ["100", "6"],
        &[
            Turn("region a 0", "ok"),
            Raster("a", 64, 0, STRIPED, "ok"),
            Turn("publish", "edition 1; ok"),
            Turn("blocks a", "1 4096; ok"),
            Turn("at a 1 0", "1; ok"),
        ],
    ),
    // More edits than are made at a time: of the blocks on both sides of where the first of them end one colour goes and another comes.
    (
        "each block of a layer gets another colour",
        ["100", "6"],
        &[
            Turn("region a 0", "ok"),
            Raster("a", 64, 0, STRIPED, "ok"),
            Raster("a", 64, 0, "0302 0203", "ok"),
            Turn("blocks a", "1 4096; ok"),
            Turn("records", "4097 of 5888; ok"),
            Turn("area a 2", "2048; ok"),
            Turn("area a 3", "2048; ok"),
            Turn("at a 62 31", "2; ok"),
            Turn("at a 63 31", "3; ok"),
            Turn("at a 0 32", "3; ok"),
            Turn("at a 1 32", "2; ok"),
            Turn("publish", "edition 1; ok"),
        ],
    ),
    (
        "a map has 255 layers",
        ["16", "1"],
        &[
            Layers(255),
            Turn("region b 0", "no 12 layers"),
            Turn("copy a1 b", "no 12 layers"),
            Turn("drop a7", "ok"),
            Turn("region b 0", "ok"),
            Turn("points p", "no 12 layers"),
            Turn("publish", "edition 1; ok"),
            Turn("records", "510 of 512; ok"),
        ],
    ),
    (
        "a line has 8320 bytes",
        ["16", "3"],
        &[
            Turn("# a remark", ""),
            Turn("", ""),
            Line(8320, "no 1 word"),
            Line(8321, "no 13 long"),
            Turn("edition\t", "no 17 bytes"),
        ],
    ),
];

/// Adds the piece so many times.
fn repeat(text: &mut String, piece: &str, times: u32) -> Result<(), AllocError> {
    for _ in 0..times {
        text.push_str(piece)?;
    }
    Ok(())
}

/// A raster command of such rows.
fn raster(
    alloc: Global,
    name: &str,
    rows: u32,
    empty: u32,
    pairs: &str,
) -> Result<String, AllocError> {
    let (first, second) = pairs.split_once(' ').unwrap_or((pairs, pairs));
    let mut text = format!(in alloc; "raster {name}")?;
    for y in 0..rows {
        let none = if y < 2 { empty } else { 0 };
        text.push_str("; ")?;
        repeat(&mut text, "0000", none)?;
        let pair = if y % 2 == 0 { first } else { second };
        repeat(&mut text, pair, (rows / 2).saturating_sub(none))?;
    }
    Ok(text)
}

/// Adds so many new layers.
fn say_layers(turns: &mut Turns, alloc: Global, count: u32) -> Result<(), AllocError> {
    for number in 1..=count {
        turns.says(&format!(in alloc; "region a{number} 0")?, "ok")?;
    }
    Ok(())
}

/// Adds what is said.
fn say(turns: &mut Turns, alloc: Global, said: &Said) -> Result<(), AllocError> {
    match *said {
        Turn(command, reply) => turns.says(command, reply),
        Layers(count) => say_layers(turns, alloc, count),
        Raster(name, rows, empty, pairs, reply) => {
            turns.says(&raster(alloc, name, rows, empty, pairs)?, reply)
        }
        Line(length, reply) => {
            let mut line = String::new(alloc);
            repeat(&mut line, "a", length)?;
            turns.says(&line, reply)
        }
    }
}

/// Plays what is said over a new file, with the smallest pool.
fn played<R: Threads + Sync>(
    rt: &R,
    alloc: Global,
    size: [&str; 2],
    said: &[Said],
) -> Option<Image> {
    let mut turns = Turns::new(alloc);
    for it in said {
        say(&mut turns, alloc, it).ok()?;
    }
    turns.played(rt, alloc, file_of(rt, alloc, size[0], size[1])?, "8")
}

#[test]
fn long_texts_are_answered(rt: HostRuntime) {
    for (name, size, said) in &LONG {
        let is_answered = played(&rt, rt.alloc(), *size, said).is_some();
        assert!(rt; is_answered, "{name}");
    }
}

/// How many pages a run wrote once it had put so many bytes.
fn writes_behind(ran: &Ran, bytes: usize) -> usize {
    let mut writes = 0_usize;
    for (events, event) in log_of(&ran.1).iter().enumerate() {
        if is_write(event) && put_within(&ran.1, events) >= bytes {
            writes = writes.saturating_add(1);
        }
    }
    writes
}

/// Whether a run that publishes twice, the second time no change, writes up to 8 pages behind the reply of the first, and at least one.
fn writes_few_pages(ran: &Ran) -> bool {
    let writes = writes_behind(ran, b"ok\nedition 1\nok\n".len());
    has_ended(
        ran,
        End::Done,
        b"ok\nedition 1\nok\nok\nok\nedition 2\nok\n",
    ) && writes > 0
        && writes <= 8
}

/// The second publish changes no record. A publish writes at most 8 pages, and 18 more for each record that was changed.
#[test]
fn a_publish_of_nothing_writes_few_pages(rt: HostRuntime) {
    let run = Run::text(b"region a 0\npublish\nset a 0 0 0\nset a 0 0 0\npublish\n");
    let ran = done(&rt, rt.alloc(), run, file_of_level_3(&rt, rt.alloc()));
    assert!(rt; ran.as_ref().is_some_and(writes_few_pages));
}
