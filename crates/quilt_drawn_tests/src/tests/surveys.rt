//! Drawn texts of 200 commands on points, segments and pixels.
use crate::layers::Layers;
use crate::survey::Survey;
use quilt_scripts::file_of;
use std::alloc::{AllocError, Global};
use std::process::Abort;
use std::thread::Threads;

/// A text of 200 commands, of which most ask in its second half.
fn drawn_survey(alloc: Global, side: u32, seed: u64) -> Result<Survey, AllocError> {
    let mut survey = Survey::new(alloc, side, 40, seed, Layers::new(alloc, side)?);
    survey.begins()?;
    for turn in 4..200_u32 {
        if survey.dice.below(100) < turn / 2 {
            survey.asks()?;
        } else {
            survey.changes()?;
        }
    }
    survey.looks()?;
    Ok(survey)
}

/// Plays a drawn text over the file that `new m 500 LEVEL` makes.
fn plays_survey<R: Threads + Sync + Abort>(rt: &R, alloc: Global, level: u32, seed: u64) {
    let survey = drawn_survey(alloc, 1_u32.wrapping_shl(level), seed).expect(rt, "a text");
    let name = format!(in alloc; "{level}").expect(rt, "a number");
    let file = file_of(rt, alloc, "500", &name).expect(rt, "a file");
    survey
        .turns
        .played(rt, alloc, file, "8")
        .expect(rt, "the replies of plain lists");
}

/// Thirty texts at each level up to 4.
#[test]
fn drawn_layers_are_answered_as_plain_lists(rt: HostRuntime) {
    for seed in 0..120_u64 {
        plays_survey(&rt, rt.alloc(), (seed % 4) as u32 + 1, seed);
    }
}

/// Ten texts at each of levels 5 and 6.
#[test]
fn drawn_layers_of_greater_levels_too(rt: HostRuntime) {
    for seed in 120..140_u64 {
        plays_survey(&rt, rt.alloc(), (seed % 2) as u32 + 5, seed);
    }
}
