use crate::comparing::is_text;
use quilt_trial::{Trial, trial_text};
use quilt_types::Text;
use std::alloc::AllocError;
use std::test::Fail;

/// The text of a trial of one line.
static ONE_LINE: &[u8] = b"region ta 0\nregion tb 0\npoints tp\nlines tl 4\nat ta 0 1\npublish\n";

#[test]
fn draws_one_line(rt: HostRuntime) {
    assert!(rt; is_text(trial_text(rt.alloc(), 0, 1, 3), ONE_LINE));
}

/// How many bytes a text has, and their sum.
fn sum_of(text: &Text) -> (usize, u64) {
    let mut sum = 0_u64;
    for c in text.bytes() {
        sum = sum.wrapping_add(u64::from(*c));
    }
    (text.bytes().len(), sum)
}

#[test]
fn draws_lines_of_each_kind(rt: HostRuntime) -> Result<(), Fail> {
    assert!(rt; sum_of(&trial_text(rt.alloc(), 7, 192, 6)?) == (3288, 214586));
    Ok(())
}

/// Whether a trial with no drawn lines has further lines, asked again and again.
static FURTHER: [bool; 7] = [true, true, true, true, true, false, false];

/// Whether a trial has further lines as it should.
fn goes_on(trial: &mut Trial, further: &[bool]) -> Result<bool, AllocError> {
    for is_further in further {
        if trial.next_line()?.is_some() != *is_further {
            return Ok(false);
        }
    }
    Ok(true)
}

#[test]
fn ends(rt: HostRuntime) -> Result<(), Fail> {
    assert!(rt; goes_on(&mut Trial::new(rt.alloc(), 5, 0, 12), &FURTHER)?);
    Ok(())
}
