//! A chain of runs over one file: each is cut by a stop, and the next one opens what the stop left.
use crate::layers::Layers;
use crate::survey::Survey;
use quilt_desk::Desk;
use quilt_plain::Dice;
use quilt_scripts::{Run, choice, edition_of, file_of, put_within, stopped};
use quilt_world::Image;
use std::alloc::{AllocError, Global};
use std::process::Abort;
use std::thread::Threads;

/// The side of the map.
const SIDE: u32 = 8;

/// An edition: its number and its layers.
#[derive(Drop)]
struct Edition {
    number: u32,
    layers: Layers,
}

impl Edition {
    fn copy(&self, alloc: Global) -> Result<Edition, AllocError> {
        Ok(Edition {
            number: self.number,
            layers: self.layers.copy(alloc)?,
        })
    }
}

/// A run over an edition: its text, its replies, how many bytes of these there are behind each publish, and the editions, of which the
/// first is the one that it opens.
#[derive(Drop)]
struct Link {
    survey: Survey,
    answered: Vec<usize>,
    editions: Vec<Edition>,
}

impl Link {
    /// A run that looks at the layers of an edition, or makes them where it is the empty one.
    fn over(alloc: Global, seed: u64, first: Edition) -> Result<Link, AllocError> {
        let mut survey = Survey::new(alloc, SIDE, 8, seed, first.layers.copy(alloc)?);
        let reply = format!(in alloc; "edition {}; ok", first.number)?;
        survey.turns.says("edition", &reply)?;
        if first.number == 0 {
            survey.begins()?;
        } else {
            survey.looks()?;
        }
        let mut editions = Vec::new(alloc);
        editions.push(first)?;
        Ok(Link {
            survey,
            answered: Vec::new(alloc),
            editions,
        })
    }

    /// Adds so many drawn changes.
    fn changes(&mut self, count: u32) -> Result<(), AllocError> {
        for _ in 0..count {
            self.survey.changes()?;
        }
        Ok(())
    }

    /// Adds a publish, which gives the edition of this number.
    fn publishes(&mut self, alloc: Global, number: u32) -> Result<(), AllocError> {
        let reply = format!(in alloc; "edition {number}; ok")?;
        self.survey.turns.says("publish", &reply)?;
        self.answered.push(self.survey.turns.output.len())?;
        let layers = self.survey.layers.copy(alloc)?;
        self.editions.push(Edition { number, layers })?;
        Ok(())
    }

    /// The edition of this number, where a stop may leave it once so many bytes were put: the last whose publish was answered, or the one
    /// behind it.
    fn left(&self, put: usize, number: u32) -> Option<&Edition> {
        let told = self.answered.iter().filter(|end| **end <= put).count();
        let mut may_be_left = self.editions.iter().skip(told).take(2);
        may_be_left.find(|edition| edition.number == number)
    }
}

/// A drawn run of four publishes over an edition, with a change behind them.
fn drawn_link(alloc: Global, seed: u64, first: Edition) -> Result<Link, AllocError> {
    let number = first.number;
    let mut link = Link::over(alloc, seed, first)?;
    for step in 1..=4_u32 {
        link.changes(6)?;
        link.publishes(alloc, number.wrapping_add(step))?;
    }
    link.changes(1)?;
    Ok(link)
}

/// Does the whole run over the file with the smallest pool, and compares the replies.
fn done<R: Threads + Sync + Abort>(rt: &R, alloc: Global, file: Image, link: &Link) -> Desk {
    let words = ["run", "m", "--pool", "8"];
    let run = Run::of(&words, &link.survey.turns.input);
    let (_, desk) = run.over(rt, alloc, Some(file)).expect(rt, "memory");
    assert!(rt; desk.output() == link.survey.turns.output.as_slice());
    desk
}

/// How many events there are up to a drawn stop.
fn drawn_stop(dice: &mut Dice, desk: &Desk) -> usize {
    let last = u32::try_from(desk.log().len()).unwrap_or(0);
    dice.below(last.saturating_add(1)) as usize
}

/// Stops the run at a drawn event, with a drawn choice for the free pages, and gives the file that is left and the edition that it opens to.
fn stop<R: Threads + Sync + Abort>(
    rt: &R,
    alloc: Global,
    dice: &mut Dice,
    desk: &Desk,
    link: &Link,
) -> (Image, Edition) {
    let events = drawn_stop(dice, desk);
    let choice = choice(dice.below(6) as usize);
    let file = stopped(desk, events, &choice).expect(rt, "the file that is left");
    let copy = file.copy().expect(rt, "a copy");
    let number = edition_of(rt, alloc, copy).expect(rt, "an edition");
    let edition = link.left(put_within(desk, events), number);
    let edition = edition.expect(rt, "an edition that the stop may leave");
    (file, edition.copy(alloc).expect(rt, "a copy"))
}

/// Does ten runs over one file, each but the last cut by a stop, and gives the number of the last edition.
fn last_of_chain<R: Threads + Sync + Abort>(rt: &R, alloc: Global, chain: u64) -> u32 {
    let mut dice = Dice::new(chain);
    let mut file = file_of(rt, alloc, "16", "3").expect(rt, "a file");
    let mut edition = Edition {
        number: 0,
        layers: Layers::new(alloc, SIDE).expect(rt, "layers"),
    };
    for place in 0..10_u64 {
        let seed = chain.wrapping_mul(10).wrapping_add(place);
        let link = drawn_link(alloc, seed, edition).expect(rt, "a text");
        let desk = done(rt, alloc, file, &link);
        (file, edition) = stop(rt, alloc, &mut dice, &desk, &link);
    }
    edition.number
}

/// Six chains, of which each comes past some editions.
#[test]
fn a_chain_of_ten_runs(rt: HostRuntime) {
    for chain in 0..6_u64 {
        assert!(rt; last_of_chain(&rt, rt.alloc(), chain) > 9);
    }
}
