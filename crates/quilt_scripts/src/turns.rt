use crate::run::Run;
use quilt_world::Image;
use std::alloc::{AllocError, Global};
use std::thread::Threads;

/// The commands of one run, and the replies that they must get.
#[derive(Drop)]
pub struct Turns {
    pub input: Vec<u8>,
    pub output: Vec<u8>,
}

/// The words, and the numbers behind them.
pub fn line_of(alloc: Global, words: &str, numbers: &[u32]) -> Result<String, AllocError> {
    let mut line = String::from_str(alloc, words)?;
    for number in numbers {
        line.push_str(&format!(in alloc; " {number}")?)?;
    }
    Ok(line)
}

/// Adds the pieces of the text between semicolons, with a newline behind each.
fn add_lines(text: &mut Vec<u8>, pieces: &str) -> Result<(), AllocError> {
    for piece in pieces.split("; ") {
        text.extend_from_slice(piece.as_bytes())?;
        text.push(b'\n')?;
    }
    Ok(())
}

impl Turns {
    pub fn new(alloc: Global) -> Turns {
        Turns {
            input: Vec::new(alloc),
            output: Vec::new(alloc),
        }
    }

    /// Adds a command with its further lines, and the lines of its reply, if it has one. Between two lines stands `; `.
    pub fn says(&mut self, command: &str, reply: &str) -> Result<(), AllocError> {
        add_lines(&mut self.input, command)?;
        if reply.is_empty() {
            return Ok(());
        }
        add_lines(&mut self.output, reply)
    }

    /// The status of a run with these replies.
    pub fn status(&self) -> u8 {
        let is_refused = self
            .output
            .split(|b| *b == b'\n')
            .any(|line| line.starts_with(b"no "));
        u8::from(is_refused)
    }

    /// Does the run over a copy of the file, with a byte in each call: whether it puts these replies and has their status.
    fn is_played_in_pieces<R: Threads + Sync>(
        &self,
        rt: &R,
        alloc: Global,
        run: Run,
        file: &Image,
    ) -> bool {
        match file.copy() {
            Ok(copy) => run
                .in_pieces(1)
                .answers(rt, alloc, copy, &self.output, self.status())
                .is_some(),
            Err(_) => false,
        }
    }

    /// Runs the commands over the file with a pool of so many pages, once byte by byte and once whole: the file as it is then, where
    /// each run puts these replies and has their status.
    pub fn played<R: Threads + Sync>(
        &self,
        rt: &R,
        alloc: Global,
        file: Image,
        pool: &str,
    ) -> Option<Image> {
        let words = ["run", "m", "--pool", pool];
        let run = Run::of(&words, &self.input);
        if !self.is_played_in_pieces(rt, alloc, run, &file) {
            return None;
        }
        run.answers(rt, alloc, file, &self.output, self.status())
    }
}
