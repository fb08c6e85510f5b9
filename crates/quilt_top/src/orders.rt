ghost use Rattle.std.specs.Prelude.{◌≤◌};

/// A map file that is to be made.
#[derive(Clone, Copy)]
pub(crate) struct NewFile<'a> {
    pub(crate) path: &'a str,
    pub(crate) pages: u32,
    pub(crate) level: u8,
    ghost pages_in_range: { (16 ≤ pages) × (pages ≤ 30000) },
    ghost level_in_range: { (1 ≤ level) × (level ≤ 12) },
}

/// Which commands are run over a map file.
#[derive(Clone, Copy)]
pub(crate) enum Source {
    /// Those of the input, and their replies are put.
    Input,
    /// Those of the text of a trial, and a summary of their replies is put.
    Trial { seed: u64, count: u32 },
}

/// A map file that commands are run over, through a pool of so many pages.
#[derive(Clone, Copy)]
pub(crate) struct RunFile<'a> {
    pub(crate) path: &'a str,
    pub(crate) pool: u32,
    pub(crate) source: Source,
    ghost pool_in_range: { (8 ≤ pool) × (pool ≤ 4096) },
}

/// What is to be done.
#[derive(Clone, Copy)]
pub(crate) enum Order<'a> {
    New(NewFile<'a>),
    Run(RunFile<'a>),
}
