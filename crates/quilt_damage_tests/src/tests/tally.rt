use quilt_plain_pages::Flaw;

/// How many files were taken, how many had sound pages and no map, how many were damaged in each way, and how high the trees were.
#[derive(Clone, Copy, Debug)]
pub struct Tally {
    pub taken: u32,
    pub no_map: u32,
    pub twice: u32,
    pub form: u32,
    pub height: u32,
    pub bounds: u32,
    pub few: u32,
    pub heights: [u32; 4],
}

impl Tally {
    /// No file yet.
    pub fn new() -> Tally {
        Tally {
            taken: 0,
            no_map: 0,
            twice: 0,
            form: 0,
            height: 0,
            bounds: 0,
            few: 0,
            heights: [0; 4],
        }
    }

    /// How many files had a damaged page.
    fn damaged(&self) -> u32 {
        self.twice
            .saturating_add(self.form)
            .saturating_add(self.height)
            .saturating_add(self.bounds)
            .saturating_add(self.few)
    }

    /// Whether, of 600 files, enough came to each verdict, had a page damaged in each way, and had trees of each height.
    pub fn is_varied(&self) -> bool {
        let verdicts = 60 <= self.taken && 120 <= self.no_map && 250 <= self.damaged();
        let flaws = 150 <= self.form && 15 <= self.bounds && 5 <= self.few;
        let rare = 3 <= self.twice && 3 <= self.height;
        verdicts && flaws && rare && self.heights == [0, 180, 360, 60]
    }

    /// Counts a file whose page was damaged in this way.
    pub fn count_flaw(&mut self, flaw: Flaw) {
        let count = match flaw {
            Flaw::Twice => &mut self.twice,
            Flaw::Form => &mut self.form,
            Flaw::Height => &mut self.height,
            Flaw::Bounds => &mut self.bounds,
            Flaw::Few => &mut self.few,
        };
        *count = count.saturating_add(1);
    }

    /// Counts a file whose pages were sound, which has a map or none.
    pub fn count_whole(&mut self, has_map: bool) {
        let count = if has_map {
            &mut self.taken
        } else {
            &mut self.no_map
        };
        *count = count.saturating_add(1);
    }

    /// Counts a tree of this height.
    pub fn count_height(&mut self, height: u8) {
        if let Some(count) = self.heights.get_mut(usize::from(height)) {
            *count = count.saturating_add(1);
        }
    }
}
