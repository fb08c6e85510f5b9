use quilt_par::Gate;
use std::sync::atomic::{AtomicBool, Ordering};

/// A gate at which quadrants 0 and 3 wait for one another.
#[derive(Drop)]
pub struct Meeting {
    passed: [AtomicBool; 4],
    failed: AtomicBool,
}

impl Meeting {
    pub fn new() -> Meeting {
        Meeting {
            passed: [
                AtomicBool::new(false),
                AtomicBool::new(false),
                AtomicBool::new(false),
                AtomicBool::new(false),
            ],
            failed: AtomicBool::new(false),
        }
    }

    /// Whether each quadrant has passed once, and none has waited in vain.
    pub fn is_kept(&self) -> bool {
        self.passed
            .iter()
            .all(|passed| passed.load(Ordering::SeqCst))
            && !self.failed.load(Ordering::SeqCst)
    }

    /// Whether any quadrant has passed.
    pub fn is_begun(&self) -> bool {
        self.passed
            .iter()
            .any(|passed| passed.load(Ordering::SeqCst))
    }
}

impl Gate for Meeting {
    fn pass(&self, quadrant: u8) {
        let [first, second, third, fourth] = &self.passed;
        let (mine, other) = match quadrant {
            0 => (first, fourth),
            1 => (second, second),
            2 => (third, third),
            _ => (fourth, first),
        };
        let is_again = mine.swap(true, Ordering::SeqCst);
        if is_again || !comes(other) {
            self.failed.store(true, Ordering::SeqCst);
        }
    }
}

/// Whether the flag is set within 200,000,000 turns.
fn comes(flag: &AtomicBool) -> bool {
    for _ in 0..200_000_000_u32 {
        if flag.load(Ordering::SeqCst) {
            return true;
        }
    }
    false
}
