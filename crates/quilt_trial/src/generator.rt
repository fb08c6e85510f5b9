ghost use Rattle.std.specs.Prelude.{◌≡◌, ◌<◌};
ghost use Rattle.quilt_lang.specs.Trials.{stepped, drawn};

/// A linear congruential generator of 64 bits (Knuth 1997, 3.2.1).
#[derive(Clone, Copy)]
pub struct Generator {
    pub state: u64,
}

impl Generator {
    /// Goes on, and draws a number below m by the high bits of the new state.
    pub fn draw(&mut self, m: u64) -> u64
        requires { 0 < m }
        ensures state { self.new.state ≡ stepped self.old.state }
        ensures is { result ≡ drawn self.new.state m }
        ensures below { result < m }
    {
        self.state = step(self.state);
        (self.state >> 33) % m
    }
}

/// The next state.
fn step(state: u64) -> u64
    ensures { result ≡ stepped state }
{
    state
        .wrapping_mul(6_364_136_223_846_793_005)
        .wrapping_add(1_442_695_040_888_963_407)
}
