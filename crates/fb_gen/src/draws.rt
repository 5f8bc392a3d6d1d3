//! The draws of a number.
ghost use Rattle.std.specs.Prelude.{◌≡◌, ◌+◌, ℕ, ◌<◌, ◌%◌};
ghost use Rattle.fb_gen.specs.Draws.{state_after};

/// A generator whose state is what the draws so far have left of its number.
#[derive(Clone, Copy)]
pub struct Draws {
    state: u64,
}

impl Draws {
    /// Before the first draw.
    #[tactic(auto, unfolding(crate::specs::Draws::state_after))]
    pub fn new(number: u64) -> Draws
        ensures state { result.state ≡ state_after number 0 }
        ensures small { result.state < 65537 }
    {
        Draws {
            state: number % 65537,
        }
    }

    /// One of the numbers below `below`.
    #[tactic(auto, unfolding(crate::specs::Draws::state_after))]
    pub fn draw(&mut self, below: u64) -> u64
        requires some { 0 < below }
        requires small { self.old.state < 65537 }
        ensures drawn { result ≡ self.new.state % below }
        ensures next { (number draws : ℕ) → self.old.state ≡ state_after number draws → self.new.state ≡ state_after number (draws + 1) }
        ensures small { self.new.state < 65537 }
    {
        self.state = (75 * self.state + 74) % 65537;
        self.state % below
    }
}
