//! The draws of a session.
ghost use Rattle.std.specs.Prelude.{◌≡◌, ◌<◌};
ghost use Rattle.rl_session.specs.Soak.{next_state, drawn};

/// A generator of numbers, this project's own. It goes on through a whole session.
#[derive(Clone, Copy)]
pub(crate) struct Draws {
    /// What the last draw left, or what the session began with.
    pub(crate) state: u64,
}

impl Draws {
    /// A number below `m`.
    pub(crate) fn draw(&mut self, m: u32) -> u32
        requires { 0 < m }
        ensures state { self.new.state ≡ next_state self.old.state }
        ensures drawn { result ≡ drawn self.new.state m }
        ensures below { result < m }
    {
        self.state = self
            .state
            .wrapping_mul(6_364_136_223_846_793_005)
            .wrapping_add(1_442_695_040_888_963_407);
        ((self.state >> 33) % u64::from(m)) as u32
    }
}
