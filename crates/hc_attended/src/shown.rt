//! What a world's clock has shown.

ghost use Rattle.std.specs.Prelude.{◌≡◌, true};

use crate::world::World;
use std::marker::PhantomData;

/// A millisecond that a world's clock has shown: so nobody invents a time.
pub struct Shown<W: World> {
    /// The millisecond.
    pub tick: u64,
    /// Whose clock it is.
    pub by: PhantomData<W>,
    ghost shown: { W.shows_tick tick ≡ true },
}

impl<W: World> Drop for Shown<W> {
    fn drop(self) {
        let Shown { tick: _, by: _ } = self;
    }
}

impl<W: World> Shown<W> {
    ghost use Rattle.std.specs.Prelude.{◌≤◌};

    /// What the clock shows now; where it went back, what it showed before.
    pub(crate) fn look(&mut self, world: &W)
        ensures { self.old.tick ≤ self.new.tick }
    {
        let tick = world.tick();
        if tick > self.tick {
            self.tick = tick;
        }
    }
}
