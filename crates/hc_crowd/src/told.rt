//! How far a crowd has come, as its world has told.

ghost use Rattle.std.specs.Prelude.{◌≡◌, true};
ghost use Rattle.hc_crowd.specs.Courses.{stops};

use crate::course::Course;
use hc_attended::World;
use std::marker::PhantomData;

/// How far a crowd has come: past serving only where its world has told of a stop. So it invents none.
pub(crate) struct Told<W: World> {
    pub(crate) course: Course,
    /// Whose world it is.
    pub(crate) by: PhantomData<W>,
    ghost asked: { stops course ≡ true → W.stop_asked ≡ true },
}

impl<W: World> Drop for Told<W> {
    fn drop(self) {
        let Told { course: _, by: _ } = self;
    }
}
