//! Whose lists are: those of segments, by their names, and those of pixels.
ghost use Rattle.std.specs.Prelude.{◌≡◌};
ghost use Rattle.std.specs.Ordering.{is_lt};

use grid_core::{Name, Point};

/// Whose a list is: a segment, by its name, or a pixel.
pub(crate) trait Owner: Ord + Copy {
    /// Whether it comes before the other.
    ///
    /// Both parts are compared, whatever the first says: a search then has no branch to guess, and
    /// a wrong guess costs more than a comparison.
    fn is_before(&self, other: &Self) -> bool
        ensures { result ≡ is_lt (Self.cmp self.now other.now) };
}

impl Owner for Name {
    #[inline(always)]
    fn is_before(&self, other: &Name) -> bool {
        let lesser = self.editor() < other.editor();
        let alike = self.editor() == other.editor();
        lesser | (alike & (self.serial() < other.serial()))
    }
}

impl Owner for Point {
    #[inline(always)]
    fn is_before(&self, other: &Point) -> bool {
        let lesser = self.x < other.x;
        let alike = self.x == other.x;
        lesser | (alike & (self.y < other.y))
    }
}
