//! Points of the integer grid, and the hot pixels of a rounding with their counts.

/// A grid point, or the direction between two. As a pixel it is the unit square around the point:
///
/// ```text
///    o - - - - o       (i, j) stands for i - 1/2 <= x < i + 1/2
///    |         :                 and for j - 1/2 <= y < j + 1/2:
///    |   i,j   :       the left and the lower side belong to the pixel,
///    |         :       with the corner between them; the right and the
///    +---------o       upper side and the other corners to its neighbours
/// ```
///
/// Points are ordered by x, and at one x by y.
#[derive(Clone, Copy, Debug, PartialEq, Eq, PartialOrd, Ord)]
pub struct Point {
    /// In pixels, rightwards.
    pub x: i64,
    /// In pixels, upwards.
    pub y: i64,
}

/// A hot pixel of a rounding, with the reasons why it is hot.
#[derive(Clone, Copy, Debug, PartialEq, Eq)]
pub struct Vertex {
    /// The pixel.
    pub at: Point,
    /// How many segment ends lie at `at`.
    pub ends: u32,
    /// How many pairs of segments cross in this pixel; touches and shared ends count.
    pub crossings: u32,
}
