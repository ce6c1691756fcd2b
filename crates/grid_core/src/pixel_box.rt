//! Boxes of pixels, each given by its lower left and its upper right pixel.

use crate::Point;

/// The pixels from `lo` to `hi`, both included: `lo.x - 1/2 <= x < hi.x + 1/2`, and the same in y.
#[derive(Clone, Copy, Debug, PartialEq, Eq)]
pub struct PixelBox {
    /// The lower left pixel: the least x and the least y.
    pub lo: Point,
    /// The upper right pixel: the greatest x and the greatest y.
    pub hi: Point,
}
