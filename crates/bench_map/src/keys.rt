//! The keys of the works.

/// How many tiles the longest segment meets.
pub const LONG: u32 = 8_193;

/// How many tiles a window of 64 by 64 tiles has.
pub const WINDOW: u32 = 4_096;

/// Keys without order.
#[derive(Drop)]
pub(crate) struct Draws {
    state: u64,
}

impl Draws {
    pub(crate) fn start() -> Draws {
        Draws { state: 1 }
    }

    pub(crate) fn next(&mut self) -> u32 {
        self.state = self
            .state
            .wrapping_mul(6_364_136_223_846_793_005)
            .wrapping_add(1_442_695_040_888_963_407);
        (self.state >> 32 & 0xffff_ffff) as u32
    }
}

/// The key of the tile in column `x` and row `y`, both counted from the corner of the drawing.
pub(crate) fn tile_key(x: u32, y: u32) -> u32 {
    x.wrapping_mul(8_193).wrapping_add(y)
}

/// The n-th tile of the window in the middle of the drawing, column by column.
pub(crate) fn window_key(n: u32) -> u32 {
    tile_key(
        (n / 64 % 64).wrapping_add(4_096),
        (n % 64).wrapping_add(4_096),
    )
}

/// The n-th tile of a segment that runs up the middle.
pub(crate) fn steep_key(n: u32) -> u32 {
    tile_key(4_096, n)
}

/// The n-th tile of a segment that runs along the middle.
pub(crate) fn flat_key(n: u32) -> u32 {
    tile_key(n, 4_096)
}
