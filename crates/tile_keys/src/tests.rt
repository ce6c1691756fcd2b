//! Keys as they come out of the definition, computed outside the program.

use crate::{FIRST_NAME_KEY, name_key, tile_key};
use grid_core::{Name, TileId};

#[test]
fn tiles_have_the_keys_of_the_definition(rt: HostRuntime) {
    for ([i, j], key) in [
        ([0, 0], 0x5000_0000),
        ([0, 1], 0x5000_0001),
        ([0, 2], 0x5000_0002),
        ([1, 0], 0x5000_0004),
        ([3, 3], 0x5000_000F),
        ([4, 0], 0x5000_0040),
        ([0, 4], 0x5000_0010),
        ([-1, -1], 0x0FFF_FFFF),
        ([-1, 0], 0x1CCC_CCCC),
        ([255, 256], 0x5001_CCCC),
        ([-300, 77], 0x1CC8_D471),
        ([4095, -4096], 0x43CC_CCCC),
        ([12345, -6789], 0x4E11_1FA7),
        ([-16384, -16384], 0x0000_0000),
        ([-16384, 16384], 0x2000_0000),
        ([16384, -16384], 0x8000_0000),
        ([16384, 16384], 0xA000_0000),
    ] {
        assert_eq!(rt; tile_key(TileId { i, j }), key);
    }
}

#[test]
fn names_have_the_keys_of_the_definition(rt: HostRuntime) {
    assert_eq!(rt; FIRST_NAME_KEY, 0xC000_0000);
    for ((editor, serial), key) in [
        ((1, 1), 0xC001_0001),
        ((1, 65535), 0xC001_FFFF),
        ((2, 1), 0xC002_0001),
        ((7, 300), 0xC007_012C),
        ((64, 1), 0xC040_0001),
        ((64, 65535), 0xC040_FFFF),
    ] {
        let name = Name::new(editor, serial).expect(
            &rt,
            "an editor from 1 to 64, and a serial above 0",
        );
        assert_eq!(rt; name_key(name), key);
    }
}
