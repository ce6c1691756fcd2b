//! What holds of all keys. A call gives its caller the laws, and does nothing when it runs.

ghost use Rattle.tile_keys.specs.Laws.{TilesAreToldApart, NamesAreToldApart, NamesGoByKey};
ghost use Rattle.tile_keys.specs.Laws.{TilesComeFirst};

/// No two tiles in reach have one key, and no two names; names are ordered as their keys are; and each
/// tile in reach has a key before that of each name.
pub fn keys_are_told_apart()
    ensures tiles { TilesAreToldApart }
    ensures names { NamesAreToldApart }
    ensures order { NamesGoByKey }
    ensures first { TilesComeFirst }
{}
