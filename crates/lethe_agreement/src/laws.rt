//! Laws of the pages of a file. The functions do nothing: their contracts are the laws.
ghost use Rattle.std.specs.Prelude.{◌↔◌, ℕ, List, map};
ghost use Rattle.std.specs.List.{AllZip};
ghost use Rattle.lethe_header.specs.declared.header.TileLine.{TileLine};
ghost use Rattle.lethe_file.specs.Agreement.{Agrees, FileAgrees, TileHolds, entries_in};
ghost use Rattle.lethe_agreement.specs.Soundness.{IsSoundTile, AreSoundTiles};

/// Pages that are sound one after the other are those that a tile, and a file, tells of.
pub fn sound_pages_agree()
    ensures tile { (tile : TileLine) (pages : List (List ℕ)) → IsSoundTile tile pages ↔ (AllZip Agrees tile.pages pages × TileHolds tile (map entries_in pages)) }
    ensures file { (tiles : List TileLine) (pages : List (List ℕ)) → FileAgrees tiles pages ↔ AreSoundTiles tiles pages }
{}
