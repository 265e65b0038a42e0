//! Files and the ranges of their keys.
ghost use Rattle.std.specs.Prelude.{◌≡◌, All, Contains};
ghost use Rattle.lethe_base.specs.Layout.{File};
ghost use Rattle.lethe_cover.specs.Moves.{IsApart};
ghost use Rattle.lethe_moves.specs.Files.{IsClearOf, IsTiled, keys_of};

/// Where the ranges of two files don't meet, the files share no key.
pub fn clear_files_share_no_key()
    ensures { (file other : File) → IsTiled file → IsTiled other → IsClearOf (keys_of file) other → IsApart file other }
{}
