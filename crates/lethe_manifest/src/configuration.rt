//! Reading the configuration of a manifest.
ghost use Rattle.std.specs.Prelude.{◌≡◌, ◌*◌, ◌≤◌, IfOk};
ghost use Rattle.lethe_base.specs.Configuration.{greatest_of, max_file_entries};
ghost use Rattle.lethe_manifest.specs.Reading.{limited_at, tiles_at, buffer_at, pick_at, sizes_at, config_at};

use crate::ManifestRefused;
use crate::fields::{read_byte, read_u16, read_u64};
use lethe_base::{Config, Field, Fields, MAX_FILE_ENTRIES, Pick};

// A number of the configuration, within the field's own limits.
fn read_limited(field: Field, bytes: &[u8], at: usize) -> Result<u64, ManifestRefused>
    ensures value { result ≡ limited_at field bytes.now at }
    ensures limit { IfOk result (λ value. value ≤ greatest_of field) }
{
    let (least, greatest) = (field.least(), field.greatest());
    match field {
        Field::Threshold => read_u64(bytes, at, least, greatest),
        Field::Page | Field::File | Field::Buffer => read_u16(bytes, at, least, greatest),
        Field::Ratio | Field::Levels | Field::Tile => read_byte(bytes, at, least, greatest),
    }
}

#[tactic(auto, unfolding(crate::specs::Reading::tiles_at))]
fn read_tiles(tile_entries: u64, bytes: &[u8], at: usize) -> Result<u64, ManifestRefused>
    requires { tile_entries ≤ max_file_entries }
    ensures file { result ≡ tiles_at tile_entries bytes.now at }
    ensures entries { IfOk result (λ file. tile_entries * file ≤ max_file_entries) }
{
    let file = read_limited(Field::File, bytes, at)?;
    if tile_entries * file <= MAX_FILE_ENTRIES {
        Ok(file)
    } else {
        Err(ManifestRefused::Kind { at: at as u64 })
    }
}

#[tactic(auto, unfolding(crate::specs::Reading::buffer_at))]
fn read_buffer(entries: u64, bytes: &[u8], at: usize) -> Result<u64, ManifestRefused>
    ensures { result ≡ buffer_at entries bytes.now at }
{
    let buffer = read_limited(Field::Buffer, bytes, at)?;
    if buffer <= entries {
        Ok(buffer)
    } else {
        Err(ManifestRefused::Kind { at: at as u64 })
    }
}

#[tactic(auto, unfolding(crate::specs::Reading::pick_at))]
fn read_pick(bytes: &[u8], at: usize) -> Result<Pick, ManifestRefused>
    ensures { result ≡ pick_at bytes.now at }
{
    if read_byte(bytes, at, 0, 1)? == 0 {
        Ok(Pick::So)
    } else {
        Ok(Pick::Sd)
    }
}

// The fields behind the threshold, the ratio and the levels, beside these.
#[tactic(auto, unfolding(crate::specs::Reading::sizes_at))]
fn read_sizes(times: Fields, bytes: &[u8]) -> Result<Fields, ManifestRefused>
    ensures { result ≡ sizes_at times bytes.now }
{
    let page = read_limited(Field::Page, bytes, 21)?;
    let tile = read_limited(Field::Tile, bytes, 23)?;
    let tile_entries = page * tile;
    let file = read_tiles(tile_entries, bytes, 24)?;
    let buffer = read_buffer(tile_entries * file, bytes, 26)?;
    let pick = read_pick(bytes, 28)?;
    Ok(Fields {
        page,
        tile,
        file,
        buffer,
        pick,
        ..times
    })
}

#[tactic(auto, unfolding(crate::specs::Reading::config_at))]
fn read_fields(bytes: &[u8]) -> Result<Fields, ManifestRefused>
    ensures { result ≡ config_at bytes.now }
{
    let threshold = read_limited(Field::Threshold, bytes, 11)?;
    let ratio = read_limited(Field::Ratio, bytes, 19)?;
    let levels = read_limited(Field::Levels, bytes, 20)?;
    let times = Fields {
        threshold,
        ratio,
        levels,
        ..Fields::default()
    };
    read_sizes(times, bytes)
}

/// The configuration, which begins behind the manifest's number.
pub fn read_config(bytes: &[u8]) -> Result<Config, ManifestRefused>
    ensures { result ≡ config_at bytes.now }
{
    let fields = read_fields(bytes)?;
    Ok(Config::new(fields).unwrap())
}
