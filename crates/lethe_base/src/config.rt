//! The configuration of a store, and its limits.
ghost use Rattle.std.specs.Prelude.{◌≡◌, ◌↔◌, ◌^◌, ◌-◌, min, IfErr, IfOk, IsOk, Some};
ghost use Rattle.lethe_base.specs.Configuration.{least_of, greatest_of, value_of, file_entries, is_within, first_broken, default_fields, IsConfig};

use std::marker::Model;

/// The most entries that a file may have: `page * tile * file` at most.
pub const MAX_FILE_ENTRIES: u64 = 65_536;

/// Which file of a saturated level is merged first.
#[derive(Clone, Copy, Debug, PartialEq, Eq)]
pub enum Pick {
    /// The one with the fewest entries below it.
    So,
    /// The one with the most tombstones.
    Sd,
}

/// The numbers of a configuration, which may be out of their limits.
#[derive(Clone, Copy, Debug, PartialEq, Eq)]
pub struct Fields {
    /// After how much time deleted entries are physically gone, from 1 to 2^40.
    pub threshold: u64,
    /// How many times a level's size is that of the level above, from 2 to 16.
    pub ratio: u64,
    /// The number of the last level, from 1 to 6.
    pub levels: u64,
    /// The most entries of a page, from 1 to 1,024.
    pub page: u64,
    /// The most pages of puts in a tile, from 1 to 64.
    pub tile: u64,
    /// The most tiles of a file, from 1 to 256, and such that a file has at most `MAX_FILE_ENTRIES` entries.
    pub file: u64,
    /// The most records of a buffer, from 1 to 16,384, and at most a file's entries.
    pub buffer: u64,
    pub pick: Pick,
}

impl Default for Fields {
    ghost is_default = { λ fields. fields ≡ default_fields };

    fn default() -> Fields {
        Fields {
            threshold: 1000,
            ratio: 4,
            levels: 3,
            page: 64,
            tile: 4,
            file: 8,
            buffer: 512,
            pick: Pick::So,
        }
    }
}

/// A field that has limits.
#[derive(Clone, Copy, Debug, PartialEq, Eq)]
pub enum Field {
    Threshold,
    Ratio,
    Levels,
    Page,
    Tile,
    File,
    Buffer,
}

/// The fields with limits, in the order in which they are tested.
const FIELDS: [Field; 7] = [
    Field::Threshold,
    Field::Ratio,
    Field::Levels,
    Field::Page,
    Field::Tile,
    Field::File,
    Field::Buffer,
];

impl Field {
    /// The least value of the field.
    pub fn least(self) -> u64
        ensures { result ≡ least_of self }
    {
        match self {
            Field::Ratio => 2,
            _ => 1,
        }
    }

    /// The greatest value of the field, whatever the other fields are.
    pub fn greatest(self) -> u64
        ensures { result ≡ greatest_of self }
    {
        match self {
            Field::Threshold => 1 << 40,
            Field::Ratio => 16,
            Field::Levels => 6,
            Field::Page => 1024,
            Field::Tile => 64,
            Field::File => 256,
            Field::Buffer => 16_384,
        }
    }
}

/// The first field that breaks its limit, and its value.
#[derive(Clone, Copy, Debug, PartialEq, Eq)]
pub struct ConfigRefused {
    pub field: Field,
    pub value: u64,
}

impl Fields {
    fn value(&self, field: Field) -> u64
        ensures { result ≡ value_of self.now field }
    {
        match field {
            Field::Threshold => self.threshold,
            Field::Ratio => self.ratio,
            Field::Levels => self.levels,
            Field::Page => self.page,
            Field::Tile => self.tile,
            Field::File => self.file,
            Field::Buffer => self.buffer,
        }
    }

    // The most entries of a file, or the greatest number where they are more.
    fn file_entries(&self) -> u64
        ensures { result ≡ min (file_entries self.now) (2 ^ 64 - 1) }
    {
        self.page
            .saturating_mul(self.tile)
            .saturating_mul(self.file)
    }

    /// Whether the field is within its limits. Those of the file and of the buffer depend on the fields before them.
    pub fn is_within(&self, field: Field) -> bool
        ensures { result ≡ is_within self.now field }
    {
        let value = self.value(field);
        let goes_along = match field {
            Field::File => self.file_entries() <= MAX_FILE_ENTRIES,
            Field::Buffer => value <= self.file_entries(),
            _ => true,
        };
        field.least() <= value && value <= field.greatest() && goes_along
    }

    fn first_broken(&self) -> Option<Field>
        ensures { result ≡ first_broken self.now }
    {
        FIELDS.iter().copied().find(|field| !self.is_within(*field))
    }
}

/// Fields that are all within their limits. Contracts see a configuration as its fields.
#[derive(Clone, Copy, Debug, PartialEq, Eq)]
pub struct Config {
    fields: Fields,
}

impl Model for Config {
    ghost use Rattle.lethe_base.specs.declared.config.Fields.{Fields};
    ghost use Rattle.lethe_base.specs.Configuration.{IsConfig};

    ghost Value = { Fields };

    ghost view = { λ c. c.fields };

    ghost invariant = { λ c. IsConfig c.fields };

    ghost inverse = { λ fields. record { fields = fields } };
}

impl Config {
    /// The configuration of these fields, or the first of them that breaks its limit, in the order of `Field`.
    pub fn new(fields: Fields) -> Result<Config, ConfigRefused>
        ensures config { IfOk result (λ config. config ≡ fields) }
        ensures exact { IsOk result ↔ IsConfig fields }
        ensures refused { IfErr result (λ why. (first_broken fields ≡ Some why.field)
            × (why.value ≡ value_of fields why.field)) }
    {
        match fields.first_broken() {
            Some(field) => Err(ConfigRefused {
                field,
                value: fields.value(field),
            }),
            None => Ok(Config { fields }),
        }
    }

    /// Its fields.
    pub fn fields(&self) -> &Fields
        ensures fields { result.now ≡ self.now }
        ensures limits { IsConfig self.now }
    {
        &self.fields
    }
}
