//! The names of the files that hold a disk's objects.
ghost use Rattle.std.specs.Prelude.{◌≡◌, ◌<◌, ◌^◌, ◌↔◌, ℕ, Some};
ghost use Rattle.lethe_base.specs.declared.name.Kind.{Kind};
ghost use Rattle.lethe_base.specs.declared.name.Name.{Name};
ghost use Rattle.lethe_dirdisk.specs.FileNames.{letter, digits, file_name};

use lethe_base::{Kind, Name};

/// How many digits a number has.
const DIGITS: usize = 20;

/// How long such a name is.
pub const FILE_NAME_LEN: usize = 22;

fn letter_of(kind: Kind) -> u8
    ensures { result ≡ letter kind }
{
    match kind {
        Kind::Gate => b'g',
        Kind::Manifest => b'm',
        Kind::Segment => b's',
        Kind::File => b'f',
        Kind::Page => b'p',
    }
}

fn kind_of(byte: u8) -> Option<Kind>
    ensures { (kind : Kind) → ((result ≡ Some kind) ↔ (byte ≡ letter kind)) }
{
    match byte {
        b'g' => Some(Kind::Gate),
        b'm' => Some(Kind::Manifest),
        b's' => Some(Kind::Segment),
        b'f' => Some(Kind::File),
        b'p' => Some(Kind::Page),
        _ => None,
    }
}

/// The name of the file that holds an object.
pub fn spell_file_name(name: Name) -> [u8; FILE_NAME_LEN]
    ensures { result ≡ file_name name }
{
    let mut text = [b'-'; FILE_NAME_LEN];
    text[0] = letter_of(name.kind);
    let mut rest = name.no;
    let mut at = FILE_NAME_LEN;
    while at > FILE_NAME_LEN - DIGITS {
        at -= 1;
        text[at] = b'0' + (rest % 10) as u8;
        rest /= 10;
    }
    text
}

fn read_number(text: &[u8]) -> Option<u64>
    ensures { (no : ℕ) → no < 2 ^ 64 → ((result ≡ Some no) ↔ (text.now ≡ digits 20 no)) }
{
    if text.len() != DIGITS {
        return None;
    }
    let mut no: u64 = 0;
    for digit in text {
        if !digit.is_ascii_digit() {
            return None;
        }
        no = no.checked_mul(10)?.checked_add((*digit - b'0') as u64)?;
    }
    Some(no)
}

fn read_parts(byte: u8, number: &[u8]) -> Option<Name>
    ensures { (name : Name) → name.no < 2 ^ 64 → ((result ≡ Some name) ↔ ((byte ≡ letter name.kind) × (number.now ≡ digits 20 name.no))) }
{
    let kind = kind_of(byte)?;
    let no = read_number(number)?;
    Some(Name { kind, no })
}

/// The name of the object that a file of this name holds. None where no object's file has this name.
pub fn read_file_name(text: &[u8]) -> Option<Name>
    ensures { (name : Name) → name.no < 2 ^ 64 → ((result ≡ Some name) ↔ (text.now ≡ file_name name)) }
{
    match text {
        [byte, b'-', number @ ..] => read_parts(*byte, number),
        _ => None,
    }
}
