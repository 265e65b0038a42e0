//! Certificates as JSON.
ghost use Rattle.std.specs.Prelude.{◌≡◌, ℕ, List, None, Err, IfOk, IfSome};
ghost use Rattle.std.specs.String.{string_bytes};
ghost use Rattle.hex.specs.Hex.{IsBytes, encode_lower};
ghost use Rattle.serde_json.specs.Data.{Data, Members, member, object};
ghost use Rattle.serde_json.specs.View.{members_view, view};
ghost use Rattle.lethe_cert.specs.Json.{IsDigest, IsJsonOf, certificate_json, digits, json_data, whole, with_digest};
ghost use Rattle.lethe_cert.specs.declared.form.CertRefused.TheVariants.{Form};

use crate::certificate::Certificate;
use hex::FromHex;
use lethe_base::NoMemory;
use serde_json::error::Category;
use serde_json::{Map, Value, json as made};
use std::alloc::{AllocError, Global};

/// Why bytes are no certificate.
#[derive(Debug, Clone, Copy, PartialEq, Eq, Drop)]
pub enum CertRefused {
    /// They aren't a JSON object with just a certificate's four members.
    Form,
    NoMemory,
}

impl Certificate {
    /// `{"before":B,"clock":T,"number":N,"sha256":"H"}`: the numbers in decimal, and the digest in 64 lower-case hexadecimal digits.
    pub fn json(&self, alloc: Global) -> Result<String, NoMemory>
        ensures text { IfOk result (λ text. string_bytes text ≡ certificate_json self.now) }
        // It reads as the certificate.
        ensures reads { IfOk result (λ text. IsJsonOf (string_bytes text) self.now) }
    {
        let digest = digits_of(alloc, self.digest.as_slice())?;
        let text = value_of(alloc, self, digest)?.to_string(alloc)?;
        // It is text, as every string is.
        let _utf8 = text.as_str();
        Ok(text)
    }
}

/// The lower-case digits of bytes.
fn digits_of(alloc: Global, bytes: &[u8]) -> Result<String, AllocError>
    ensures text { IfOk result (λ text. string_bytes text ≡ encode_lower bytes.now) }
    ensures bytes { IsBytes bytes.now }
{
    hex::encode(alloc, bytes)
}

/// The object of a certificate, whose digest is this text.
fn value_of(alloc: Global, certificate: &Certificate, digest: String) -> Result<Value, AllocError>
    ensures { IfOk result (λ value. view value ≡ with_digest certificate.now (string_bytes digest)) }
{
    let before = certificate.before;
    let clock = certificate.clock;
    let number = certificate.number;
    made!(in alloc; {"before": before, "clock": clock, "number": number, "sha256": digest})
}

/// The certificate that bytes are as JSON: an object with just its four members, in any order and with white space where JSON has it.
/// The digest has 64 digits, no letter of them upper-case. Of a key that comes twice the last value counts.
///
/// # Errors
///
/// `Form` exactly where they are none, `NoMemory`.
pub fn from_json(alloc: Global, bytes: &[u8]) -> Result<Certificate, CertRefused>
    ensures ok { IfOk result (λ certificate. IsJsonOf bytes.now certificate) }
    ensures form { result ≡ Err Form → (certificate : Certificate) → IsDigest certificate.digest → IsJsonOf bytes.now certificate → ⊥ }
{
    match Value::from_slice(alloc, bytes) {
        Ok(value) => match certificate_in(value) {
            Some(certificate) => Ok(certificate),
            None => Err(CertRefused::Form),
        },
        Err(error) => match error.classify() {
            Category::Memory => Err(CertRefused::NoMemory),
            _ => Err(CertRefused::Form),
        },
    }
}

/// The certificate that a value is.
fn certificate_in(value: Value) -> Option<Certificate>
    ensures some { IfSome result (λ certificate. view value ≡ json_data certificate) }
    ensures none { result ≡ None → (certificate : Certificate) → IsDigest certificate.digest → view value ≡ json_data certificate → ⊥ }
{
    let Value::Object(members) = value else {
        return None;
    };
    certificate_of(members)
}

/// The certificate whose members these are. They come in the order of their keys, so a fifth, a missing and another key are told by one test.
fn certificate_of(mut members: Map<String, Value>) -> Option<Certificate>
    ensures some { IfSome result (λ certificate. object (members_view members.entries) ≡ json_data certificate) }
    ensures none { result ≡ None → (certificate : Certificate) → IsDigest certificate.digest → object (members_view members.entries) ≡ json_data certificate → ⊥ }
{
    let before = take_number(&mut members, "before")?;
    let clock = take_number(&mut members, "clock")?;
    let number = take_number(&mut members, "number")?;
    let digest = take_digest(&mut members, "sha256")?;
    if members.is_empty() {
        Some(Certificate {
            number,
            clock,
            before,
            digest,
        })
    } else {
        None
    }
}

/// The number at the first key, where that is this name.
fn take_number(members: &mut Map<String, Value>, name: &str) -> Option<u64>
    ensures some { IfSome result (λ number. members_view members.old.entries ≡ member name.now (whole number) (members_view members.new.entries)) }
    ensures none { result ≡ None → (number : ℕ) (rest : Members) → members_view members.old.entries ≡ member name.now (whole number) rest → ⊥ }
{
    take(members, name)?.as_u64()
}

/// The digest at the first key, where that is this name.
fn take_digest(members: &mut Map<String, Value>, name: &str) -> Option<[u8; 32]>
    ensures some { IfSome result (λ digest. members_view members.old.entries ≡ member name.now (digits digest) (members_view members.new.entries)) }
    ensures none { result ≡ None → (digest : List ℕ) (rest : Members) → IsDigest digest → members_view members.old.entries ≡ member name.now (digits digest) rest → ⊥ }
{
    digest_in(&take(members, name)?)
}

/// The value at the first key, where that is this name.
fn take(members: &mut Map<String, Value>, name: &str) -> Option<Value>
    ensures some { IfSome result (λ value. members_view members.old.entries ≡ member name.now (view value) (members_view members.new.entries)) }
    ensures none { result ≡ None → (value : Data) (rest : Members) → members_view members.old.entries ≡ member name.now value rest → ⊥ }
{
    let (key, value) = members.pop_first()?;
    if key.as_str() == name {
        Some(value)
    } else {
        None
    }
}

/// The digest that a value tells in lower-case digits.
fn digest_in(value: &Value) -> Option<[u8; 32]>
    ensures some { IfSome result (λ digest. view value.now ≡ digits digest) }
    ensures none { result ≡ None → (digest : List ℕ) → IsDigest digest → view value.now ≡ digits digest → ⊥ }
{
    digest_of(value.as_str()?)
}

/// The digest that a text tells in lower-case digits: decoded, and encoded again, since digits are decoded in either case.
fn digest_of(text: &str) -> Option<[u8; 32]>
    ensures some { IfSome result (λ digest. text.now ≡ encode_lower digest) }
    ensures none { result ≡ None → (digest : List ℕ) → IsDigest digest → text.now ≡ encode_lower digest → ⊥ }
{
    let digest = <[u8; 32] as FromHex>::from_hex(text).ok()?;
    let mut again = [0u8; 64];
    hex::encode_to_slice(digest.as_slice(), again.as_mut_slice()).ok()?;
    if again.as_slice() == text.as_bytes() {
        Some(digest)
    } else {
        None
    }
}
