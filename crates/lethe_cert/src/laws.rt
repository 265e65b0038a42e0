//! What a certificate's text and its JSON tell. The functions do nothing: their contracts are the laws.
ghost use Rattle.std.specs.Prelude.{◌≡◌};
ghost use Rattle.lethe_base.specs.Keys.{Bytes};
ghost use Rattle.lethe_cert.specs.declared.certificate.Certificate.{Certificate};
ghost use Rattle.lethe_cert.specs.Json.{HasJson, IsDigest, IsJsonOf, certificate_json};
ghost use Rattle.lethe_cert.specs.Text.{certificate_text, HasText};

/// The text tells the number, `before` and the digest: two certificates with the same text have the same three. The clock isn't
/// in it.
pub fn what_a_text_tells()
    ensures { (a b : Certificate) → HasText a → HasText b → certificate_text a ≡ certificate_text b
        → (a.number ≡ b.number) × (a.before ≡ b.before) × (a.digest ≡ b.digest) }
{}

/// What is written as JSON is read as the certificate that it was, and no bytes are read as two: all four fields come back.
pub fn what_json_tells()
    ensures reads { (certificate : Certificate) → HasJson certificate → IsJsonOf (certificate_json certificate) certificate }
    ensures one { (bytes : Bytes) (a b : Certificate) → IsDigest a.digest → IsDigest b.digest → IsJsonOf bytes a → IsJsonOf bytes b → a ≡ b }
{}
