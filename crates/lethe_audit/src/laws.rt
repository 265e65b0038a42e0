//! What an audit's answer means. The functions do nothing: their contracts are the laws.
ghost use Rattle.std.specs.Prelude.{◌≡◌, ◌↔◌, List, Contains};
ghost use Rattle.lethe_base.specs.History.{History};
ghost use Rattle.lethe_base.specs.declared.config.Fields.{Fields};
ghost use Rattle.lethe_base.specs.declared.entry.Entry.{Entry};
ghost use Rattle.lethe_cert.specs.declared.certificate.Certificate.{Certificate};
ghost use Rattle.lethe_disk.specs.Directory.{Directory};
ghost use Rattle.lethe_stored.specs.Clean.{IsHeldIn};
ghost use Rattle.lethe_stored.specs.Kept.{IsKept};
ghost use Rattle.lethe_audit.specs.Audited.{IsAudited, IsAnswer, IsNo};
ghost use Rattle.lethe_audit.specs.Carried.{IsCarried, IsTrueOf};
ghost use Rattle.lethe_audit.specs.Held.{AreHeld};
ghost use Rattle.lethe_audit.specs.declared.answer.Audit.{Audit};
ghost use Rattle.lethe_audit.specs.declared.answer.NoWhy.{NoWhy};

/// Of every history that a directory carries, a certificate is true that an audit of it says yes to.
pub fn audited_is_true()
    ensures { (config : Fields) (h : History) (d : Directory) (c : Certificate) → IsAudited d c → IsCarried config d h → IsTrueOf config.threshold c d h }
{}

/// A directory carries what it is kept for.
pub fn kept_is_carried()
    ensures { (config : Fields) (h : History) (d : Directory) → IsKept config d h → IsCarried config d h }
{}

/// Of a directory and a certificate there is one answer.
pub fn one_answer()
    ensures { (d : Directory) (c : Certificate) (a b : Audit) → IsAnswer d c a → IsAnswer d c b → a ≡ b }
{}

/// The one list of held entries has those that an object spells.
pub fn held_are_all()
    ensures same { (d : Directory) (a b : List Entry) → AreHeld d a → AreHeld d b → a ≡ b }
    ensures entries { (d : Directory) (held : List Entry) → AreHeld d held → (entry : Entry) → Contains held entry ↔ IsHeldIn d entry }
{}
