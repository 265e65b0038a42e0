//! What a list of changes leaves. The functions do nothing: their contracts are the laws.
ghost use Rattle.std.specs.Prelude.{ℕ, List, Option};
ghost use Rattle.lethe_base.specs.History.{History};
ghost use Rattle.lethe_base.specs.declared.config.Fields.{Fields};
ghost use Rattle.lethe_base.specs.declared.refused.Refused.{Refused};
ghost use Rattle.lethe_cert.specs.declared.certificate.Certificate.{Certificate};
ghost use Rattle.lethe_core.specs.View.{view_of};
ghost use Rattle.lethe_engine.specs.Along.{row_behind};
ghost use Rattle.lethe_engine.specs.Asked.{Asked};
ghost use Rattle.lethe_engine.specs.StandsFor.{Opened, StandsFor};
ghost use Rattle.lethe_changes.specs.Changes.{AnswersAll, PortCounts, failed_of};

use lethe_disk::Disk;
use lethe_engine::Engine;

/// Whatever a list of changes answers, the certificates for which the store stood before it stand behind it.
pub fn certificates_stay_in_list<D: Disk>(_before: &Engine<D>, _behind: &Engine<D>)
    ensures { (asked : List Asked) (done : ℕ) (refused : Option Refused) (before now : PortCounts)
        → (answers : AnswersAll D.tells D.ports_fail asked done refused before now (view_of _before.now.core) (view_of _behind.now.core)) → D.tells
        → (config : Fields) (opened : Opened) (h : History) (answered : List Certificate) → StandsFor config opened h (view_of _before.now.core) answered → (caller : ℕ)
        → StandsFor config opened (row_behind h caller answers.made (failed_of refused answers.rest)) (view_of _behind.now.core) answered }
{}
