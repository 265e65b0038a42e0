//! A law of the names of files. The function does nothing: its contract is the law.
ghost use Rattle.std.specs.Prelude.{◌≡◌, ◌<◌, ◌^◌};
ghost use Rattle.lethe_base.specs.declared.name.Name.{Name};
ghost use Rattle.lethe_dirdisk.specs.FileNames.{file_name};

/// Two objects are never held by files of one name.
pub fn one_file_name()
    ensures { (a b : Name) → a.no < 2 ^ 64 → b.no < 2 ^ 64 → file_name a ≡ file_name b → a ≡ b }
{}
