//! What the commands of a script take.

/// What a field is read as.
#[derive(Clone, Copy, Debug, PartialEq, Eq)]
pub(crate) enum Taken {
    Key,
    Number,
    Value,
    Time,
    Slot,
}

/// What a command takes: its fields, and how ./lethe --help writes them.
#[derive(Clone, Copy)]
pub(crate) struct Command {
    pub fields: &'static [Taken],
    pub form: &'static str,
}

/// The command of this name.
pub(crate) fn command_of(name: &[u8]) -> Option<Command> {
    let (fields, form): (&'static [Taken], &'static str) = match name {
        b"put" => (
            &[Taken::Key, Taken::Number, Taken::Value],
            "KEY NUMBER VALUE",
        ),
        b"get" | b"del" => (&[Taken::Key], "KEY"),
        b"scan" => (&[Taken::Key, Taken::Key], "KEY KEY"),
        b"erase" => (&[Taken::Number, Taken::Number], "NUMBER NUMBER"),
        b"tick" => (&[Taken::Time], "T"),
        b"pin" | b"unpin" => (&[Taken::Slot], "SLOT"),
        b"pget" => (&[Taken::Slot, Taken::Key], "SLOT KEY"),
        b"pscan" => (&[Taken::Slot, Taken::Key, Taken::Key], "SLOT KEY KEY"),
        b"stat" => (&[], "nothing"),
        _ => return None,
    };
    Some(Command { fields, form })
}
