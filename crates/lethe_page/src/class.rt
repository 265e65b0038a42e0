//! The two classes of pages.
ghost use Rattle.std.specs.Prelude.{◌≡◌};
ghost use Rattle.lethe_page.specs.Pages.{class_byte};

/// What the entries of a page are. No page has both.
#[derive(Clone, Copy, Debug, PartialEq, Eq)]
pub enum Class {
    Puts,
    Tombs,
}

impl Class {
    /// The byte that spells the class.
    pub(crate) fn byte(self) -> u8
        ensures { result ≡ class_byte self }
    {
        match self {
            Class::Puts => 1,
            Class::Tombs => 2,
        }
    }
}
