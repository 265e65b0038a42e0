//! What the user of a shared store has entered in each turn.
ghost use Rattle.std.specs.Prelude.{ℕ, List, [], ◌++◌};
ghost use Rattle.lethe_core.specs.Running.{IsSound};
ghost use Rattle.lethe_store.specs.StoreViews.{StoreView, IsSameStore};

/// The log of a shared store: what its history and its diary list, and what they say of the store. No value of it is made.
pub trait Log {
    /// What the history lists. No value of it is made.
    type Entry;

    /// What the diary lists. No value of it is made.
    type Mark;

    // How many entries lie before the first one, by how many changes the opened store counts.
    ghost start: { ℕ → ℕ };

    // Of a kind of disk that tells what it holds or doesn't, and whose ports can fail or can't: of the opened store, the entries and the marks since then, and the store now.
    ghost since: { Type 0 → Type 0 → StoreView → List Self.Entry → List Self.Mark → StoreView → Type 0 };

    // What one session's own marks are like, as that it ends only what it began.
    ghost fits: { List Self.Mark → Type 0 };

    ghost fits_none: { fits [] };

    ghost fits_both: { (a b : List Self.Mark) → fits a → fits b → fits (a ++ b) };

    // A sound store is one behind no entry and no mark.
    ghost opens: { (Tells PortsFail : Type 0) (shown : StoreView) → IsSound Tells shown.view → since Tells PortsFail shown [] [] shown };

    // Each one is sound.
    ghost sound: { (Tells PortsFail : Type 0) (opened : StoreView) (entries : List Self.Entry) (marks : List Self.Mark) (shown : StoreView)
        → since Tells PortsFail opened entries marks shown → IsSound Tells shown.view };

    // It stays one where nothing of it is changed.
    ghost stays: { (Tells PortsFail : Type 0) (opened : StoreView) (entries : List Self.Entry) (marks : List Self.Mark) (old new : StoreView)
        → since Tells PortsFail opened entries marks old → IsSameStore Tells old new → since Tells PortsFail opened entries marks new };
}
