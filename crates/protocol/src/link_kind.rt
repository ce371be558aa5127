ghost use Rattle.std.specs.Prelude.{◌≡◌};
ghost use Rattle.protocol.specs.World.{is_strict};

/// Which of a world's two books serves a link.
#[derive(Clone, Copy, PartialEq, Eq)]
pub enum LinkKind {
    Free,
    Strict,
}

impl LinkKind {
    /// Whether the link is served by the book for strict links.
    pub fn is_strict(self) -> bool
        ensures { result ≡ is_strict self }
    {
        self == LinkKind::Strict
    }
}
