use denom::TokenId;

/// What an accepted command answers.
#[derive(Clone, Copy)]
pub enum Reply {
    /// Nothing but that it was accepted.
    Done,
    /// A link's number, a packet's sequence or a mark.
    Number(u64),
    /// The token that a denomination stands for.
    Home(TokenId),
}
