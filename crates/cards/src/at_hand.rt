// The two cards that lie at hand when a call comes.

/// The cards at hand: one for settling, of the statement month, and one for closing, of the running month.
#[derive(Clone, Copy, Drop)]
pub struct AtHand<C, D> {
    pub settling: C,
    pub closing: D,
}
