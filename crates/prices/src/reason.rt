// Why a quote is rejected at once, or what is left of an entry may not rest.
ghost use Rattle.std.specs.Prelude.{◌≡◌};
ghost use Rattle.prices.specs.Reasons.{number_of};

#[derive(Clone, Copy, Debug, PartialEq, Eq)]
pub enum Reason {
    // with the away price: it would lock or cross it
    Locking,
    // by undisplayed interest, which it has passed over
    Obstructed,
    // shown too many steps from its limit
    TooDistant,
    // no legal price to show it at
    Unshowable,
    // through the best price of the other side
    TooFar,
    AboveUnderlying,
    AboveStrike,
}

impl From<Reason> for u32 {
    ghost from_gives = { λ why n. n ≡ number_of why };

    fn from(why: Reason) -> u32 {
        match why {
            Reason::Locking => 20,
            Reason::Obstructed => 21,
            Reason::TooDistant => 22,
            Reason::Unshowable => 23,
            Reason::TooFar => 24,
            Reason::AboveUnderlying => 25,
            Reason::AboveStrike => 26,
        }
    }
}
