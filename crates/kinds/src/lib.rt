// The kinds of messages and entries, and what is so of each: the one table that every rule asks (specs/Kinds).
// A kind is a number and no enum: an entry of a state that is handed in has any byte for its kind, and what is promised here is promised of every number.
#![tactic(auto, using(std::proofs::lemmas::Bool::Decides::nat_tests), unfolding(crate::specs::Kinds::row_of))]

pub mod refusal;

ghost use Rattle.std.specs.Prelude.{◌≡◌};
ghost use Rattle.kinds.specs.Kinds.{enters, quotes, sliding, minds, dark, light, carries, makers, asked};

// Kinds that are one of a sort.
pub const CANCEL_ENTRY: u32 = 7;

pub const CANCEL_QUOTE: u32 = 8;

pub const AWAY: u32 = 9;

pub const UNDERLYING: u32 = 10;

pub const PHASE: u32 = 11;

pub const ENABLE: u32 = 12;

// A quote or an order.
pub fn is_entering(kind: u32) -> bool
    ensures { result ≡ enters kind }
{
    matches!(kind, 1..=6)
}

pub fn is_quoting(kind: u32) -> bool
    ensures { result ≡ quotes kind }
{
    matches!(kind, 1..=4)
}

// It has a display price apart from its limit.
pub fn is_sliding(kind: u32) -> bool
    ensures { result ≡ sliding kind }
{
    matches!(kind, 3..=4)
}

// It has the contra price among its bounds, and never takes.
pub fn is_minding(kind: u32) -> bool
    ensures { result ≡ minds kind }
{
    kind == 3
}

// It shows no price.
pub fn is_dark(kind: u32) -> bool
    ensures { result ≡ dark kind }
{
    kind == 6
}

// Arriving, it passes over undisplayed interest.
pub fn is_light(kind: u32) -> bool
    ensures { result ≡ light kind }
{
    kind == 2
}

// It names a party.
pub fn is_carrying(kind: u32) -> bool
    ensures { result ≡ carries kind }
{
    matches!(kind, 1..=6 | CANCEL_ENTRY | CANCEL_QUOTE | ENABLE)
}

// And one of the makers.
pub fn is_makers(kind: u32) -> bool
    ensures { result ≡ makers kind }
{
    matches!(kind, 1..=4 | CANCEL_QUOTE | ENABLE)
}

// Its aims may be asked for by number.
pub fn is_asked(kind: u32) -> bool
    ensures { result ≡ asked kind }
{
    matches!(kind, 3..=4)
}
