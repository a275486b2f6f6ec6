// Why a setup, a message or a question is refused.
ghost use Rattle.std.specs.Prelude.{◌≡◌};
ghost use Rattle.kinds.specs.Refusals.{number_of, refused_if};

#[derive(Clone, Copy, Debug, PartialEq, Eq)]
pub enum Refusal {
    // bytes that are no setup, no message, or a question that is none
    Nothing,
    Party,
    Price,
    // or a phase that there is not
    Quantity,
    NotOpen,
    Blocked,
    Full,
    Missing,
    Spent,
    ShortRoom,
    Unsound,
    // no such report
    NoReport,
}

impl From<Refusal> for u32 {
    ghost from_gives = { λ why n. n ≡ number_of why };

    fn from(why: Refusal) -> u32 {
        match why {
            Refusal::Nothing => 1,
            Refusal::Party => 2,
            Refusal::Price => 3,
            Refusal::Quantity => 4,
            Refusal::NotOpen => 5,
            Refusal::Blocked => 6,
            Refusal::Full => 7,
            Refusal::Missing => 8,
            Refusal::Spent => 9,
            Refusal::ShortRoom => 10,
            Refusal::Unsound => 11,
            Refusal::NoReport => 12,
        }
    }
}

// A test of a refusal: where it holds, the caller's `?` hands the refusal on.
pub fn refuse_if(test: bool, why: Refusal) -> Result<(), Refusal>
    ensures { result ≡ refused_if test why }
{
    if test { Err(why) } else { Ok(()) }
}
