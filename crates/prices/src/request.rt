// The aims of one quote, asked for by number.
ghost use Rattle.std.specs.Prelude.{◌≡◌, true};
ghost use Rattle.prices.specs.Step.{mpv};
ghost use Rattle.prices.specs.Request.{askable, prices_legal, told, aims_answered};

use crate::aims::aims_of;
use crate::step::{is_legal, is_mpv, is_none_or_legal};
use crate::{Against, Interest, Prices};
use kinds::is_asked;
use kinds::refusal::{Refusal, refuse_if};

fn is_askable(kind: u32, side: u32, m: u32) -> bool
    ensures { result ≡ askable kind side m }
{
    is_asked(kind) & ((side <= 1) & is_mpv(m))
}

fn are_prices_legal(m: u32, limit: u32, away: u32, contra: u32) -> bool
    requires { mpv m ≡ true }
    ensures { result ≡ prices_legal m limit away contra }
{
    is_legal(m, limit) & (is_none_or_legal(m, away) & is_none_or_legal(m, contra))
}

// The aims of a quote of this kind and side with this limit, before an away price and a contra price (0: none).
#[tactic(auto, unfolding(crate::specs::Request::aims_answered))]
pub fn request_aims(
    kind: u32,
    side: u32,
    limit: u32,
    away: u32,
    contra: u32,
    m: u32,
) -> Result<Prices, Refusal>
    ensures { told result ≡ aims_answered kind side limit away contra m }
{
    refuse_if(!is_askable(kind, side, m), Refusal::Nothing)?;
    refuse_if(!are_prices_legal(m, limit, away, contra), Refusal::Price)?;
    let quote = Interest {
        kind,
        sell: side == 1,
        limit,
    };
    Ok(aims_of(quote, Against { m, away, contra }))
}
