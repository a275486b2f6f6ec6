// The aims of one quote, asked for by number.
ghost use Rattle.std.specs.Prelude.{◌≡◌};
ghost use Rattle.prices.specs.Request.{Answered, aims_answered};

use prices::request::request_aims;

// Refusal 0, 1 or 3, and both aims written, which are 0 on a refusal. An away or contra price of 0 means none.
#[unsafe(no_mangle)]
pub extern "C" fn waxglimmer_aims(
    kind: u32,
    side: u32,
    limit: u32,
    away: u32,
    contra: u32,
    m: u32,
    display: &mut u32,
    working: &mut u32,
) -> u32
    ensures { ◌≡◌ {A = Answered} (record { refusal = result; display = display.new; working = working.new })
        (aims_answered kind side limit away contra m) }
{
    match request_aims(kind, side, limit, away, contra, m) {
        Ok(aim) => {
            *display = aim.display;
            *working = aim.working;
            0
        }
        Err(why) => {
            *display = 0;
            *working = 0;
            u32::from(why)
        }
    }
}
