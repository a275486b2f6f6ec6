// The answer to each kind of question. A rule that asks something of its caller is asked only where that holds.
use prices::ease::eased_to;
use prices::post::{stop_figures, stop_of};
use prices::protect::{bar_figures, protection_of};
use prices::reason::Reason;
use prices::request::request_aims;
use prices::rest::{is_slide, is_stirring_at, resting_of};
use prices::side::{away_of, nearer_of};
use prices::step::{is_legal, is_mpv, is_none_or_legal};
use prices::{Against, Figures, Guard, Interest, Market, Posting, Prices};
use std::io;

pub(crate) fn end(rt: &impl Print) -> io::Result<()> {
    rt.print("\n")
}

pub(crate) fn nothing(rt: &impl Print) -> io::Result<()> {
    rt.print("-")
}

fn number(rt: &impl Print, n: u32) -> io::Result<()> {
    rt.print(n)
}

// A further number on the line.
fn then(rt: &impl Print, n: u32) -> io::Result<()> {
    rt.print(" ")?;
    number(rt, n)
}

fn truth(rt: &impl Print, b: bool) -> io::Result<()> {
    rt.print(u32::from(b))
}

// The number of a reason, 0 for none.
fn reason(rt: &impl Print, why: Option<Reason>) -> io::Result<()> {
    number(rt, why.map_or(0, u32::from))
}

pub(crate) fn aims(
    rt: &impl Print,
    kind: u32,
    side: u32,
    limit: u32,
    away: u32,
    contra: u32,
    m: u32,
) -> io::Result<()> {
    match request_aims(kind, side, limit, away, contra, m) {
        Ok(aim) => {
            number(rt, 0)?;
            then(rt, aim.display)?;
            then(rt, aim.working)
        }
        Err(why) => {
            number(rt, why.into())?;
            then(rt, 0)?;
            then(rt, 0)
        }
    }
}

pub(crate) fn protection(
    rt: &impl Print,
    put: bool,
    exempt: bool,
    strike: u32,
    underlying: u32,
    sell: bool,
    best: u32,
    limit: u32,
) -> io::Result<()> {
    if best > 100000 {
        return nothing(rt);
    }
    if limit > 100000 {
        return nothing(rt);
    }
    let guard = Guard {
        put,
        exempt,
        strike,
        underlying,
    };
    reason(rt, protection_of(guard, sell, best, limit))
}

pub(crate) fn stop(
    rt: &impl Print,
    m: u32,
    k: u32,
    kind: u32,
    sell: bool,
    limit: u32,
    away: u32,
    hidden: u32,
    display: u32,
) -> io::Result<()> {
    if k > 100 {
        return nothing(rt);
    }
    if is_mpv(m) {
        let entry = Interest { kind, sell, limit };
        let posting = Posting {
            m,
            k,
            away,
            hidden,
            display,
        };
        return reason(rt, stop_of(entry, posting));
    }
    nothing(rt)
}

fn both(rt: &impl Print, figures: Figures) -> io::Result<()> {
    let Figures { first, second } = figures;
    print!(rt; "{first} {second}")
}

pub(crate) fn figures_of_stop(
    rt: &impl Print,
    rule: u32,
    m: u32,
    k: u32,
    sell: bool,
    limit: u32,
    away: u32,
    hidden: u32,
    display: u32,
) -> io::Result<()> {
    if k > 100 {
        return nothing(rt);
    }
    if !is_mpv(m) {
        return nothing(rt);
    }
    // of whatever kind
    let entry = Interest {
        kind: 0,
        sell,
        limit,
    };
    let posting = Posting {
        m,
        k,
        away,
        hidden,
        display,
    };
    both(rt, stop_figures(rule, entry, posting))
}

pub(crate) fn figures_of_bar(
    rt: &impl Print,
    rule: u32,
    put: bool,
    exempt: bool,
    strike: u32,
    underlying: u32,
    sell: bool,
    best: u32,
    limit: u32,
) -> io::Result<()> {
    if best > 100000 || limit > 100000 {
        return nothing(rt);
    }
    let guard = Guard {
        put,
        exempt,
        strike,
        underlying,
    };
    both(rt, bar_figures(rule, guard, sell, best, limit))
}

pub(crate) fn resting(
    rt: &impl Print,
    sell: bool,
    shown: u32,
    display: u32,
    working: u32,
) -> io::Result<()> {
    let aim = Prices { display, working };
    let Prices { display, working } = resting_of(sell, shown, aim);
    print!(rt; "{display} {working}")
}

pub(crate) fn eased(
    rt: &impl Print,
    sell: bool,
    away: u32,
    display: u32,
    working: u32,
) -> io::Result<()> {
    rt.print(eased_to(sell, away, display, working))
}

pub(crate) fn best(rt: &impl Print, sell: bool, away: u32, shown: u32) -> io::Result<()> {
    rt.print(nearer_of(sell, away, shown))
}

pub(crate) fn away(rt: &impl Print, sell: bool, bid: u32, offer: u32) -> io::Result<()> {
    let market = Market { m: 1, bid, offer };
    rt.print(away_of(market, sell))
}

pub(crate) fn legal(rt: &impl Print, m: u32, p: u32) -> io::Result<()> {
    if !is_mpv(m) {
        return nothing(rt);
    }
    truth(rt, is_legal(m, p))
}

pub(crate) fn stirring(
    rt: &impl Print,
    m: u32,
    kind: u32,
    sell: bool,
    limit: u32,
    away: u32,
    contra: u32,
    display: u32,
    working: u32,
) -> io::Result<()> {
    if is_mpv(m) && is_none_or_legal(m, away) && is_none_or_legal(m, contra) {
        let quote = Interest { kind, sell, limit };
        let against = Against { m, away, contra };
        return truth(
            rt,
            is_stirring_at(quote, against, Prices { display, working }),
        );
    }
    nothing(rt)
}

pub(crate) fn slide(
    rt: &impl Print,
    m: u32,
    sell: bool,
    limit: u32,
    display: u32,
    working: u32,
) -> io::Result<()> {
    if !is_mpv(m) {
        return nothing(rt);
    }
    truth(rt, is_slide(m, sell, limit, display, working))
}
