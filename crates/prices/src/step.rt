// The grid. With the definitions of specs/Step, this is all that knows how long a step is.
ghost use Rattle.std.specs.Prelude.{◌≡◌, true, cond};
ghost use Rattle.prices.specs.Step.{steps_of, mpv, on_grid, legal, none_or_legal, back, last_price, rung, apart};

// The top of the legal prices.
pub const TOP_PRICE: u32 = 100000;

// Where the step changes: small ones below, large ones from here up.
const CHANGE: u32 = 300;

// Whether M names a pair of steps: 1 and 5 cents, or 5 and 10.
#[tactic(auto, unfolding(crate::specs::Step::mpv))]
pub fn is_mpv(m: u32) -> bool
    ensures { result ≡ mpv m }
{
    (m == 1) | (m == 5)
}

// The small step of the pair, which is M, or the large one.
fn step_of(m: u32, fine: bool) -> u32
    ensures { result ≡ cond fine (steps_of m).small (steps_of m).large }
{
    if fine {
        return m;
    }
    if m == 1 { 5 } else { 10 }
}

// Whether p lies on the grid of a pair of steps, which are constants: a division by a step itself is slow. On a step of 1 lies every price.
#[tactic(auto, unfolding(crate::specs::Step::on_grid))]
fn is_on<const SMALL: u32, const LARGE: u32>(p: u32) -> bool
    ensures { result ≡ on_grid (record { small = SMALL; large = LARGE }) p }
{
    if p < CHANGE {
        return p.is_multiple_of(SMALL);
    }
    p.is_multiple_of(LARGE)
}

#[tactic(auto, unfolding(crate::specs::Step::mpv))]
fn is_on_grid(m: u32, p: u32) -> bool
    requires { mpv m ≡ true }
    ensures { result ≡ on_grid (steps_of m) p }
{
    if m == 1 {
        return is_on::<1, 5>(p);
    }
    is_on::<5, 10>(p)
}

#[tactic(auto, unfolding(crate::specs::Step::legal))]
pub fn is_legal(m: u32, p: u32) -> bool
    requires { mpv m ≡ true }
    ensures { result ≡ legal m p }
{
    (m <= p) & ((p <= TOP_PRICE) & is_on_grid(m, p))
}

#[tactic(auto, unfolding(crate::specs::Step::none_or_legal))]
pub fn is_none_or_legal(m: u32, p: u32) -> bool
    requires { mpv m ≡ true }
    ensures { result ≡ none_or_legal m p }
{
    (p == 0) | is_legal(m, p)
}

// One step less aggressive.
#[tactic(auto, unfolding(crate::specs::Step::mpv, crate::specs::Step::legal, crate::specs::Step::back, crate::specs::Step::up, crate::specs::Step::down))]
pub fn one_back(m: u32, sell: bool, p: u32) -> u32
    requires { (mpv m ≡ true) × (legal m p ≡ true) }
    ensures { result ≡ back m sell p }
{
    if sell {
        return p + step_of(m, p < CHANGE);
    }
    p - step_of(m, p <= CHANGE)
}

#[tactic(auto, unfolding(crate::specs::Step::last_price))]
pub fn last_price(m: u32, sell: bool) -> u32
    ensures { result ≡ last_price m sell }
{
    if sell { TOP_PRICE } else { m }
}

// How many steps lead from 0 up to p, by constants again.
#[tactic(auto, unfolding(crate::specs::Step::mpv, crate::specs::Step::rung))]
fn rung_of(m: u32, p: u32) -> u32
    requires { mpv m ≡ true }
    ensures { result ≡ rung (steps_of m) p }
{
    let coarse = p.saturating_sub(CHANGE);
    let fine = p - coarse;
    if m == 1 {
        return fine + coarse / 5;
    }
    fine / 5 + coarse / 10
}

// How many steps a display d stands back from the limit.
#[tactic(auto, unfolding(crate::specs::Step::apart))]
pub fn distance(m: u32, sell: bool, limit: u32, d: u32) -> u32
    requires { mpv m ≡ true }
    ensures { result ≡ apart m sell limit d }
{
    let from = rung_of(m, limit);
    let to = rung_of(m, d);
    if sell {
        to.saturating_sub(from)
    } else {
        from.saturating_sub(to)
    }
}
