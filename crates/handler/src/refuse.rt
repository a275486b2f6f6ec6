// The refusals that an event can meet: a function for each test, and their order.
ghost use Rattle.std.specs.Prelude.{◌≡◌, true, false, length};
ghost use Rattle.prices.specs.Step.{mpv};
ghost use Rattle.book.specs.Shape.{entries_of, WellFormed};
ghost use Rattle.soundness.specs.Summary.{Summary};
ghost use Rattle.handler.specs.Refuse.{bad_party, bad_price, bad_quantity, not_open, is_blocked, is_full, is_spent, is_missing, gone_at};
ghost use Rattle.handler.specs.Refuse.{refusal_in, refusal_of};

use crate::Ask;
use book::Book;
use book::entries::LAST_NUMBER;
use book::find::find_entry;
use kinds::refusal::{Refusal, refuse_if};
use kinds::{
    AWAY, CANCEL_ENTRY, CANCEL_QUOTE, PHASE, UNDERLYING, is_carrying, is_entering, is_makers,
    is_quoting,
};
use prices::step::{is_legal, is_none_or_legal};
use series::Series;
use series::sound::is_between;
use soundness::Check;
use soundness::figures::has_quote;
use terms::TOP_UNDERLYING;

// 2: a party out of range.
pub fn is_bad_party(a: Ask) -> bool
    ensures { result ≡ bad_party a }
{
    if is_makers(a.kind) {
        return !is_between(1, 16, a.party);
    }
    if is_carrying(a.kind) {
        return !is_between(1, 99, a.party);
    }
    false
}

// 3: a price out of range or off the grid.
pub fn is_bad_price(m: u32, a: Ask) -> bool
    requires { mpv m ≡ true }
    ensures { result ≡ bad_price m a }
{
    if is_entering(a.kind) {
        return !is_legal(m, a.price);
    }
    if a.kind == AWAY {
        return !(is_none_or_legal(m, a.price) & is_none_or_legal(m, a.second));
    }
    if a.kind == UNDERLYING {
        return !(a.price <= TOP_UNDERLYING);
    }
    false
}

// 4: a quantity out of range, or a phase above 2.
pub fn is_bad_quantity(a: Ask) -> bool
    ensures { result ≡ bad_quantity a }
{
    if is_entering(a.kind) {
        return !is_between(1, 99999, a.quantity);
    }
    if a.kind == PHASE {
        return !(a.quantity <= 2);
    }
    false
}

// 5: the series is not open.
fn is_not_open(phase: u32, a: Ask) -> bool
    ensures { result ≡ not_open phase a }
{
    is_entering(a.kind) & !(phase == 1)
}

// 6: the maker is blocked.
fn is_blocked(s: Series, a: Ask) -> bool
    requires a_value { bad_party a ≡ false }
    requires blocked_len { length s.blocked ≡ 16 }
    ensures { result ≡ is_blocked s.blocked a }
{
    if is_quoting(a.kind) {
        let i = (a.party - 1) as usize;
        return s.blocked[i];
    }
    false
}

fn is_gone(rank: Option<usize>) -> bool
    ensures { result ≡ gone_at rank }
{
    rank.is_none()
}

// 7: 64 entries rest, not counting the quote that this one replaces.
fn is_full(b: Book, check: Check, a: Ask) -> bool
    requires a_value { bad_party a ≡ false }
    requires well_formed { WellFormed b }
    requires summary { Summary (entries_of b) check }
    ensures { result ≡ is_full (entries_of b) a }
{
    if !is_entering(a.kind) {
        return false;
    }
    if b.count < 64 {
        return false;
    }
    if !is_quoting(a.kind) {
        return true;
    }
    let party = a.party as u8;
    !has_quote(check, party, a.sell)
}

// 9: the last entry number has been given.
fn is_spent(given: u32, a: Ask) -> bool
    ensures { result ≡ is_spent given a }
{
    is_entering(a.kind) & (LAST_NUMBER <= given)
}

// 8: no such entry of that party, or no such quote.
fn is_missing(b: Book, check: Check, a: Ask) -> bool
    requires a_value { bad_party a ≡ false }
    requires well_formed { WellFormed b }
    requires summary { Summary (entries_of b) check }
    ensures { result ≡ is_missing (entries_of b) a }
{
    if a.kind == CANCEL_ENTRY {
        let party = a.party as u8;
        return is_gone(find_entry(b, party, a.entry));
    }
    if a.kind == CANCEL_QUOTE {
        let party = a.party as u8;
        return !has_quote(check, party, a.sell);
    }
    false
}

// The first test that holds refuses.
pub fn refusal_of(s: Series, check: Check, a: Ask) -> Result<(), Refusal>
    requires m_value { mpv s.terms.m ≡ true }
    requires well_formed { WellFormed s.book }
    requires blocked_len { length s.blocked ≡ 16 }
    requires summary { Summary (entries_of s.book) check }
    ensures { refusal_in result ≡ refusal_of s a }
{
    let t = s.terms;
    let b = s.book;
    refuse_if(is_bad_party(a), Refusal::Party)?;
    refuse_if(is_bad_price(t.m, a), Refusal::Price)?;
    refuse_if(is_bad_quantity(a), Refusal::Quantity)?;
    refuse_if(is_not_open(t.phase, a), Refusal::NotOpen)?;
    refuse_if(is_blocked(s, a), Refusal::Blocked)?;
    refuse_if(is_full(b, check, a), Refusal::Full)?;
    refuse_if(is_spent(t.given, a), Refusal::Spent)?;
    refuse_if(is_missing(b, check, a), Refusal::Missing)
}
