// Arrival of a quote or an order.
ghost use Rattle.std.specs.Prelude.{◌≡◌, not};
ghost use Rattle.prices.specs.Test.{reason_of};
ghost use Rattle.prices.specs.Reasons.{number_of, reason_number};
ghost use Rattle.prices.specs.Protect.{Cents};
ghost use Rattle.book.specs.Shape.{entries_of, WellFormed};
ghost use Rattle.book.specs.Look.{rank_of, quote_in};
ghost use Rattle.telling.specs.Lent.{Told, SameRoom};
ghost use Rattle.terms.specs.Terms.{market_of};
ghost use Rattle.arrival.specs.Take.{took};
ghost use Rattle.arrival.specs.Post.{stop_for};
ghost use Rattle.arrival.specs.Arrive.{bars_against, stops_at_once, rejection, both_quotes, rejected_by, replaced};
ghost use Rattle.arrival.specs.Arrive.{posted, cancelled_rest, finished, entered, arrived};
ghost use Rattle.book.specs.Entries.{with_quantity};
ghost use Rattle.arrival.specs.Cancel.{Asks};
ghost use Rattle.arrival.specs.Asks.{trades, Enters, EntersTrading, Arrives, Goes, Finishes, Rests, TakesOn, TookAs, LeftIn};

use crate::Facing;
use crate::cancel::{cut_quote, cut_rank};
use crate::post::{prices_of, rest_of, stop_for};
use crate::take::{bound_of, is_offered, next_trade, take_all};
use book::change::posted as post_entry;
use book::entries::{is_quote, kind_of};
use book::find::find_quote;
use book::{Book, Entry};
use kinds::is_minding;
use prices::protect::protection_of;
use prices::reason::Reason;
use telling::room::Reports;
use telling::tell::{tell_cancelled, tell_rejected, tell_rested};
use terms::{Terms, guard_of, market_of};

// Bytes for the reports of an arrival that is not rejected: they are at most 67.
const ARRIVAL: usize = 67 * 14;

// Price protection before this NBO or NBB, for quotes only: the reason to reject, if there is one.
fn protection_for(t: Terms, e: Entry, national: u32) -> Option<Reason>
    requires { Cents national e.limit }
    ensures { reason_number result ≡ reason_of e.sell (bars_against t e national) }
{
    if !is_quote(e) {
        return None;
    }
    protection_of(guard_of(t), e.sell, national, e.limit)
}

// Whether it would trade at all: mostly the contra price is out of its reach, and nobody has to be looked for.
fn is_trading(b: Book, t: Terms, e: Entry, f: Facing) -> bool
    requires { Enters t e f b }
    ensures { result ≡ trades t e (entries_of b) }
{
    if is_minding(kind_of(e)) {
        return false;
    }
    let cap = bound_of(market_of(t), e);
    if !is_offered(e.sell, cap, f.contra) {
        return false;
    }
    next_trade(b, e, cap, e.quantity).is_some()
}

// A quote that is stopped before it trades: the reason to reject, if there is one.
#[tactic(auto, unfolding(crate::specs::Arrive::stops_at_once))]
fn stops_at_once(b: Book, t: Terms, e: Entry, f: Facing, trading: bool) -> Option<Reason>
    requires { EntersTrading t e f trading b }
    ensures { reason_number result ≡ stops_at_once t e (entries_of b) }
{
    if !is_quote(e) {
        return None;
    }
    if trading {
        return None;
    }
    stop_for(b, t, e, f.contra)
}

// Why it is rejected, if it is.
fn rejection_of(b: Book, t: Terms, e: Entry, f: Facing, trading: bool) -> Option<Reason>
    requires { EntersTrading t e f trading b }
    ensures { reason_number result ≡ rejection t e (entries_of b) }
{
    if let Some(why) = protection_for(t, e, f.national) {
        return Some(why);
    }
    stops_at_once(b, t, e, f, trading)
}

// Whether both of the maker's quotes go with the one that is rejected, or the one on its side.
fn is_of_both(why: Reason) -> bool
    ensures { result ≡ both_quotes (number_of why) }
{
    matches!(why, Reason::AboveUnderlying | Reason::AboveStrike)
}

// It is rejected, and the maker's quotes that go with it are cancelled.
fn reject(b: Book, e: Entry, why: Reason, reports: &mut Reports) -> Book
    requires { Asks (rejected_by (number_of why) e (entries_of b)) b reports.old.room.now reports.old.count }
    ensures told { Told (rejected_by (number_of why) e (entries_of b)) reports.old result reports.new }
    ensures same_room { SameRoom reports.old reports.new }
{
    reports.tell(tell_rejected(u32::from(why), e));
    if is_of_both(why) {
        let c = cut_quote(b, e.party, false, 30, reports);
        return cut_quote(c, e.party, true, 30, reports);
    }
    cut_quote(b, e.party, e.sell, 30, reports)
}

// The quote that it replaces goes.
fn replace(b: Book, e: Entry, reports: &mut Reports) -> Book
    requires { Asks (replaced e (entries_of b)) b reports.old.room.now reports.old.count }
    ensures told { Told (replaced e (entries_of b)) reports.old result reports.new }
    ensures same_room { SameRoom reports.old reports.new }
{
    if is_quote(e) {
        return cut_quote(b, e.party, e.sell, 27, reports);
    }
    b
}

// What is left rests, last in rank.
fn post_rest(b: Book, t: Terms, e: Entry, contra: u32, left: u32, reports: &mut Reports) -> Book
    requires { Rests t e contra b left reports.old.room.now reports.old.count }
    ensures told { Told (posted t e left (entries_of b)) reports.old result reports.new }
    ensures same_room { SameRoom reports.old reports.new }
{
    let rests = rest_of(e, left, prices_of(t, e, contra));
    reports.tell(tell_rested(rests));
    post_entry(b, rests)
}

fn remainder_of(e: Entry, left: u32) -> Entry
    ensures { result ≡ with_quantity left e }
{
    let mut rest = e;
    rest.quantity = left;
    rest
}

// The maker's quote on the opposite side.
fn opposite_quote(b: Book, e: Entry) -> Option<usize>
    requires { WellFormed b }
    ensures { result ≡ rank_of (quote_in e.party (not e.sell) (entries_of b)) }
{
    find_quote(b, e.party, !e.sell)
}

// What is left is cancelled, and with it the maker's opposite quote.
fn cancel_rest(b: Book, e: Entry, left: u32, why: Reason, reports: &mut Reports) -> Book
    requires { Asks (cancelled_rest (number_of why) e left (entries_of b)) b reports.old.room.now reports.old.count }
    ensures told { Told (cancelled_rest (number_of why) e left (entries_of b)) reports.old result reports.new }
    ensures same_room { SameRoom reports.old reports.new }
{
    reports.tell(tell_cancelled(u32::from(why), remainder_of(e, left)));
    if is_quote(e) {
        let rank = opposite_quote(b, e);
        return cut_rank(b, rank, 29, reports);
    }
    b
}

// The end of an arrival that was not rejected.
fn finish(b: Book, t: Terms, e: Entry, contra: u32, left: u32, reports: &mut Reports) -> Book
    requires { Finishes t e contra b left reports.old.room.now reports.old.count }
    ensures told { Told (finished t e left (stop_for t e (entries_of b)) (entries_of b)) reports.old result reports.new }
    ensures same_room { SameRoom reports.old reports.new }
{
    if left == 0 {
        return b;
    }
    match stop_for(b, t, e, contra) {
        None => post_rest(b, t, e, contra, left, reports),
        Some(why) => cancel_rest(b, e, left, why, reports),
    }
}

// Trades, if it does.
fn take(b: Book, t: Terms, e: Entry, trading: bool, left: &mut u32, reports: &mut Reports) -> Book
    requires { TakesOn t e trading b left.old reports.old.room.now reports.old.count }
    ensures told { TookAs (took (market_of t) e (entries_of b)) reports.old.room.now reports.old.count result left.new reports.new.room.now reports.new.count }
    ensures same_room { SameRoom reports.old reports.new }
{
    if !trading {
        return b;
    }
    take_all(b, e, bound_of(market_of(t), e), left, reports)
}

// The book in which what is left of it would post: the quote that it replaces gone, and its trades made.
fn trade_all(b: Book, t: Terms, e: Entry, f: Facing, trading: bool, reports: &mut Reports) -> Book
    requires { Goes t e f trading b reports.old.room.now reports.old.count }
    ensures { LeftIn t e f b result }
{
    let c = replace(b, e, reports);
    let mut left = e.quantity;
    take(c, t, e, trading, &mut left, reports)
}

// The same, with a room of its own for reports that nobody reads.
pub fn book_left(b: Book, t: Terms, e: Entry, f: Facing) -> Book
    requires { Enters t e f b }
    ensures { LeftIn t e f b result }
{
    let trading = is_trading(b, t, e, f);
    let mut room = [0u8; ARRIVAL];
    let mut reports = Reports::new(&mut room);
    trade_all(b, t, e, f, trading, &mut reports)
}

// The quote it replaces goes; trades; what is left rests or is cancelled.
fn enter(b: Book, t: Terms, e: Entry, f: Facing, trading: bool, reports: &mut Reports) -> Book
    requires { Goes t e f trading b reports.old.room.now reports.old.count }
    ensures told { Told (entered t e (entries_of b)) reports.old result reports.new }
    ensures same_room { SameRoom reports.old reports.new }
{
    let c = replace(b, e, reports);
    let mut left = e.quantity;
    let d = take(c, t, e, trading, &mut left, reports);
    finish(d, t, e, f.contra, left, reports)
}

// The arrival of a quote or an order, before settling.
pub fn arrive(b: Book, t: Terms, e: Entry, f: Facing, reports: &mut Reports) -> Book
    requires { Arrives t e f b reports.old.room.now reports.old.count }
    ensures told { Told (arrived t e (entries_of b)) reports.old result reports.new }
    ensures same_room { SameRoom reports.old reports.new }
{
    let trading = is_trading(b, t, e, f);
    if let Some(why) = rejection_of(b, t, e, f, trading) {
        return reject(b, e, why, reports);
    }
    enter(b, t, e, f, trading, reports)
}
