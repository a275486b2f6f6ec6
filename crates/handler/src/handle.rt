// The handler of one message.
ghost use Rattle.std.specs.Prelude.{◌≤◌, ◌≡◌, length};
ghost use Rattle.lists.specs.Run.{and_then};
ghost use Rattle.packing.specs.Room.{room_size};
ghost use Rattle.packing.specs.declared.report.Report.TheVariants.{Noted};
ghost use Rattle.book.specs.Entries.{last_number};
ghost use Rattle.book.specs.Shape.{entries_of};
ghost use Rattle.settling_theory.specs.Settle.{settled};
ghost use Rattle.settling.specs.Turns.{Settleable};
ghost use Rattle.telling.specs.Stage.{Roomy};
ghost use Rattle.telling.specs.Lent.{Told, SameRoom};
ghost use Rattle.arrival.specs.Cancel.{cancel_entry, sweep, Asks};
ghost use Rattle.arrival.specs.Arrive.{reported};
ghost use Rattle.handler.specs.Asked.{ask_of};
ghost use Rattle.handler.specs.Refuse.{refusal_of};
ghost use Rattle.handler.specs.Accept.{own_part, terms_after, settled_if};
ghost use Rattle.handler.specs.Acts.{Whole, Acts, facing_by, SettlesIf, BlocksFor, blocked_by, Marks};
ghost use Rattle.handler.specs.Handle.{answered, answer_of, in_room, accepted, judged, handled_as, handled, handled_at};

use crate::asking::{ask_of, comer_of};
use crate::refuse::refusal_of;
use crate::{Answer, Ask};
use arrival::Facing;
use arrival::arrive::arrive;
use arrival::cancel::{cut_quote, cut_rank};
use arrival::sweep::sweep_all;
use book::Book;
use book::find::find_entry;
use kinds::refusal::{Refusal, refuse_if};
use kinds::{AWAY, CANCEL_ENTRY, CANCEL_QUOTE, ENABLE, PHASE, UNDERLYING, is_entering, is_quoting};
use packing::message::{Event, unpack, unpack_at};
use packing::report::Report;
use packing::room::ROOM;
use prices::Market;
use prices::protect::{is_above_strike, is_above_underlying};
use prices::side::{away_of, nearer_of};
use series::Series;
use series::sound::check_series;
use settling::settle;
use settling::watch::is_stirring;
use soundness::Check;
use soundness::figures::{price_faced, price_shown};
use telling::room::Reports;
use terms::{Terms, guard_of, market_of};

// The series' numbers afterwards.
fn terms_after(t: Terms, a: Ask) -> Terms
    requires { t.given ≤ last_number }
    ensures { result ≡ terms_after t a }
{
    let mut out = t;
    if is_entering(a.kind) {
        out.given = t.given + 1;
        return out;
    }
    if a.kind == AWAY {
        out.bid = a.price;
        out.offer = a.second;
        return out;
    }
    if a.kind == UNDERLYING {
        out.underlying = a.price;
        return out;
    }
    if a.kind == PHASE {
        out.phase = a.quantity;
        return out;
    }
    out
}

// A party's entry goes, as its owner asked.
fn cancel_entry(b: Book, party: u8, entry: u32, reports: &mut Reports) -> Book
    requires { Asks (cancel_entry party entry (entries_of b)) b reports.old.room.now reports.old.count }
    ensures told { Told (cancel_entry party entry (entries_of b)) reports.old result reports.new }
    ensures same_room { SameRoom reports.old reports.new }
{
    let rank = find_entry(b, party, entry);
    cut_rank(b, rank, 28, reports)
}

// A phase is noted, and then cancels.
fn note_phase(b: Book, phase: u32, reports: &mut Reports) -> Book
    requires { Asks (and_then (reported Noted (entries_of b)) (sweep phase)) b reports.old.room.now reports.old.count }
    ensures told { Told (and_then (reported Noted (entries_of b)) (sweep phase)) reports.old result reports.new }
    ensures same_room { SameRoom reports.old reports.new }
{
    reports.tell(Report::Noted);
    sweep_all(b, phase, reports)
}

// What a side faces, by what the test of the series has seen.
pub fn facing_of(check: Check, t: Terms, sell: bool) -> Facing
    ensures { result ≡ facing_by check t sell }
{
    let shown = price_shown(check, sell);
    let away = away_of(market_of(t), sell);
    Facing {
        contra: price_faced(check, sell),
        national: nearer_of(sell, away, shown),
    }
}

// The message's own part.
#[inline(never)]
fn act(s: Series, check: Check, a: Ask, reports: &mut Reports) -> Book
    requires acts { Acts s check a }
    requires roomy { Roomy reports.old.room.now reports.old.count (own_part s.terms a (entries_of s.book)).records }
    ensures told { Told (own_part s.terms a (entries_of s.book)) reports.old result reports.new }
    ensures same_room { SameRoom reports.old reports.new }
{
    let b = s.book;
    let t = s.terms;
    if is_entering(a.kind) {
        let e = comer_of(t.given, a);
        let f = facing_of(check, t, e.sell);
        return arrive(b, t, e, f, reports);
    }
    if a.kind == CANCEL_ENTRY {
        let party = a.party as u8;
        return cancel_entry(b, party, a.entry, reports);
    }
    if a.kind == CANCEL_QUOTE {
        let party = a.party as u8;
        return cut_quote(b, party, a.sell, 28, reports);
    }
    if a.kind == PHASE {
        return note_phase(b, a.quantity, reports);
    }
    reports.tell(Report::Noted);
    b
}

// Settling, where there is anything to settle: mostly there is not. Not inlined, as `act`, so that its stack and theirs are not needed at once:
// c/waxglimmer.h says with how much a thread can call the handler.
#[inline(never)]
fn settle_open(b: Book, market: Market, reports: &mut Reports) -> Book
    requires { Settleable market b reports.old.room.now reports.old.count }
    ensures told { Told (settled market (entries_of b)) reports.old result reports.new }
    ensures same_room { SameRoom reports.old reports.new }
{
    if is_stirring(b, market) {
        return settle(b, market, reports);
    }
    b
}

// Settling, in an open series.
fn settle_if(t: Terms, b: Book, reports: &mut Reports) -> Book
    requires { SettlesIf t b reports.old.room.now reports.old.count }
    ensures told { Told (settled_if t (entries_of b)) reports.old result reports.new }
    ensures same_room { SameRoom reports.old reports.new }
{
    if t.phase == 1 {
        return settle_open(b, market_of(t), reports);
    }
    b
}

// Whether it is a quote that is rejected for a reason that blocks its maker: 25 and 26 come before all others, and ask nothing of the book.
fn is_blocking(t: Terms, a: Ask) -> bool
    ensures { BlocksFor result t a }
{
    if !is_quoting(a.kind) {
        return false;
    }
    let guard = guard_of(t);
    is_above_underlying(guard, a.sell, a.price) | is_above_strike(guard, a.sell, a.price)
}

// The series with its new numbers and book, and the maker blocked or freed.
fn put_together(s: Series, a: Ask, terms: Terms, blocking: bool, book: Book) -> Series
    requires { Marks blocking a s }
    ensures { result ≡ record { terms = terms; blocked = blocked_by blocking a s.blocked; book = book } }
{
    let mut out = s;
    out.terms = terms;
    out.book = book;
    if a.kind == ENABLE {
        let i = (a.party - 1) as usize;
        out.blocked[i] = false;
        return out;
    }
    if blocking {
        let i = (a.party - 1) as usize;
        out.blocked[i] = true;
        return out;
    }
    out
}

// An event that no test refuses.
fn accept(s: Series, check: Check, a: Ask, room: &mut [u8]) -> Answer
    requires acts { Acts s check a }
    requires room_size_in_bounds { room_size ≤ length room.old }
    ensures { in_room (answered result) room.new ≡ accepted s a room.old }
{
    let blocking = is_blocking(s.terms, a);
    let mut reports = Reports::new(room);
    let b = act(s, check, a, &mut reports);
    let t = terms_after(s.terms, a);
    let after = settle_if(t, b, &mut reports);
    let series = put_together(s, a, t, blocking, after);
    Answer {
        count: reports.count,
        series,
    }
}

// What a message that was read is answered.
fn answer_event(
    series: Series,
    check: Check,
    event: Event,
    room: &mut [u8],
) -> Result<Answer, Refusal>
    requires whole { Whole series check }
    requires room_size_in_bounds { room_size ≤ length room.old }
    ensures { in_room (answer_of series result) room.new ≡ judged series (ask_of event) room.old (refusal_of series (ask_of event)) }
{
    let a = ask_of(event);
    refusal_of(series, check, a)?;
    Ok(accept(series, check, a, room))
}

// The answer to what a message unpacks to. The refusals 10 and 11 come before it is looked at.
pub fn handle_read(series: Series, read: Option<Event>, room: &mut [u8]) -> Result<Answer, Refusal>
    ensures { in_room (answer_of series result) room.new ≡ handled_as series read room.old }
{
    let check = check_series(series).ok_or(Refusal::Unsound);
    refuse_if(room.len() < ROOM, Refusal::ShortRoom)?;
    let check = check?;
    let Some(event) = read else {
        return Err(Refusal::Nothing);
    };
    answer_event(series, check, event, room)
}

// Every series, message and room has its answer.
pub fn handle(series: Series, message: &[u8], room: &mut [u8]) -> Result<Answer, Refusal>
    ensures { in_room (answer_of series result) room.new ≡ handled series message.now room.old }
{
    handle_read(series, unpack(message), room)
}

// The same of a message where it stands in a run.
pub fn handle_at(series: Series, run: &[u8], at: usize, room: &mut [u8]) -> Result<Answer, Refusal>
    ensures { in_room (answer_of series result) room.new ≡ handled_at series run.now at room.old }
{
    handle_read(series, unpack_at(run, at), room)
}
