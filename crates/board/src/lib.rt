// The book as lines of decimal numbers, put into a lent buffer: one for each entry that rests.
#![tactic(auto)]

ghost use Rattle.std.specs.Prelude.{◌≤◌, ◌≡◌, cond, length, get_or};
ghost use Rattle.io.specs.Counts.{IsPrefixLen};
ghost use Rattle.lines.specs.Buffer.{HasLines, PutsLines};
ghost use Rattle.book.specs.Shape.{zero_entry, entries_of};
ghost use Rattle.lines.specs.Lines.{FitWord};
ghost use Rattle.board.specs.Held.{Resting, RestsAt};
ghost use Rattle.board.specs.Board.{key, before, place_of, entry_fields, line_at, board_text, board_printed};

use book::entries::{display_of, kind_of, party_of};
use book::look::priority_of;
use book::{Book, Entry};
use lines::line::is_roomy;
use lines::text::Text;

// How many places a book has.
const PLACES: usize = 64;

// What decides who of one side trades first: the least does.
fn key_of(e: Entry) -> u64
    ensures { result ≡ key e }
{
    priority_of(!e.sell, e)
}

// Whether f trades before e; `older` says whether its rank is the older one.
fn is_before(older: bool, f: Entry, e: Entry) -> bool
    ensures { result ≡ before older f e }
{
    let first = key_of(f);
    let own = key_of(e);
    (f.sell == e.sell) & ((first < own) | (older & (first == own)))
}

// How many entries rest.
fn resting(b: Book) -> usize
    ensures { Resting b result }
{
    b.count.min(PLACES)
}

// The place of the entry of rank i: how many on its side trade before it.
fn place_of(all: &[Entry], i: usize) -> u32
    requires { RestsAt all.now i }
    ensures { result ≡ place_of all.now i (get_or all.now i zero_entry) }
{
    let e = all[i];
    let mut place = 0u32;
    for (j, f) in all.iter().enumerate() {
        place += u32::from(is_before(j < i, *f, e));
    }
    place
}

fn side_of(e: Entry) -> u32
    ensures { result ≡ cond e.sell 1 0 }
{
    u32::from(e.sell)
}

// What a line has of an entry.
fn fields_of(place: u32, e: Entry) -> [u32; 9]
    ensures { (result ≡ entry_fields place e) × FitWord (entry_fields place e) }
{
    [
        side_of(e),
        place,
        e.number,
        party_of(e),
        kind_of(e),
        e.limit,
        display_of(e),
        e.working,
        e.quantity,
    ]
}

// The line of the entry of rank i.
fn put_entry(text: &mut Text, number: u64, all: &[Entry], i: usize)
    requires { RestsAt all.now i × HasLines text.old 1 }
    ensures { PutsLines text.old 1 (line_at number all.now i (get_or all.now i zero_entry)) text.new }
{
    let place = place_of(all, i);
    let fields = fields_of(place, all[i]);
    text.line(number, &fields);
}

fn put_entries(text: &mut Text, number: u64, all: &[Entry])
    requires { (length all.now ≤ 64) × HasLines text.old (length all.now) }
    ensures { PutsLines text.old (length all.now) (board_text number all.now) text.new }
{
    for i in 0..all.len() {
        put_entry(text, number, all, i);
    }
}

// What is printed of a book after message `number`: a line for each entry that rests. Answers where it ends; where the buffer may be too
// short for it, the buffer stays as it was, and the answer is 0.
pub fn board_lines(out: &mut [u8], at: usize, number: u64, b: Book) -> usize
    ensures value { result ≡ (board_printed out.old at number b).0 }
    ensures out_after { out.new ≡ (board_printed out.old at number b).1 }
    ensures prefix_len { IsPrefixLen result out.new × (length (entries_of b) ≤ 64) }
{
    let n = resting(b);
    if !is_roomy(out.len(), at, n) {
        return 0;
    }
    let mut text = Text { out, end: at };
    put_entries(&mut text, number, &b.entries[..n]);
    text.end
}
