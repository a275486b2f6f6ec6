// The places of the book: 24 bytes each.
ghost use Rattle.std.specs.Prelude.{◌≡◌, ◌≤◌, ◌<◌, length, take, get_or, Some};
ghost use Rattle.std.specs.List.{list_all};
ghost use Rattle.lists.specs.Tests.{all};
ghost use Rattle.bits.specs.Fields.{Fit};
ghost use Rattle.packing.specs.Codec.{bytes_of, packs, unpack_of};
ghost use Rattle.series_buffer.specs.Entry.{entries, widths, code_of, own_display, pricing_by, entry_by};
ghost use Rattle.series_buffer.specs.Place.{places, tabled};
ghost use Rattle.series_buffer.specs.State.{places_size, entries_in, entries_bytes};

use book::entries::{pricing_number, zero_entry};
use book::{Entry, Pricing};
use packing::codec::{self, Packs};

// How many bytes one has, and all of them.
pub const SIZE: usize = 24;

pub const ALL: usize = 64 * SIZE;

fn own_display(p: Pricing) -> u32
    ensures { result ≡ own_display p }
{
    match p {
        Pricing::Fixed => 0,
        Pricing::Dark => 0,
        Pricing::Sliding(d) => d,
    }
}

fn pricing_by(n: u32, display: u32) -> Pricing
    ensures { result ≡ pricing_by n display }
{
    if n == 2 {
        return Pricing::Sliding(display);
    }
    if n == 1 {
        return Pricing::Dark;
    }
    Pricing::Fixed
}

fn entry_by(xs: [u32; 9]) -> Entry
    requires { (get_or xs 5 0 < 256) × (get_or xs 6 0 < 256) }
    ensures { result ≡ entry_by xs }
{
    let pricing = pricing_by(xs[8], xs[4]);
    Entry {
        number: xs[0],
        party: xs[5] as u8,
        kind: xs[6] as u8,
        sell: xs[7] == 1,
        limit: xs[1],
        quantity: xs[2],
        working: xs[3],
        pricing,
    }
}

// An entry where it stands: a type of this crate, so that it can be said here how it packs.
#[derive(Clone, Copy)]
struct Place {
    entry: Entry,
}

impl Packs<9, SIZE> for Place {
    ghost codec = { places };

    ghost WIDTHS = { widths };

    // Number, limit, quantity, working price, display, party, kind, side, pricing.
    const WIDTHS: [u8; 9] = [32, 32, 32, 32, 32, 8, 8, 8, 8];

    fn code(self) -> [u32; 9] {
        let e = self.entry;
        [
            e.number,
            e.limit,
            e.quantity,
            e.working,
            own_display(e.pricing),
            u32::from(e.party),
            u32::from(e.kind),
            u32::from(e.sell),
            pricing_number(e.pricing),
        ]
    }

    // Fields that fit have a party and a kind of one byte each.
    fn claimed(xs: [u32; 9]) -> Option<Place>
        requires { Fit widths xs }
        ensures { result ≡ Some (record { entry = entry_by xs }) }
    {
        let entry = entry_by(xs);
        Some(Place { entry })
    }

    // Whether the values are legal is not asked here: that is soundness.
    fn is_admitted(self) -> bool {
        true
    }

    ghost tabled = { tabled };
}

// The entry of the first 24 bytes, if they are just its own.
fn unpack(s: &[u8]) -> Option<Entry>
    requires { entries.size ≤ length s.now }
    ensures { result ≡ unpack_of entries (take entries.size s.now) }
{
    let place: Place = codec::unpack(&s[..SIZE])?;
    Some(place.entry)
}

// The 64 places, if each of them is an entry's.
pub fn unpack_all(s: &[u8]) -> Option<[Entry; 64]>
    requires { length s.now ≡ places_size }
    ensures { result ≡ entries_in 64 s.now }
{
    let unused = zero_entry();
    let mut entries = [unused; 64];
    for i in 0..64usize {
        let at = SIZE * i;
        entries[i] = unpack(&s[at..])?;
    }
    Some(entries)
}

// Whether each of its numbers fits its width.
#[tactic(auto, unfolding(packing::specs::Codec::packs))]
fn fits(entry: Entry) -> bool
    ensures { result ≡ packs entries entry }
{
    codec::fits(Place { entry })
}

fn each_fits(places: &[Entry]) -> bool
    ensures { result ≡ list_all (packs entries) places.now }
{
    places.iter().all(|e| fits(*e))
}

pub fn all_fit(places: [Entry; 64]) -> bool
    ensures { (result ≡ all (packs entries) places) × (length places ≡ 64) }
{
    each_fits(&places)
}

// Writes the 24 bytes of one.
#[tactic(auto, unfolding(packing::specs::Codec::bytes_of))]
fn write(out: &mut [u8], entry: Entry)
    requires { length out.old ≡ entries.size }
    ensures { out.new ≡ bytes_of entries (code_of entry) }
{
    codec::write_over(out, Place { entry })
}

// Writes the 64 places.
pub fn write_all(out: &mut [u8], places: [Entry; 64])
    requires { length out.old ≡ places_size }
    ensures { out.new ≡ entries_bytes places }
{
    for i in 0..64usize {
        let at = SIZE * i;
        let end = at + SIZE;
        write(&mut out[at..end], places[i]);
    }
}
