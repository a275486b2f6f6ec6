// Byte strings judged with no series at hand.
ghost use Rattle.std.specs.Prelude.{◌≡◌, true};
ghost use Rattle.prices.specs.Step.{mpv};
ghost use Rattle.packing.specs.Message.{message_at, said_by};
ghost use Rattle.handler.specs.Asked.{ask_of};
ghost use Rattle.handler.specs.Refuse.{refusal_in};
ghost use Rattle.lists.specs.Tests.{first_holding};
ghost use Rattle.server.specs.Check.{is_message, faults, check_as, check};

use handler::asking::ask_of;
use handler::refuse::{is_bad_party, is_bad_price, is_bad_quantity};
use kinds::refusal::{Refusal, refuse_if};
use packing::message::{Event, unpack, unpack_at};
use prices::step::is_mpv;

// The number of an unpacker's answer: 0 for a message, 1 for none.
fn number_of(read: Option<Event>) -> u32
    ensures { result ≡ (said_by read).0 }
{
    u32::from(read.is_none())
}

// 0 for a message, 1 for none.
#[unsafe(no_mangle)]
pub extern "C" fn waxglimmer_is_message(message: &[u8]) -> u32
    ensures { result ≡ is_message message.now }
{
    number_of(unpack(message))
}

// The same of the bytes at a place of a run.
#[unsafe(no_mangle)]
pub extern "C" fn waxglimmer_is_message_at(run: &[u8], at: usize) -> u32
    ensures { result ≡ is_message (message_at run.now at) }
{
    number_of(unpack_at(run, at))
}

// The first of refusals 2, 3 and 4 that an event meets.
fn fault_of(m: u32, event: Event) -> Result<(), Refusal>
    requires { mpv m ≡ true }
    ensures { refusal_in result ≡ first_holding (faults m (ask_of event)) }
{
    let a = ask_of(event);
    refuse_if(is_bad_party(a), Refusal::Party)?;
    refuse_if(is_bad_price(m, a), Refusal::Price)?;
    refuse_if(is_bad_quantity(a), Refusal::Quantity)
}

// Which of the refusals 1 to 4 a series with this M gives what a message unpacks to; 11 where no sound series has this M.
fn check_read(read: Option<Event>, m: u32) -> Result<(), Refusal>
    ensures { refusal_in result ≡ check_as read m }
{
    refuse_if(!is_mpv(m), Refusal::Unsound)?;
    let Some(event) = read else {
        return Err(Refusal::Nothing);
    };
    fault_of(m, event)
}

// A refusal by its number, 0 for none.
fn number_in(refusal: Result<(), Refusal>) -> u32
    ensures { result ≡ refusal_in refusal }
{
    match refusal {
        Ok(()) => 0,
        Err(why) => u32::from(why),
    }
}

#[unsafe(no_mangle)]
pub extern "C" fn waxglimmer_check(message: &[u8], m: u32) -> u32
    ensures { result ≡ check message.now m }
{
    number_in(check_read(unpack(message), m))
}

// The same of the bytes at a place of a run.
#[unsafe(no_mangle)]
pub extern "C" fn waxglimmer_check_at(run: &[u8], at: usize, m: u32) -> u32
    ensures { result ≡ check (message_at run.now at) m }
{
    number_in(check_read(unpack_at(run, at), m))
}
