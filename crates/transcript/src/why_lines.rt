// Why the reports of a message say what they say, as lines put into a lent buffer.
ghost use Rattle.std.specs.Prelude.{◌+◌, ◌≤◌, [], ◌∷◌, length, Ok};
ghost use Rattle.packing.specs.Room.{read_back, most_reports};
ghost use Rattle.handler.specs.Asked.{ask_of};
ghost use Rattle.handler.specs.Handle.{answer_of, in_room};
ghost use Rattle.handler.specs.Acts.{Accepted};
ghost use Rattle.lines.specs.Lines.{field_line};
ghost use Rattle.lines.specs.Buffer.{TextPut, HasLines, PutsLines, longest_answer};
ghost use Rattle.transcript.specs.WhyLines.{none_line, why_line, why_lines, why_text, Answers};

use handler::Answer;
use kinds::refusal::Refusal;
use lines::text::Text;
use packing::message::Event;
use series::Series;
use why::Reason;
use why::explain::why_at_place;

// The rule and its two figures.
fn put_reason(text: &mut Text, number: u64, place: u32, reason: Reason)
    requires { HasLines text.old 1 }
    ensures { PutsLines text.old 1 (field_line number (place ∷ reason.rule ∷ reason.first ∷ reason.second ∷ [])) text.new }
{
    let fields = [place, reason.rule, reason.first, reason.second];
    text.line(number, &fields);
}

// No reason to give.
fn put_none(text: &mut Text, number: u64, place: u32)
    requires { HasLines text.old 1 }
    ensures { PutsLines text.old 1 (none_line number place) text.new }
{
    text.number(number);
    text.field(place);
    text.word(b" none\n");
}

// What is told of the report at a place.
fn put_why(text: &mut Text, number: u64, place: u32, why: Option<Reason>)
    requires { HasLines text.old 1 }
    ensures { PutsLines text.old 1 (why_line number place (Ok why)) text.new }
{
    match why {
        Some(reason) => put_reason(text, number, place, reason),
        None => put_none(text, number, place),
    }
}

// A line for each of the room's first `count` reports, which are those of an accepted message.
fn put_whys(text: &mut Text, number: u64, series: Series, event: Event, count: usize, room: &[u8])
    requires { Accepted series (ask_of event) × (count ≤ most_reports) × HasLines text.old count }
    ensures { PutsLines text.old count (why_lines number series (Some event) 0 (read_back count room.now)) text.new }
{
    for place in 0..count {
        let why = why_at_place(series, event, room, place);
        put_why(text, number, place as u32, why);
    }
}

// The refusal, or why each report says what it says.
fn put_answer(
    text: &mut Text,
    number: u64,
    series: Series,
    read: Option<Event>,
    answer: Result<Answer, Refusal>,
    room: &[u8],
)
    requires { Answers series read (answer_of series answer) × HasLines text.old most_reports }
    ensures { PutsLines text.old most_reports (why_text number series read (in_room (answer_of series answer) room.now)) text.new }
{
    let answer = match answer {
        Ok(answer) => answer,
        Err(why) => return text.refusal(number, u32::from(why)),
    };
    if let Some(event) = read {
        put_whys(text, number, series, event, answer.count, room);
    }
}

// The same, put into a buffer from `at` on. Answers where it ends.
pub(crate) fn why_lines(
    out: &mut [u8],
    at: usize,
    number: u64,
    series: Series,
    read: Option<Event>,
    answer: Result<Answer, Refusal>,
    room: &[u8],
) -> usize
    requires { Answers series read (answer_of series answer) × (at + longest_answer ≤ length out.old) }
    ensures text_put { TextPut out.old at (why_text number series read (in_room (answer_of series answer) room.now)) out.new result }
    ensures upper_bound { result ≤ length out.new }
{
    let mut text = Text { out, end: at };
    put_answer(&mut text, number, series, read, answer, room);
    text.end
}
