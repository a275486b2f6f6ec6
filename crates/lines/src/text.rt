// Text, put into a lent buffer behind what stands there: words, numbers and fields, lines, and what is printed for a message.
ghost use Rattle.std.specs.Prelude.{[], ◌∷◌};
ghost use Rattle.packing.specs.Room.{report_at, read_back};
ghost use Rattle.lines.specs.Decimal.{decimal};
ghost use Rattle.lines.specs.Lines.{space, spaced, field_line, report_line, refusal_line, line_of, report_lines, answer_text};
ghost use Rattle.lines.specs.Buffer.{HasRoom, Puts};

use packing::report::{Report, fields_of};
use packing::room::{read_report, store};

// A lent buffer, and where the text in it ends.
#[derive(Drop)]
pub struct Text<'a> {
    pub out: &'a mut [u8],
    pub end: usize,
}

impl<'a> Text<'a> {
    // The word's bytes.
    pub fn word(&mut self, word: &[u8])
        requires { HasRoom self.old word.now }
        ensures { Puts self.old word.now self.new }
    {
        store(self.out, self.end, word);
        self.end += word.len();
    }

    // One byte.
    fn byte(&mut self, byte: u8)
        requires { HasRoom self.old (byte ∷ []) }
        ensures { Puts self.old (byte ∷ []) self.new }
    {
        self.out[self.end] = byte;
        self.end += 1;
    }

    // A number of several digits.
    fn digits(&mut self, n: u64)
        requires { HasRoom self.old (decimal n) }
        ensures { Puts self.old (decimal n) self.new }
    {
        let mut digits = [0u8; 20];
        let k = io::decimal(n, &mut digits);
        self.word(&digits[..k]);
    }

    // A number in decimal. Most fields are one digit.
    pub fn number(&mut self, n: u64)
        requires { HasRoom self.old (decimal n) }
        ensures { Puts self.old (decimal n) self.new }
    {
        if n < 10 {
            return self.byte(b'0' + n as u8);
        }
        self.digits(n);
    }

    // A space and a field behind it.
    pub fn field(&mut self, field: u32)
        requires { HasRoom self.old (space ∷ decimal field) }
        ensures { Puts self.old (space ∷ decimal field) self.new }
    {
        self.byte(b' ');
        self.number(u64::from(field));
    }

    // The fields, each with a space before it.
    fn fields(&mut self, fields: &[u32])
        requires { HasRoom self.old (spaced fields.now) }
        ensures { Puts self.old (spaced fields.now) self.new }
    {
        for field in fields {
            self.field(*field);
        }
    }

    // The message's number and the fields behind it, one space between.
    pub fn line(&mut self, number: u64, fields: &[u32])
        requires { HasRoom self.old (field_line number fields.now) }
        ensures { Puts self.old (field_line number fields.now) self.new }
    {
        self.number(number);
        self.fields(fields);
        self.byte(b'\n');
    }

    // The line of a report.
    fn report(&mut self, number: u64, report: Report)
        requires { HasRoom self.old (report_line number report) }
        ensures { Puts self.old (report_line number report) self.new }
    {
        self.line(number, &fields_of(report));
    }

    // The report at a place of the room; no line where none stands there.
    fn place(&mut self, number: u64, room: &[u8], k: usize)
        requires { HasRoom self.old (line_of number (report_at room.now k)) }
        ensures { Puts self.old (line_of number (report_at room.now k)) self.new }
    {
        if let Some(report) = read_report(room, k) {
            self.report(number, report);
        }
    }

    // A line for each of the room's first `count` reports.
    fn reports(&mut self, number: u64, count: usize, room: &[u8])
        requires { HasRoom self.old (report_lines number (read_back count room.now)) }
        ensures { Puts self.old (report_lines number (read_back count room.now)) self.new }
    {
        for k in 0..count {
            self.place(number, room, k);
        }
    }

    // The message's number, `refused`, the refusal.
    pub fn refusal(&mut self, number: u64, refusal: u32)
        requires { HasRoom self.old (refusal_line number refusal) }
        ensures { Puts self.old (refusal_line number refusal) self.new }
    {
        self.number(number);
        self.word(b" refused ");
        self.number(u64::from(refusal));
        self.byte(b'\n');
    }

    // What is printed for message `number`: its refusal, or the lines of its reports.
    pub(crate) fn answer(&mut self, number: u64, refusal: u32, count: usize, room: &[u8])
        requires { HasRoom self.old (answer_text number refusal count room.now) }
        ensures { Puts self.old (answer_text number refusal count room.now) self.new }
    {
        if refusal != 0 {
            return self.refusal(number, refusal);
        }
        self.reports(number, count, room);
    }
}
