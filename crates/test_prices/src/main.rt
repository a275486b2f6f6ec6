// Reads a table of questions about prices from standard input, and prints the answer to each on a line of its own. What they must be is the file
// stdout, made by tests/price_vectors.py and not by this program.
//
// A question is nine numbers of four bytes, most significant first: what is asked, and eight figures. `-` is printed for a question that no rule answers.
#![tactic(auto)]

mod tell;

ghost use Rattle.std.specs.Prelude.{◌≡◌};
ghost use Rattle.test_prices.specs.Question.{question_in};

use std::{array, io};
use test_reading::input::next_record;
use test_reading::number_at;

// How many bytes a question has.
const QUESTION: usize = 36;

fn asked_in(bytes: &[u8]) -> [u32; 9]
    ensures { result ≡ question_in bytes.now }
{
    array::from_fn(|i| number_at(bytes, 4 * i))
}

// What is asked comes first, and then its figures; those that it does not use are passed over.
fn answer(rt: &impl Print, question: [u32; 9]) -> io::Result<()> {
    match question {
        [1, kind, side, limit, away, contra, m, _, _] => {
            tell::aims(rt, kind, side, limit, away, contra, m)
        }
        [2, put, exempt, strike, underlying, sell, best, limit, _] => {
            tell::protection(
                rt,
                put != 0,
                exempt != 0,
                strike,
                underlying,
                sell != 0,
                best,
                limit,
            )
        }
        [3, m, k, kind, sell, limit, away, hidden, display] => {
            tell::stop(rt, m, k, kind, sell != 0, limit, away, hidden, display)
        }
        [4, sell, shown, display, working, _, _, _, _] => {
            tell::resting(rt, sell != 0, shown, display, working)
        }
        [5, sell, away, display, working, _, _, _, _] => {
            tell::eased(rt, sell != 0, away, display, working)
        }
        [6, m, price, _, _, _, _, _, _] => tell::legal(rt, m, price),
        [7, m, kind, sell, limit, away, contra, display, working] => {
            tell::stirring(
                rt,
                m,
                kind,
                sell != 0,
                limit,
                away,
                contra,
                display,
                working,
            )
        }
        [8, m, sell, limit, display, working, _, _, _] => {
            tell::slide(rt, m, sell != 0, limit, display, working)
        }
        [9, sell, away, shown, _, _, _, _, _] => tell::best(rt, sell != 0, away, shown),
        [10, sell, bid, offer, _, _, _, _, _] => tell::away(rt, sell != 0, bid, offer),
        [11, rule, m, k, sell, limit, away, hidden, display] => {
            tell::figures_of_stop(rt, rule, m, k, sell != 0, limit, away, hidden, display)
        }
        [12, rule, put, exempt, strike, underlying, sell, best, limit] => {
            tell::figures_of_bar(
                rt,
                rule,
                put != 0,
                exempt != 0,
                strike,
                underlying,
                sell != 0,
                best,
                limit,
            )
        }
        _ => tell::nothing(rt),
    }
}

fn main(rt: HostRuntime) -> io::Result<()> {
    let mut input = rt.stdin();
    for _ in 0..1000000u32 {
        let Some(bytes) = next_record::<QUESTION, _>(&mut input)? else {
            break;
        };
        answer(&rt, asked_in(&bytes))?;
        tell::end(&rt)?;
    }
    Ok(())
}
