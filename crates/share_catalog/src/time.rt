//! Times of a row, in universal time.
ghost use Rattle.std.specs.Prelude.{◌≡◌, ◌<◌, ◌≤◌, ◌+◌, ◌/◌, ◌%◌, ℕ, length, slice_index, true, false};
ghost use Rattle.std.specs.Prelude.{MatchOption, IfSome};
ghost use Rattle.share_catalog.specs.Texts.{is_leap, has_thirty, days_in, is_date, is_time_of_day, time_bytes};
ghost use Rattle.share_catalog.specs.Texts.{two_digits as two_digits_of, four_digits as four_digits_of};
ghost use Rattle.share_catalog.specs.Texts.{IsTwoAt, IsFourAt};

/// A second of universal time, from the year 0 to the year 9999. Each month has its days.
#[derive(Clone, Copy, Debug)]
pub struct Time {
    pub year: u16,
    pub month: u8,
    pub day: u8,
    pub hour: u8,
    pub minute: u8,
    pub second: u8,
    ghost date: { is_date year month day ≡ true },
    ghost time_of_day: { is_time_of_day hour minute second ≡ true },
}

/// The length of a time in bytes.
const LENGTH: usize = 20;

impl Time {
    ghost use Rattle.share_catalog.specs.Reads.{Reads, Any};
    ghost use Rattle.share_catalog.specs.Times.{time_text, IsTimeOf};

    /// The time of these numbers. `None` if there is none.
    pub fn new(year: u16, month: u8, day: u8, hour: u8, minute: u8, second: u8) -> Option<Time>
        ensures { IsTimeOf year month day hour minute second result }
    {
        if is_date(year, month, day) && is_time_of_day(hour, minute, second) {
            Some(Time {
                year,
                month,
                day,
                hour,
                minute,
                second,
            })
        } else {
            None
        }
    }

    /// The bytes of the time, as `2026-01-31T23:59:59Z`.
    #[tactic(auto, unfolding(crate::specs::Times::time_text))]
    pub fn text(self) -> [u8; LENGTH]
        ensures { result ≡ time_text self }
    {
        let [a, b, c, d] = four_digits(self.year);
        let [e, f] = two_digits(self.month);
        let [g, h] = two_digits(self.day);
        let [i, j] = two_digits(self.hour);
        let [k, l] = two_digits(self.minute);
        let [m, n] = two_digits(self.second);
        [
            a, b, c, d, b'-', e, f, b'-', g, h, b'T', i, j, b':', k, l, b':', m, n, b'Z',
        ]
    }

    /// The time with these bytes. `None` if no time has them.
    pub fn read(word: &[u8]) -> Option<Time>
        ensures { Reads time_text Any word.now result }
    {
        if word.len() != LENGTH {
            return None;
        }
        let time = Time::new(
            four_at(word, 0),
            two_at(word, 5),
            two_at(word, 8),
            two_at(word, 11),
            two_at(word, 14),
            two_at(word, 17),
        )?;
        if time.text().as_slice() == word {
            Some(time)
        } else {
            None
        }
    }
}

fn is_date(year: u16, month: u8, day: u8) -> bool
    ensures { result ≡ is_date year month day }
{
    year <= 9999 && 1 <= month && month <= 12 && 1 <= day && day <= days_in(year, month)
}

fn days_in(year: u16, month: u8) -> u8
    ensures { result ≡ days_in year month }
{
    if month == 2 {
        return if is_leap(year) { 29 } else { 28 };
    }
    if month == 4 || month == 6 || month == 9 || month == 11 {
        30
    } else {
        31
    }
}

fn is_leap(year: u16) -> bool
    ensures { result ≡ is_leap year }
{
    (year % 4 == 0 && year % 100 != 0) || year % 400 == 0
}

fn is_time_of_day(hour: u8, minute: u8, second: u8) -> bool
    ensures { result ≡ is_time_of_day hour minute second }
{
    hour <= 23 && minute <= 59 && second <= 59
}

fn two_digits(number: u8) -> [u8; 2]
    requires { number < 100 }
    ensures { result ≡ two_digits_of number }
{
    [b'0' + number / 10, b'0' + number % 10]
}

fn four_digits(number: u16) -> [u8; 4]
    requires { number < 10000 }
    ensures { result ≡ four_digits_of number }
{
    [
        b'0' + (number / 1000) as u8,
        b'0' + (number / 100 % 10) as u8,
        b'0' + (number / 10 % 10) as u8,
        b'0' + (number % 10) as u8,
    ]
}

// The value of a digit, and 0 of any other byte.
fn digit(byte: u8) -> u8
    ensures few { result ≤ 9 }
    ensures value { (n : ℕ) → n < 10 → byte ≡ 48 + n → result ≡ n }
{
    if b'0' <= byte && byte <= b'9' {
        byte - b'0'
    } else {
        0
    }
}

// The number whose two digits stand at a place.
fn two_at(word: &[u8], at: usize) -> u8
    requires { at + 2 ≤ length word.now }
    ensures few { result < 100 }
    ensures value { IsTwoAt word.now at result }
{
    digit(word[at]) * 10 + digit(word[at + 1])
}

// The number whose four digits stand at a place.
fn four_at(word: &[u8], at: usize) -> u16
    requires { at + 4 ≤ length word.now }
    ensures { IsFourAt word.now at result }
{
    u16::from(two_at(word, at)) * 100 + u16::from(two_at(word, at + 2))
}
