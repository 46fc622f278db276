//! The digits of a date, from its text in an HTTP field.

ghost use Rattle.std.specs.Prelude.{◌≡◌};
ghost use Rattle.tl_s3.specs.Inner.Digits as inner;

// Returns the number of a month in two digits, from the first three letters of its name.
fn month_digits(name: &[u8; 3]) -> [u8; 2]
    ensures digits { result ≡ inner.month_digits name.now }
{
    match name {
        b"Jan" => *b"01",
        b"Feb" => *b"02",
        b"Mar" => *b"03",
        b"Apr" => *b"04",
        b"May" => *b"05",
        b"Jun" => *b"06",
        b"Jul" => *b"07",
        b"Aug" => *b"08",
        b"Sep" => *b"09",
        b"Oct" => *b"10",
        b"Nov" => *b"11",
        _ => *b"12",
    }
}

/// Returns the digits of the day in a text such as `Fri, 24 May 2013 00:00:00 GMT`.
pub(crate) fn day_in(text: &[u8; 29]) -> [u8; 8]
    ensures digits { result ≡ inner.day_in text.now }
{
    let [m1, m2] = month_digits(&[text[8], text[9], text[10]]);
    [
        text[12], text[13], text[14], text[15], m1, m2, text[5], text[6],
    ]
}

/// Returns the day and the time in such a text, as `20130524T000000Z`.
pub(crate) fn time_in(text: &[u8; 29]) -> [u8; 16]
    ensures digits { result ≡ inner.time_in text.now }
{
    let [y1, y2, y3, y4, m1, m2, d1, d2] = day_in(text);
    [
        y1, y2, y3, y4, m1, m2, d1, d2, b'T', text[17], text[18], text[20], text[21], text[23],
        text[24], b'Z',
    ]
}
