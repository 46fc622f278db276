//! A second, and the two texts in which it is signed.

ghost use Rattle.std.specs.Prelude.{◌≡◌};

use crate::digits::{day_in, time_in};
use arrayvec::ArrayString;
use httpdate::HttpDate;
use std::marker::Model;

/// A second from 1970 to 9999 in UTC, with the two texts in which it is signed. They are made together, so no
/// signature has the day of one second and the time of another. A contract sees it as its date and time.
#[derive(Drop)]
pub struct Moment {
    date: HttpDate,
    day: ArrayString<8>,
    time: ArrayString<16>,
}

impl Model for Moment {
    ghost use Rattle.std.specs.Prelude.{◌≡◌};
    ghost use Rattle.tl_s3.specs.Time.{Civil, civil_of, day_text, time_text};

    ghost Value = { Civil };

    ghost view = { λ m. civil_of m.date };

    ghost invariant = { λ m. (m.day.bytes ≡ day_text (civil_of m.date))
        × (m.time.bytes ≡ time_text (civil_of m.date)) };
}

impl Moment {
    ghost use Rattle.std.specs.Prelude.{ℕ, ◌<◌, ◌↔◌, IsSome, MatchOption};
    ghost use Rattle.tl_s3.specs.Time.{Civil, IsCivilAt, day_text, time_text};

    /// Returns the moment this many seconds after the start of 1970 in UTC, or `None` from the year 10000 on.
    pub fn from_unix_seconds(seconds: u64) -> Option<Moment>
        ensures until { IsSome result ↔ (seconds < 253_402_300_800) }
        ensures civil { MatchOption result ((t : Civil) → ¬ (IsCivilAt seconds t))
            (λ moment. IsCivilAt seconds moment) }
    {
        let Ok(date) = HttpDate::from_unix_secs(seconds) else {
            return None;
        };
        let text = date.to_bytes();
        let Ok(day) = ArrayString::from_byte_string(&day_in(&text)) else {
            return None;
        };
        let Ok(time) = ArrayString::from_byte_string(&time_in(&text)) else {
            return None;
        };
        Some(Moment { date, day, time })
    }

    /// Returns the day, such as `20130524` (ISO 8601, basic format).
    pub fn day(&self) -> &str
        ensures text { result.now ≡ day_text self.now }
    {
        self.day.as_str()
    }

    /// Returns the time, such as `20130524T000000Z` (ISO 8601, basic format), for the field `x-amz-date`.
    pub fn time(&self) -> &str
        ensures text { result.now ≡ time_text self.now }
    {
        self.time.as_str()
    }
}
