//! Laws of times, which hold of the definitions alone.

ghost use Rattle.std.specs.Prelude.{◌≡◌, ℕ};
ghost use Rattle.tl_s3.specs.Time.{Civil, IsCivilAt};

/// States that a second has one date and time.
pub fn civil_time_is_one()
    ensures one { (seconds : ℕ) (t u : Civil) → IsCivilAt seconds t → IsCivilAt seconds u → t ≡ u }
{}
