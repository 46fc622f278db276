//! Laws of texts: each can be read in one way.

ghost use Rattle.std.specs.Prelude.{◌≡◌, ℕ, List, All};
ghost use Rattle.tl_text.specs.Text.{number_text, IsSize, base64_text, line, HasNoControl};
ghost use Rattle.base64.specs.GeneralPurpose.{IsBytes};
ghost use Rattle.tl_hash.specs.Bytes.{Bytes};
ghost use Rattle.std.specs.List.{flat_map};

/// Two numbers below 2^63 with the same text are the same.
pub fn numbers_have_one_text()
    ensures { (m n : ℕ) → IsSize m → IsSize n → number_text m ≡ number_text n → m ≡ n }
{}

/// Two byte strings with the same padded base64 (RFC 4648, section 4) are the same.
pub fn bytes_have_one_text()
    ensures { (a b : Bytes) → IsBytes a → IsBytes b → base64_text a ≡ base64_text b → a ≡ b }
{}

/// Two lists of lines without control characters that make the same text are the same.
pub fn lines_have_one_text()
    ensures { (xs ys : List Bytes) → All HasNoControl xs
        → All HasNoControl ys → flat_map line xs ≡ flat_map line ys → xs ≡ ys }
{}
