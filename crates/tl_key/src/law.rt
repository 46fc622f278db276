//! Laws of the texts of keys, over the definitions.

ghost use Rattle.std.specs.Prelude.{◌≡◌, ℕ};
ghost use Rattle.tl_hash.specs.Bytes.{Bytes};
ghost use Rattle.tl_key.specs.NoteKey.{PublicKey, SeedKey};
ghost use Rattle.tl_key.specs.KeyText.{IsVerifierText, IsSignerText};

/// Two keys of verifiers, of any types, have the same text exactly if they are the same key.
pub fn verifier_text_is_one()
    ensures { (m n : ℕ) (s t : Bytes) (k l : PublicKey)
        → IsVerifierText m s k → IsVerifierText n t l → (s ≡ t → k ≡ l) × (k ≡ l → s ≡ t) }
{}

/// Two keys of signers, of any types, have the same text exactly if they are the same key.
pub fn signer_text_is_one()
    ensures { (m n : ℕ) (s t : Bytes) (k l : SeedKey)
        → IsSignerText m s k → IsSignerText n t l → (s ≡ t → k ≡ l) × (k ≡ l → s ≡ t) }
{}
