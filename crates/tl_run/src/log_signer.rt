//! Keys that sign the checkpoint of a log.

ghost use Rattle.std.specs.Prelude.{◌≡◌};

use std::alloc::{AllocError, Allocator, Global};
use std::marker::Model;
use tl_key::{DemoKey, Note, SignerKey, demo_key};
use tl_note::{Signer, write_signature_line};

/// The key of a log: it has the log's name, and one signature of each message.
pub trait LogSigner {
    ghost use Rattle.std.specs.Prelude.{◌≡◌, IfOk, string_bytes};
    ghost use Rattle.tl_note.specs.Note.{signature_line};
    ghost use Rattle.tl_run.specs.Signing.{LogKey};

    /// What contracts see of the key.
    ghost log_key: { Self → LogKey };

    /// Returns the key's name.
    fn origin(&self) -> &str
        ensures { result.now ≡ (log_key self.now).name };

    /// Returns the line of its signature of a text (C2SP signed-note, "Format"). It fails if allocation fails, or if
    /// the name can't be a key's.
    fn line<A: Allocator + Copy>(
        &self,
        alloc: A,
        global: Global,
        text: &str,
    ) -> Result<String<A>, AllocError>
        ensures { IfOk result
            (λ line. string_bytes line ≡ signature_line ((log_key self.now).signature text.now)) };
}

/// The demonstration key of an origin and a secret, made anew for each signature.
#[derive(Drop)]
pub struct HmacLogSigner<'a> {
    origin: &'a str,
    secret: &'a [u8],
}

impl<'a> Model for HmacLogSigner<'a> {
    ghost use Rattle.tl_key.specs.DemoKey.{Demo};

    ghost Value = { Demo };

    ghost view = { λ k. record { name = k.origin.now; secret = k.secret.now } };
}

impl<'a> HmacLogSigner<'a> {
    /// Returns the key of this origin and this secret.
    pub fn new(origin: &'a str, secret: &'a [u8]) -> HmacLogSigner<'a>
        ensures { result ≡ record { name = origin.now; secret = secret.now } }
    {
        HmacLogSigner { origin, secret }
    }
}

impl<'a> LogSigner for HmacLogSigner<'a> {
    ghost use Rattle.tl_run.specs.Signing.{demo_log_key};

    ghost log_key = { λ k. demo_log_key k };

    fn origin(&self) -> &str {
        self.origin
    }

    fn line<A: Allocator + Copy>(
        &self,
        alloc: A,
        global: Global,
        text: &str,
    ) -> Result<String<A>, AllocError> {
        let Ok(key) = demo_key(global, self.origin, self.secret) else {
            return Err(AllocError);
        };
        key.line(alloc, global, text)
    }
}

impl<B: Allocator + Send + Sync> LogSigner for DemoKey<B> {
    ghost use Rattle.tl_run.specs.Signing.{demo_log_key};

    ghost log_key = { λ k. demo_log_key k };

    fn origin(&self) -> &str {
        Signer::name(self)
    }

    fn line<A: Allocator + Copy>(
        &self,
        alloc: A,
        global: Global,
        text: &str,
    ) -> Result<String<A>, AllocError> {
        let Ok(signature) = self.sign(global, text.as_bytes()) else {
            return Err(AllocError);
        };
        let (name, id) = (Signer::name(self), Signer::key_id(self));
        write_signature_line(alloc, name, id, signature.as_slice())
    }
}

impl<B: Allocator + Send + Sync> LogSigner for SignerKey<Note, B> {
    ghost use Rattle.tl_run.specs.Signing.{seed_log_key};

    ghost log_key = { λ k. seed_log_key k };

    fn origin(&self) -> &str {
        self.name()
    }

    fn line<A: Allocator + Copy>(
        &self,
        alloc: A,
        global: Global,
        text: &str,
    ) -> Result<String<A>, AllocError> {
        let Ok(signature) = self.sign(global, text.as_bytes()) else {
            return Err(AllocError);
        };
        write_signature_line(alloc, self.name(), self.key_id(), signature.as_slice())
    }
}
