//! Puts objects into a bucket of an S3-compatible server, and gets them (Amazon S3 API Reference, PutObject and
//! GetObject), by requests that are signed by AWS Signature Version 4 ("Signature Calculations for the Authorization
//! Header: Transferring Payload in a Single Chunk (AWS Signature Version 4)").
//!
//! A bucket holds objects by path. A put can have a `Condition`: that no object is there yet, or that the one there
//! still has the entity tag that the caller saw. So several writers can share a bucket, and none of them overwrites
//! what another one put meanwhile. Each request is signed with the bucket's credential, and goes over a
//! reader and a writer, which can carry further requests while `stays_open` is true.
//!
//! A put whose answer is lost, or has a status from 500 on, may have been done: get the object, and compare.
//!
//! ```rust
//! let credential = Credential { id: "AKID", secret: &secret, region: "us-east-1", service: "s3" };
//! let bucket = Bucket { host: "127.0.0.1:7480", prefix: "/logs", credential };
//! let object = Object { path: "/checkpoint", content_type: "text/plain", cache_control: "no-cache", body: &note };
//! let put = put_object(alloc, &mut reader, &mut writer, &bucket, &moment, &object, Condition::Absent)?;
//! match put.answer {
//!     PutAnswer::Done => {}    // put.etag is the entity tag of the new object
//!     PutAnswer::Refused => {} // another object was there already
//!     _ => {}                  // put.body says why
//! }
//! if put.stays_open {
//!     let got = get_object(alloc, &mut reader, &mut writer, &bucket, &moment, "/checkpoint", 65_536)?;
//! }
//! ```
//!
//! A server of this kind knows who sends a request by the field `Authorization`, which carries a signature of the
//! method, the path, the query, the fields and the body's digest. The signing key comes from the secret of a
//! `Credential` and is good for one day, one region and one service; the `Moment` gives that day and the request's
//! time.
//!
//! To sign, put the request into a `Request` with its fields in canonical form, which `is_canonical` checks: names in
//! lower case and in order, each once, and trimmed values. `authorization` returns the value of `Authorization`. Then
//! send the request exactly as it was signed. The steps on the way can be called alone: `canonical_request`,
//! `string_to_sign`, `signing_key` and `signature`.
//!
//! ```rust
//! let credential = Credential { id: "AKID", secret: &secret, region: "us-east-1", service: "s3" };
//! let moment = Moment::from_unix_seconds(1_369_353_600).unwrap(); // 24 May 2013
//! let payload = payload_digest(alloc, b"")?;
//! let request = Request {
//!     method: "GET",
//!     path: "/logs/checkpoint",
//!     query: "",
//!     fields: &[
//!         Field { name: "host", value: "127.0.0.1:7480" },
//!         Field { name: "x-amz-content-sha256", value: payload.as_str() },
//!         Field { name: "x-amz-date", value: moment.time() }, // 20130524T000000Z
//!     ],
//!     payload: payload.as_str(),
//! };
//! assert!(is_canonical(request.fields));
//! let value = authorization(alloc, &request, &credential, &moment)?; // AWS4-HMAC-SHA256 Credential=..
//! ```
#![tactic(auto)]

mod canonical;
mod credential;
mod digits;
mod fault;
mod form;
mod getting;
pub mod law;
mod moment;
mod object;
mod putting;
mod request;
mod sending;
mod signing;

pub use canonical::{canonical_request, payload_digest};
pub use credential::Credential;
pub use fault::ObjectFault;
pub use form::is_canonical;
pub use getting::get_object;
pub use moment::Moment;
pub use object::{Bucket, Condition, GetAnswer, GetReply, Object, PutAnswer, PutReply};
pub use putting::put_object;
pub use request::{Field, Request};
pub use signing::{authorization, signature, signing_key, string_to_sign};
