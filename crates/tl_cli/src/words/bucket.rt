//! The words of a log in a bucket.

use super::WordsFault;
use super::given::{is_given, text_if_given, text_of};
use super::table::{Group, Kind, Word, Words};
use crate::own_bucket::BucketOptions;
use clap::ArgMatches;
use std::alloc::Global;
use tl_source::Url;

// The message if the address of a bucket isn't one.
const NO_ADDRESS: &str = "--bucket is http://HOST[:PORT]/BUCKET[/PREFIX]";

// The message if a bucket is given only in part.
const OF_A_BUCKET: &str = "--region is given with --bucket, and --credentials with these alone";

/// The words of a log in a bucket.
pub(super) const BUCKET: Group = Group {
    heading: "In a bucket",
    words: words![
        "bucket" "URL" Kind::Text => "http://HOST[:PORT]/BUCKET[/PREFIX]";
        "region" "REGION" Kind::Text => "The region of its store";
        "credentials" "FILE" Kind::Path => "The file with the key that signs requests";
    ],
};

// Reports whether this is the address of a bucket, or of a prefix in it. It may end with a slash.
fn is_address(text: &str) -> bool {
    match Url::parse(text) {
        Some(url) => !url.prefix.ends_with("//"),
        None => false,
    }
}

/// Returns the message if the words of a bucket don't go together, or its address isn't one.
pub(super) fn bucket_refusal(options: &ArgMatches<'_>) -> Option<&'static str> {
    let Some(address) = options.get_str("bucket") else {
        let of_a_bucket = is_given(options, "region") || is_given(options, "credentials");
        return of_a_bucket.then_some(OF_A_BUCKET);
    };
    if !is_given(options, "region") {
        return Some(OF_A_BUCKET);
    }
    (!is_address(address)).then_some(NO_ADDRESS)
}

/// Returns the bucket that is given.
pub(super) fn bucket_of(
    alloc: Global,
    options: &ArgMatches<'_>,
) -> Result<BucketOptions, WordsFault> {
    Ok(BucketOptions {
        address: text_of(alloc, options, "bucket")?,
        region: text_of(alloc, options, "region")?,
        credentials: text_if_given(alloc, options, "credentials")?,
    })
}
