//! The credential that signs.

/// A key, and the region and the service that its signatures are for. It holds the key's secret, so it has no
/// `Debug`, which could write the secret into a message.
#[derive(Clone, Copy)]
pub struct Credential<'t> {
    /// The access key's identifier, which is public.
    pub id: &'t str,
    /// The access key's secret.
    pub secret: &'t str,
    /// The region, such as `us-east-1`.
    pub region: &'t str,
    /// The service, such as `s3`.
    pub service: &'t str,
}
