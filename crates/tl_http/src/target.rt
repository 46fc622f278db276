//! Which hosts and targets can be sent.

ghost use Rattle.std.specs.Prelude.{◌↔◌, IsTrue};
ghost use Rattle.tl_http.specs.Request.{IsVisible, IsAskable};

/// Reports whether a text is visible ASCII characters, at least one.
pub(crate) fn is_visible(text: &[u8]) -> bool
    ensures { IsTrue result ↔ IsVisible text.now }
{
    if text.is_empty() {
        return false;
    }
    for byte in text {
        if !byte.is_ascii_graphic() {
            return false;
        }
    }
    true
}

/// Reports whether host and target can be sent.
pub(crate) fn is_askable(host: &[u8], target: &[u8]) -> bool
    ensures { IsTrue result ↔ IsAskable host.now target.now }
{
    is_visible(host) && is_visible(target) && target.starts_with(b"/")
}
