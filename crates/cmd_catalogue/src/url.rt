//! The URL of a path of the host.
ghost use Rattle.std.specs.Prelude.{◌≡◌, ◌<◌, ◌++◌, OnOk};
ghost use Rattle.std.specs.List.{flat_map};
ghost use Rattle.cmd_catalogue.specs.Urls.{is_url_byte, url_digit, url_byte, begins_host, url_front, url_of};

use std::alloc::AllocError;

/// Whether the path of a URL has a byte as it is.
#[tactic(auto, unfolding(crate::specs::Urls::is_url_byte, crate::specs::Urls::url_characters))]
fn is_url_byte(byte: u8) -> bool
    ensures { result ≡ is_url_byte byte }
{
    byte.is_ascii_alphanumeric() || matches!(byte, b'-' | b'.' | b'_' | b'~' | b'/')
}

/// Returns a hexadecimal digit, with capital letters.
fn url_digit(number: u8) -> u8
    requires { number < 16 }
    ensures { result ≡ url_digit number }
{
    if number < 10 {
        b'0' + number
    } else {
        b'A' - 10 + number
    }
}

/// Appends a byte as a URL has it.
#[tactic(auto, unfolding(crate::specs::Urls::url_byte))]
fn push_url_byte(url: &mut Vec<u8>, byte: u8) -> Result<(), AllocError>
    ensures { OnOk result (url.new.items ≡ url.old.items ++ url_byte byte) }
{
    if is_url_byte(byte) {
        return url.extend_from_slice(&[byte]);
    }
    url.extend_from_slice(&[b'%', url_digit(byte / 16), url_digit(byte % 16)])
}

/// Whether a path begins with `//`, which in a URL begins the name of another host.
fn begins_host(path: &[u8]) -> bool
    ensures { result ≡ begins_host path.now }
{
    path.starts_with(b"//")
}

/// Appends what is put before a path in its URL, so that it stays a path.
#[tactic(auto, unfolding(crate::specs::Urls::url_front))]
fn push_url_front(url: &mut Vec<u8>, path: &[u8]) -> Result<(), AllocError>
    ensures { OnOk result (url.new.items ≡ url.old.items ++ url_front path.now) }
{
    if begins_host(path) {
        url.extend_from_slice(b"/.")
    } else {
        Ok(())
    }
}

/// Appends the bytes of a path as a URL has them.
fn push_url_bytes(url: &mut Vec<u8>, path: &[u8]) -> Result<(), AllocError>
    ensures { OnOk result (url.new.items ≡ url.old.items ++ flat_map url_byte path.now) }
{
    for byte in path {
        push_url_byte(url, *byte)?;
    }
    Ok(())
}

/// Replaces a list's contents by the URL of a path. It has neither a host nor a scheme, so it leads
/// to the path, seen from the page.
#[tactic(auto, unfolding(crate::specs::Urls::url_of))]
pub(crate) fn put_url(url: &mut Vec<u8>, path: &[u8]) -> Result<(), AllocError>
    ensures { OnOk result (url.new.items ≡ url_of path.now) }
{
    url.clear();
    push_url_front(url, path)?;
    push_url_bytes(url, path)
}
