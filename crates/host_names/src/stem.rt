//! The stem of a host name: the name on the disk in text form, by the rules of hosts.
ghost use Rattle.std.specs.Prelude.{◌≡◌, OnOk, OnErr, if◌then◌else◌, slice_index, slice_set, ◌-◌, ◌==◌, length, position};
ghost use Rattle.std.specs.List.{list_any};
ghost use Rattle.host_names.specs.HostName.{is_forbidden, allowed_name, unhidden_name, closed_name, filled_name, is_loose, is_same_name, before_dot, without_last_spaces, device_name, full_stop, ports, is_port, is_reserved, unreserved_name, stem};

use std::alloc::AllocError;

/// Whether some host accepts this byte in no name.
#[tactic(auto, unfolding(crate::specs::HostName::is_forbidden, crate::specs::HostName::forbidden_characters))]
fn is_forbidden(byte: u8) -> bool
    ensures { result ≡ is_forbidden byte }
{
    matches!(
        byte,
        b'/' | b'\\' | b'<' | b'>' | b':' | b'"' | b'|' | b'?' | b'*'
    )
}

/// Replaces the name by a text in which each forbidden byte becomes a `_`.
#[tactic(auto, unfolding(crate::specs::HostName::allowed_name))]
fn put_allowed(name: &mut Vec<u8>, text: &[u8]) -> Result<(), AllocError>
    ensures { OnOk result (name.new.items ≡ allowed_name text.now) }
{
    name.clear();
    for byte in text {
        name.push(if is_forbidden(*byte) { b'_' } else { *byte })?;
    }
    Ok(())
}

/// Replaces a `.` at the beginning by a `_`.
fn show(name: &mut [u8])
    ensures { name.new ≡ unhidden_name name.old }
{
    if let Some(first) = name.first_mut() {
        if *first == b'.' {
            *first = b'_';
        }
    }
}

/// Replaces a `.` or space at the end by a `_`.
fn close(name: &mut [u8])
    ensures { name.new ≡ closed_name name.old }
{
    if let Some(last) = name.last_mut() {
        if matches!(*last, b'.' | b' ') {
            *last = b'_';
        }
    }
}

/// Whether a name is that of a port: `com1` to `com9`, `lpt1` to `lpt9`.
fn is_port(name: &[u8]) -> bool
    ensures { result ≡ is_port name.now }
{
    name.len() == 4 && matches!(name[3], b'1'..=b'9') && is_port_word(&name[..3])
}

/// Whether ports have this prefix before their numbers.
fn is_port_word(word: &[u8]) -> bool
    ensures { result ≡ list_any (is_same_name word.now) ports }
{
    word.eq_ignore_ascii_case(b"com") || word.eq_ignore_ascii_case(b"lpt")
}

/// Whether a name is that of a device or a port, in any case.
#[tactic(auto, unfolding(crate::specs::HostName::is_reserved))]
fn is_reserved(name: &[u8]) -> bool
    ensures { result ≡ is_reserved name.now }
{
    name.eq_ignore_ascii_case(b"con")
        || name.eq_ignore_ascii_case(b"prn")
        || name.eq_ignore_ascii_case(b"aux")
        || name.eq_ignore_ascii_case(b"nul")
        || name.eq_ignore_ascii_case(b"conin$")
        || name.eq_ignore_ascii_case(b"conout$")
        || name.eq_ignore_ascii_case(b"clock$")
        || is_port(name)
}

/// The part of a name before the first `.`, or all of it.
fn before_dot(name: &[u8]) -> &[u8]
    ensures { result.now ≡ before_dot name.now }
{
    match first_dot(name) {
        Some(place) => &name[..place],
        None => name,
    }
}

/// The place of the first `.`.
fn first_dot(name: &[u8]) -> Option<usize>
    ensures { result ≡ position (λ byte. byte == full_stop) name.now }
{
    name.iter().position(|byte| *byte == b'.')
}

/// A name without the spaces at its end.
fn without_last_spaces(name: &[u8]) -> &[u8]
    ensures { result.now ≡ without_last_spaces name.now }
{
    let mut left = name;
    while let Some((last, front)) = left.split_last() {
        if *last != b' ' {
            return left;
        }
        left = front;
    }
    left
}

/// The part of a name that some host compares with the names of devices, as `aux` in `aux .txt`.
fn device_name(name: &[u8]) -> &[u8]
    ensures { result.now ≡ device_name name.now }
{
    without_last_spaces(before_dot(name))
}

/// Replaces the name by the beginning of the host name of a file with this name in text form.
#[tactic(auto, unfolding(crate::specs::HostName::stem))]
pub(crate) fn put_stem(name: &mut Vec<u8>, text: &[u8]) -> Result<(), AllocError>
    ensures { OnOk result (name.new.items ≡ stem text.now) }
{
    put_allowed(name, text)?;
    show(name);
    close(name);
    if name.is_empty() {
        name.push(b'_')?;
    }
    if is_reserved(device_name(name)) {
        name.insert(0, b'_')?;
    }
    Ok(())
}
