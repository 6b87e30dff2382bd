//! Names and patterns.

use d64_files::{BadName, Name, Pattern, matches};

/// Whether these bytes are taken as a name.
fn is_name(bytes: &[u8]) -> bool {
    match Name::new(bytes) {
        Ok(name) => name.bytes() == bytes,
        Err(_) => false,
    }
}

/// Why these bytes are no name, if they are none.
fn fault_of_name(bytes: &[u8]) -> Option<BadName> {
    match Name::new(bytes) {
        Ok(_) => None,
        Err(fault) => Some(fault),
    }
}

#[test]
fn takes_1_to_16_bytes(rt: HostRuntime) {
    assert!(rt; is_name(b"A") && is_name(b"SIXTEEN LETTERS!"));
    assert!(rt; fault_of_name(b"") == Some(BadName::Empty));
    assert!(rt; fault_of_name(b"SEVENTEEN LETTERS") == Some(BadName::TooLong));
}

#[test]
fn refuses_each_forbidden_byte(rt: HostRuntime) {
    for byte in [42, 63, 61, 58, 44, 34, 13, 160] {
        assert!(rt;
            fault_of_name(&[65, byte, 66]) == Some(BadName::Forbidden),
            "{byte}"
        );
    }
    assert!(rt; is_name(&[32, 0, 255, 47]));
}

/// Patterns, names, and whether each pattern matches the name.
const MATCHES: [(&[u8], &[u8], bool); 7] = [
    (b"a*", b"ab", true),
    (b"a*", b"a", true),
    (b"?", b"", false),
    (b"a?", b"a", false),
    (b"a*z", b"abc", true),
    (b"ab", b"abc", false),
    (b"?b", b"ab", true),
];

/// Whether these bytes are a pattern, which matches a name or not as is expected.
fn is_matched(bytes: &[u8], name: &[u8], expected: bool) -> bool {
    match Pattern::new(bytes) {
        Ok(pattern) => pattern.bytes() == bytes && matches(&pattern, name) == expected,
        Err(_) => false,
    }
}

#[test]
fn matches_by_wildcards(rt: HostRuntime) {
    for row in &MATCHES {
        assert!(rt; is_matched(row.0, row.1, row.2), "{row:?}");
    }
}

#[test]
fn refuses_what_no_pattern_holds(rt: HostRuntime) {
    for byte in [61, 58, 44, 34, 13, 160] {
        assert!(rt;
            matches!(Pattern::new(&[65, byte]), Err(BadName::Forbidden)),
            "{byte}"
        );
    }
}
