//! The command whose name is near one that is no command.
ghost use Rattle.std.specs.Prelude.{◌≡◌, find};
ghost use Rattle.std.specs.Str.{str_eq_ignore_ascii_case};
ghost use Rattle.script_advice.specs.Near.{are_exchanged, differ_once, has_name_near, has_name_of, is_near, near_command};
ghost use Rattle.script_lines.specs.LineCommand.{commands};

use script_lines::LineCommand;

/// The command whose name differs in capital letters alone, or else the first one whose name is
/// near.
pub(crate) fn near_command(name: &str) -> Option<LineCommand>
    ensures { result ≡ near_command name.now }
{
    match same_command(name) {
        Some(command) => Some(command),
        None => first_near(name),
    }
}

/// The command whose name differs in capital letters alone.
fn same_command(name: &str) -> Option<LineCommand>
    ensures { result ≡ find (has_name_of name.now) commands }
{
    for command in LineCommand::ALL {
        if has_name_of(name, command) {
            return Some(command);
        }
    }
    None
}

/// The first command whose name is near.
fn first_near(name: &str) -> Option<LineCommand>
    ensures { result ≡ find (has_name_near name.now) commands }
{
    for command in LineCommand::ALL {
        if has_name_near(name, command) {
            return Some(command);
        }
    }
    None
}

/// Whether a command has this name, in whatever letters.
fn has_name_of(name: &str, command: LineCommand) -> bool
    ensures { result ≡ has_name_of name.now command }
{
    is_same_name(name, command.name())
}

/// Whether two names are the same but for capitals and small letters.
pub(crate) fn is_same_name(name: &str, other: &str) -> bool
    ensures { result ≡ str_eq_ignore_ascii_case name.now other.now }
{
    are_same(name.as_bytes(), other.as_bytes())
}

/// Whether a command's name is near.
fn has_name_near(name: &str, command: LineCommand) -> bool
    ensures { result ≡ has_name_near name.now command }
{
    is_near(name.as_bytes(), command.name().as_bytes())
}

/// Whether two names are near: from their first difference on, they differ once.
fn is_near(name: &[u8], other: &[u8]) -> bool
    ensures { result ≡ is_near name.now other.now }
{
    let mut left = name;
    let mut right = other;
    while let [first, more @ ..] = left {
        let [second, rest @ ..] = right else {
            return left.len() <= 1;
        };
        if !first.eq_ignore_ascii_case(second) {
            return differ_once(left, right);
        }
        left = more;
        right = rest;
    }
    right.len() <= 1
}

/// Whether two texts with different first characters differ in one character, which one of them may
/// lack, or in two that are exchanged.
fn differ_once(left: &[u8], right: &[u8]) -> bool
    ensures { result ≡ differ_once left.now right.now }
{
    let ([_, more @ ..], [_, rest @ ..]) = (left, right) else {
        return false;
    };
    are_same(more, rest)
        || are_same(left, rest)
        || are_same(more, right)
        || are_exchanged(left, right)
}

/// Whether two texts differ in that their first two characters are exchanged.
fn are_exchanged(left: &[u8], right: &[u8]) -> bool
    ensures { result ≡ are_exchanged left.now right.now }
{
    match (left, right) {
        ([first, second, more @ ..], [other, another, rest @ ..]) => {
            first.eq_ignore_ascii_case(another)
                && second.eq_ignore_ascii_case(other)
                && are_same(more, rest)
        }
        _ => false,
    }
}

/// Whether two texts are the same but for capitals and small letters.
fn are_same(left: &[u8], right: &[u8]) -> bool
    ensures { result ≡ str_eq_ignore_ascii_case left.now right.now }
{
    left.eq_ignore_ascii_case(right)
}
