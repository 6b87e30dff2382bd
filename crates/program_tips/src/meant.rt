//! `Meant`: what was probably meant by arguments that are refused.
ghost use Rattle.std.specs.Prelude.{◌≡◌, map, option_map};
ghost use Rattle.std.specs.List.{list_any};
ghost use Rattle.program_tips.specs.Meant.{begin_with_line, image_first, is_option, is_path_like, line_after_image, may_be_image, meant_parts};

/// What was probably meant: the shell, on an image, with a line to run.
#[derive(Clone, Copy)]
pub struct Meant<'a> {
    /// The image, as it is given.
    pub image: &'a str,
    /// The arguments after the image, of which the line consists.
    pub rest: &'a [&'a str],
}

impl<'a> Meant<'a> {
    /// Returns what is meant if an image is in the place of the subcommand. The first of the
    /// arguments is the program's name.
    pub fn image_first(arguments: &'a [&'a str]) -> Option<Meant<'a>>
        ensures { option_map meant_parts result ≡ image_first (map (λ argument. argument.now) arguments.now) }
    {
        match arguments {
            [_, image, rest @ ..] if is_path_like(image) => Some(Meant { image, rest }),
            _ => None,
        }
    }

    /// Returns what is meant if a line follows the image of `shell`, without an option before it. The
    /// first two of the arguments are the names of the program and of the subcommand. If an argument
    /// looks like a path, but the first does not, the first is probably no image.
    pub fn line_after_image(arguments: &'a [&'a str]) -> Option<Meant<'a>>
        ensures { option_map meant_parts result ≡ line_after_image (map (λ argument. argument.now) arguments.now) }
    {
        match arguments {
            [_, _, image, rest @ ..] if may_be_image(image, rest) && begin_with_line(rest) => {
                Some(Meant { image, rest })
            }
            _ => None,
        }
    }
}

/// Whether an argument looks like the path of a file.
fn is_path_like(argument: &str) -> bool
    ensures { result ≡ is_path_like argument.now }
{
    argument.bytes().any(|byte| byte == b'.' || byte == b'/')
}

/// Whether an argument is an option.
pub(crate) fn is_option(argument: &str) -> bool
    ensures { result ≡ is_option argument.now }
{
    match argument.as_bytes() {
        [first, ..] => *first == b'-',
        [] => false,
    }
}

/// Whether an argument may be an image that is followed by these arguments: it is no option, and it
/// looks like a path or none of them does.
fn may_be_image(argument: &str, rest: &[&str]) -> bool
    ensures { result ≡ may_be_image argument.now (map (λ argument. argument.now) rest.now) }
{
    !is_option(argument) && (is_path_like(argument) || !has_path_like(rest))
}

/// Whether one of these arguments looks like a path.
fn has_path_like(arguments: &[&str]) -> bool
    ensures { result ≡ list_any (λ argument. is_path_like argument.now) arguments.now }
{
    arguments.iter().any(|argument| is_path_like(argument))
}

/// Whether the first of these arguments is there, and may be a command: it is no option and no path.
fn begin_with_line(arguments: &[&str]) -> bool
    ensures { result ≡ begin_with_line (map (λ argument. argument.now) arguments.now) }
{
    match arguments {
        [first, ..] => !is_option(first) && !is_path_like(first),
        [] => false,
    }
}
