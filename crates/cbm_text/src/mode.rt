//! How the bytes at a place of a line are read.

ghost use Rattle.std.specs.Prelude.{◌≡◌};
ghost use Rattle.cbm_text.specs.Modes.{next_mode};

/// The token of `data`.
const DATA: u8 = 0x83;

/// The token of `rem`.
const REM: u8 = 0x8f;

/// How a place of a line is read, by what comes before it.
#[derive(Clone, Copy, PartialEq, Eq)]
pub(crate) enum Mode {
    /// Keywords are tokens here.
    Free,
    /// Behind a quote, up to and with the next one.
    Quoted,
    /// Behind `rem`, up to the line's end.
    Remark,
    /// Behind `data`, up to and with a colon outside quotes.
    Data,
    /// Behind a quote in `data`.
    QuotedData,
}

impl Mode {
    /// How the place behind a crunched byte is read.
    pub(crate) fn after(self, code: u8) -> Mode
        ensures { result ≡ next_mode self code }
    {
        match (self, code) {
            (Mode::Free, b'"') => Mode::Quoted,
            (Mode::Free, REM) => Mode::Remark,
            (Mode::Free, DATA) => Mode::Data,
            (Mode::Quoted, b'"') => Mode::Free,
            (Mode::Data, b'"') => Mode::QuotedData,
            (Mode::Data, b':') => Mode::Free,
            (Mode::QuotedData, b'"') => Mode::Data,
            (mode, _) => mode,
        }
    }
}
