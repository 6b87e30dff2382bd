//! The keywords of BASIC V2 and their tokens (Commodore 64 Programmer's Reference Guide, chapter
//! 1).

ghost use Rattle.std.specs.Prelude.{◌≡◌, ◌+◌, ◌≤◌, ◌<◌, MatchOption};
ghost use Rattle.std.specs.Option.{option_copied};
ghost use Rattle.cbm_text.specs.Keywords.{keyword, keywords, token_from, tokens_with};

/// The keyword of a token.
#[tactic(auto, unfolding(crate::specs::Keywords::keyword, crate::specs::Keywords::keywords))]
pub(crate) fn keyword_of(token: u8) -> Option<&'static [u8]>
    ensures { option_copied result ≡ keyword token }
{
    let word: &[u8] = match token {
        0x00..=0x7f => return None,
        0x80 => b"END",
        0x81 => b"FOR",
        0x82 => b"NEXT",
        0x83 => b"DATA",
        0x84 => b"INPUT#",
        0x85 => b"INPUT",
        0x86 => b"DIM",
        0x87 => b"READ",
        0x88 => b"LET",
        0x89 => b"GOTO",
        0x8a => b"RUN",
        0x8b => b"IF",
        0x8c => b"RESTORE",
        0x8d => b"GOSUB",
        0x8e => b"RETURN",
        0x8f => b"REM",
        0x90 => b"STOP",
        0x91 => b"ON",
        0x92 => b"WAIT",
        0x93 => b"LOAD",
        0x94 => b"SAVE",
        0x95 => b"VERIFY",
        0x96 => b"DEF",
        0x97 => b"POKE",
        0x98 => b"PRINT#",
        0x99 => b"PRINT",
        0x9a => b"CONT",
        0x9b => b"LIST",
        0x9c => b"CLR",
        0x9d => b"CMD",
        0x9e => b"SYS",
        0x9f => b"OPEN",
        0xa0 => b"CLOSE",
        0xa1 => b"GET",
        0xa2 => b"NEW",
        0xa3 => b"TAB(",
        0xa4 => b"TO",
        0xa5 => b"FN",
        0xa6 => b"SPC(",
        0xa7 => b"THEN",
        0xa8 => b"NOT",
        0xa9 => b"STEP",
        0xaa => b"+",
        0xab => b"-",
        0xac => b"*",
        0xad => b"/",
        0xae => b"^",
        0xaf => b"AND",
        0xb0 => b"OR",
        0xb1 => b">",
        0xb2 => b"=",
        0xb3 => b"<",
        0xb4 => b"SGN",
        0xb5 => b"INT",
        0xb6 => b"ABS",
        0xb7 => b"USR",
        0xb8 => b"FRE",
        0xb9 => b"POS",
        0xba => b"SQR",
        0xbb => b"RND",
        0xbc => b"LOG",
        0xbd => b"EXP",
        0xbe => b"COS",
        0xbf => b"SIN",
        0xc0 => b"TAN",
        0xc1 => b"ATN",
        0xc2 => b"PEEK",
        0xc3 => b"LEN",
        0xc4 => b"STR$",
        0xc5 => b"VAL",
        0xc6 => b"ASC",
        0xc7 => b"CHR$",
        0xc8 => b"LEFT$",
        0xc9 => b"RIGHT$",
        0xca => b"MID$",
        0xcb => b"GO",
        0xcc..=0xff => return None,
    };
    Some(word)
}

/// The tokens of the keywords that begin with a byte, in their order.
#[tactic(auto, unfolding(crate::specs::Keywords::keywords))]
fn tokens_of(first: u8) -> &'static [u8]
    ensures { result.now ≡ tokens_with first 128 keywords }
{
    match first {
        b'*' => &[0xac],
        b'+' => &[0xaa],
        b'-' => &[0xab],
        b'/' => &[0xad],
        b'<' => &[0xb3],
        b'=' => &[0xb2],
        b'>' => &[0xb1],
        b'A' => &[0xaf, 0xb6, 0xc1, 0xc6],
        b'C' => &[0x9a, 0x9c, 0x9d, 0xa0, 0xbe, 0xc7],
        b'D' => &[0x83, 0x86, 0x96],
        b'E' => &[0x80, 0xbd],
        b'F' => &[0x81, 0xa5, 0xb8],
        b'G' => &[0x89, 0x8d, 0xa1, 0xcb],
        b'I' => &[0x84, 0x85, 0x8b, 0xb5],
        b'L' => &[0x88, 0x93, 0x9b, 0xbc, 0xc3, 0xc8],
        b'M' => &[0xca],
        b'N' => &[0x82, 0xa2, 0xa8],
        b'O' => &[0x91, 0x9f, 0xb0],
        b'P' => &[0x97, 0x98, 0x99, 0xb9, 0xc2],
        b'R' => &[0x87, 0x8a, 0x8c, 0x8e, 0x8f, 0xbb, 0xc9],
        b'S' => &[0x90, 0x94, 0x9e, 0xa6, 0xa9, 0xb4, 0xba, 0xbf, 0xc4],
        b'T' => &[0xa3, 0xa4, 0xa7, 0xc0],
        b'U' => &[0xb7],
        b'V' => &[0x95, 0xc5],
        b'W' => &[0x92],
        b'^' => &[0xae],
        _ => &[],
    }
}

/// The first keyword in the table's order that a text begins with: its token, and what follows.
pub(crate) fn first_token(text: &[u8]) -> Option<(u8, &[u8])>
    ensures { MatchOption result (token_from 128 keywords text.now ≡ None)
        (λ found. token_from 128 keywords text.now ≡ Some (found.0, found.1.now)) }
{
    let [first, ..] = text else {
        return None;
    };
    for token in tokens_of(*first) {
        if let Some(word) = keyword_of(*token)
            && text.starts_with(word)
        {
            return Some((*token, &text[word.len()..]));
        }
    }
    None
}
