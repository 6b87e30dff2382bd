//! The text form of bytes.

use crate::shown::have_texts;
use petscii::{TextFault, from_text, to_text};
use std::alloc::{AllocError, Global};

/// The bytes in text form, sixteen in each row.
const TABLE: [&str; 16] = [
    "{$00}{$01}{$02}{$03}{$04}{wht}{$06}{$07}{$08}{$09}{$0a}{$0b}{$0c}{$0d}{swlc}{$0f}",
    "{$10}{down}{rvon}{home}{del}{$15}{$16}{$17}{$18}{$19}{$1a}{$1b}{red}{rght}{grn}{blu}",
    " !\"#$%&'()*+,-./",
    "0123456789:;<=>?",
    "@abcdefghijklmno",
    "pqrstuvwxyz[\\]^_",
    "{$60}{$61}{$62}{$63}{$64}{$65}{$66}{$67}{$68}{$69}{$6a}{$6b}{$6c}{$6d}{$6e}{$6f}",
    "{$70}{$71}{$72}{$73}{$74}{$75}{$76}{$77}{$78}{$79}{$7a}{$7b}{$7c}{$7d}{$7e}{$7f}",
    "{$80}{orng}{$82}{$83}{$84}{$85}{$86}{$87}{$88}{$89}{$8a}{$8b}{$8c}{$8d}{swuc}{$8f}",
    "{blk}{up}{rvof}{clr}{inst}{brn}{lred}{gry1}{gry2}{lgrn}{lblu}{gry3}{pur}{left}{yel}{cyn}",
    "{$a0}{$a1}{$a2}{$a3}{$a4}{$a5}{$a6}{$a7}{$a8}{$a9}{$aa}{$ab}{$ac}{$ad}{$ae}{$af}",
    "{$b0}{$b1}{$b2}{$b3}{$b4}{$b5}{$b6}{$b7}{$b8}{$b9}{$ba}{$bb}{$bc}{$bd}{$be}{$bf}",
    "{$c0}ABCDEFGHIJKLMNO",
    "PQRSTUVWXYZ{$db}{$dc}{$dd}{$de}{$df}",
    "{$e0}{$e1}{$e2}{$e3}{$e4}{$e5}{$e6}{$e7}{$e8}{$e9}{$ea}{$eb}{$ec}{$ed}{$ee}{$ef}",
    "{$f0}{$f1}{$f2}{$f3}{$f4}{$f5}{$f6}{$f7}{$f8}{$f9}{$fa}{$fb}{$fc}{$fd}{$fe}~",
];

/// Returns sixteen bytes, one after another.
fn sixteen_from(first: u8) -> [u8; 16] {
    let mut bytes = [first; 16];
    for (offset, byte) in bytes.iter_mut().enumerate() {
        *byte |= offset as u8;
    }
    bytes
}

/// Whether this is the text form of bytes.
fn is_spelled(alloc: Global, bytes: &[u8], text: &str) -> bool {
    match to_text(alloc, bytes) {
        Ok(spelled) => spelled.as_slice() == text.as_bytes(),
        Err(AllocError) => false,
    }
}

/// Whether a text reads as these bytes.
fn is_read(alloc: Global, text: &str, bytes: &[u8]) -> bool {
    match from_text(alloc, text.as_bytes()) {
        Ok(read) => read.as_slice() == bytes,
        Err(_) => false,
    }
}

/// Whether a text is the form of bytes, and reads as them.
fn is_text_form_of(alloc: Global, text: &str, bytes: &[u8]) -> bool {
    is_spelled(alloc, bytes, text) && is_read(alloc, text, bytes)
}

#[test]
fn spells_the_table(rt: HostRuntime) {
    let mut first: u8 = 0;
    for row in &TABLE {
        assert!(rt;
            is_text_form_of(rt.alloc(), row, &sixteen_from(first)),
            "{row}"
        );
        first = first.wrapping_add(16);
    }
}

/// The control codes that have names, in the order of the names below.
const CODES: &[u8] = &[
    0x05, 0x0e, 0x11, 0x12, 0x13, 0x14, 0x1c, 0x1d, 0x1e, 0x1f, 0x81, 0x8e, 0x90, 0x91, 0x92, 0x93,
    0x94, 0x95, 0x96, 0x97, 0x98, 0x99, 0x9a, 0x9b, 0x9c, 0x9d, 0x9e, 0x9f,
];

/// Texts that are not as bytes are spelled, and the bytes that they read as: the last have the names
/// of all these codes, in small letters, in capitals and in both.
const OTHERS: [(&str, &[u8]); 5] = [
    ("{CLR}a{$C1}{$07}", b"\x93A\xc1\x07"),
    ("{$41}{$Ff}{$fF}{$93}", b"A\xff\xff\x93"),
    (
        "{wht}{swlc}{down}{rvon}{home}{del}{red}{rght}{grn}{blu}{orng}{swuc}{blk}{up}{rvof}{clr}{inst}{brn}{lred}{gry1}{gry2}{lgrn}{lblu}{gry3}{pur}{left}{yel}{cyn}",
        CODES,
    ),
    (
        "{WHT}{SWLC}{DOWN}{RVON}{HOME}{DEL}{RED}{RGHT}{GRN}{BLU}{ORNG}{SWUC}{BLK}{UP}{RVOF}{CLR}{INST}{BRN}{LRED}{GRY1}{GRY2}{LGRN}{LBLU}{GRY3}{PUR}{LEFT}{YEL}{CYN}",
        CODES,
    ),
    (
        "{Wht}{sWlc}{doWn}{rvoN}{HOme}{dEL}{ReD}{rGHt}{Grn}{bLu}{oRNg}{SwUc}{blK}{Up}{rVof}{cLr}{inSt}{BRn}{lReD}{Gry1}{gRy2}{lgRn}{lblU}{GRy3}{pUr}{lEft}{YeL}{cYN}",
        CODES,
    ),
];

#[test]
fn spells_and_reads(rt: HostRuntime) {
    assert!(rt; is_text_form_of(rt.alloc(), "{clr}aA{$07}", b"\x93A\xc1\x07"));
    for (text, bytes) in &OTHERS {
        assert!(rt; is_read(rt.alloc(), text, bytes), "of {text}");
    }
}

/// Texts, and the fault of each.
const FAULTS: [(&str, TextFault); 24] = [
    ("{foo}", TextFault::UnknownName { place: 0 }),
    ("a{foo}b", TextFault::UnknownName { place: 1 }),
    ("a{clr}{foo}", TextFault::UnknownName { place: 6 }),
    ("{}", TextFault::UnknownName { place: 0 }),
    ("{$4}", TextFault::UnknownName { place: 0 }),
    ("{$041}", TextFault::UnknownName { place: 0 }),
    ("{$4g}", TextFault::UnknownName { place: 0 }),
    ("{clr }", TextFault::UnknownName { place: 0 }),
    ("{a", TextFault::OpenBrace { place: 0 }),
    ("a{clr", TextFault::OpenBrace { place: 1 }),
    ("ab{", TextFault::OpenBrace { place: 2 }),
    ("|", TextFault::BadByte { place: 0 }),
    ("|ab", TextFault::BadByte { place: 0 }),
    ("a|b", TextFault::BadByte { place: 1 }),
    ("{clr}a}", TextFault::BadByte { place: 6 }),
    ("a`", TextFault::BadByte { place: 1 }),
    ("a\tb", TextFault::BadByte { place: 1 }),
    ("a\n", TextFault::BadByte { place: 1 }),
    ("a\r\n", TextFault::BadByte { place: 1 }),
    ("\u{7f}", TextFault::BadByte { place: 0 }),
    ("a\u{e9}", TextFault::BadByte { place: 1 }),
    ("a{foo}|", TextFault::UnknownName { place: 1 }),
    ("a|{foo}", TextFault::BadByte { place: 1 }),
    ("|{", TextFault::BadByte { place: 0 }),
];

/// Whether this is the fault of a text.
fn is_refused(alloc: Global, text: &str, fault: &TextFault) -> bool {
    match from_text(alloc, text.as_bytes()) {
        Ok(_) => false,
        Err(found) => found == *fault,
    }
}

#[test]
fn reports_the_leftmost_fault(rt: HostRuntime) {
    for (text, fault) in &FAULTS {
        assert!(rt; is_refused(rt.alloc(), text, fault), "of {text:?}");
    }
}

/// Faults, and their texts.
const MESSAGES: [(TextFault, &str); 4] = [
    (
        TextFault::UnknownName { place: 3 },
        "at offset 3: unknown name in braces; write a control code, as {clr}, or a byte's value, as {$93}",
    ),
    (
        TextFault::OpenBrace { place: 0 },
        "at offset 0: the { is not closed by a }",
    ),
    (
        TextFault::BadByte { place: 12 },
        "at offset 12: no byte has this character; write the byte's value, as {$7c}",
    ),
    (TextFault::Memory(AllocError), "out of memory"),
];

#[test]
fn says_what_to_do(rt: HostRuntime) {
    have_texts(&rt, &MESSAGES);
}
