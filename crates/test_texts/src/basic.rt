//! Programs as the machine keeps them, and their texts.

use crate::shown::have_texts;
use cbm_text::{BasicFault, Cause, FaultyLine, ListFault, crunch, faulty_lines, list};
use petscii::TextFault;
use std::alloc::{AllocError, Global};

/// The keywords in the order of their tokens, in text form.
const KEYWORDS: &str =
    "end for next data input# input dim read let goto run if restore gosub return rem stop on wait load save verify def poke print# print cont list clr cmd sys open close get new tab( to fn spc( then not step + - * / ^ and or > = < sgn int abs usr fre pos sqr rnd log exp cos sin tan atn peek len str$ val asc chr$ left$ right$ mid$ go";

/// Whether a text crunches to these bytes of a program loaded at $0801.
fn crunches_to(alloc: Global, text: &str, file: &[u8]) -> bool {
    match crunch(alloc, 0x0801, text.as_bytes()) {
        Ok(crunched) => crunched.as_slice() == file,
        Err(_) => false,
    }
}

/// Whether a program has this text.
fn lists_as(alloc: Global, file: &[u8], text: &[u8]) -> bool {
    match list(alloc, file) {
        Ok(listed) => listed.as_slice() == text,
        Err(_) => false,
    }
}

/// Whether these are the first line and the third of the text below, and what is wrong with them.
fn are_faulty(lines: &[FaultyLine<'_>]) -> bool {
    let [first, second] = lines else {
        return false;
    };
    first.fault == BasicFault::TokenByte { line: 1 }
        && first.cause == Cause::Capital
        && first.text == b"10 PRINT".as_slice()
        && second.fault == BasicFault::NoNumber { line: 3 }
        && second.cause == Cause::NoNumber
}

/// Whether a text with three faulty lines, of which two are asked for, has these.
fn finds_them(alloc: Global) -> bool {
    match faulty_lines(alloc, 0x0801, b"10 PRINT\n20 end\nend\n\n30 end\t\n", 2) {
        Ok(found) => found.count == 3 && are_faulty(found.lines.as_slice()),
        Err(AllocError) => false,
    }
}

#[test]
fn finds_faulty_lines(rt: HostRuntime) {
    assert!(rt; finds_them(rt.alloc()));
}

/// Texts, the programs that they crunch to, and the texts of these.
const PROGRAMS: [(&str, &[u8], &str); 11] = [
    (
        "1 forest toto ifa",
        b"\x01\x08\x10\x08\x01\x00\x81EST \xa4\xa4 \x8bA\x00\x00\x00",
        "1 forest toto ifa\n",
    ),
    (
        "10 print\"hello\"",
        b"\x01\x08\x0e\x08\x0a\x00\x99\"HELLO\"\x00\x00\x00",
        "10 print\"hello\"\n",
    ),
    (
        "10 data for:for\n",
        b"\x01\x08\x0d\x08\x0a\x00\x83 FOR:\x81\x00\x00\x00",
        "10 data for:for\n",
    ),
    (
        "30 ?#1",
        b"\x01\x08\x09\x08\x1e\x00\x99#1\x00\x00\x00",
        "30 print#1\n",
    ),
    ("", b"\x01\x08\x00\x00", ""),
    (
        "; x\n5 a\n",
        b"\x01\x08\x07\x08\x05\x00A\x00\x00\x00",
        "5 a\n",
    ),
    (
        "10 goto10",
        b"\x01\x08\x09\x08\x0a\x00\x8910\x00\x00\x00",
        "10 goto10\n",
    ),
    (
        "10 print#1",
        b"\x01\x08\x08\x08\x0a\x00\x981\x00\x00\x00",
        "10 print#1\n",
    ),
    (
        "10 go to",
        b"\x01\x08\x09\x08\x0a\x00\xcb \xa4\x00\x00\x00",
        "10 go to\n",
    ),
    (
        "  0\r\n\r\n   \n 65535  a",
        b"\x01\x08\x06\x08\x00\x00\x00\x0d\x08\xff\xff A\x00\x00\x00",
        "0 \n65535  a\n",
    ),
    (
        "1 data\":for\":for\n2 rem\":for\n3 for\":for",
        b"\x01\x08\x0f\x08\x01\x00\x83\":FOR\":\x81\x00\x1a\x08\x02\x00\x8f\":FOR\x00\x25\x08\x03\x00\x81\":FOR\x00\x00\x00",
        "1 data\":for\":for\n2 rem\":for\n3 for\":for\n",
    ),
];

#[test]
fn crunches_as_the_machine_does(rt: HostRuntime) {
    for (text, file, listing) in &PROGRAMS {
        assert!(rt;
            crunches_to(rt.alloc(), text, file) && lists_as(rt.alloc(), file, listing.as_bytes()),
            "of {text:?}"
        );
    }
}

/// Texts, and the first fault of each.
const FAULTS: [(&str, BasicFault); 9] = [
    ("a", BasicFault::NoNumber { line: 1 }),
    ("\n; x\n a\nb", BasicFault::NoNumber { line: 3 }),
    ("65536 a", BasicFault::NumberTooLarge { line: 1 }),
    ("65536 {foo}{$00}", BasicFault::NumberTooLarge { line: 1 }),
    (
        "1 a\n10 a{foo}{clr}",
        BasicFault::Text {
            line: 2,
            fault: TextFault::UnknownName { place: 1 },
        },
    ),
    ("20 {clr}", BasicFault::TokenByte { line: 1 }),
    ("20 {$00}{clr}", BasicFault::TokenByte { line: 1 }),
    ("10 {$00}", BasicFault::ZeroByte { line: 1 }),
    ("1 rem{$00}\na", BasicFault::ZeroByte { line: 1 }),
];

/// Whether this is the first fault of a text.
fn is_refused(alloc: Global, text: &str, fault: &BasicFault) -> bool {
    match crunch(alloc, 0x0801, text.as_bytes()) {
        Ok(_) => false,
        Err(found) => found == *fault,
    }
}

#[test]
fn reports_the_first_fault(rt: HostRuntime) {
    for (text, fault) in &FAULTS {
        assert!(rt; is_refused(rt.alloc(), text, fault), "of {text:?}");
    }
}

/// Programs, and their texts.
const LISTINGS: [(&[u8], &[u8]); 2] = [
    (b"\x01\x08\xff\xff\x0a\x00A\x00\x00\x00w", b"10 a\n"),
    (
        b"\x01\x08\x01\x00\x0a\x00\xcc\x80\"\x80\x00\x00\x00",
        b"10 Lend\"{$80}\n",
    ),
];

#[test]
fn lists_what_reads_as_a_program(rt: HostRuntime) {
    for (file, text) in &LISTINGS {
        assert!(rt; lists_as(rt.alloc(), file, text), "{file:?}");
    }
}

/// Files that are no programs, and why.
const NO_PROGRAMS: [(&[u8], ListFault); 6] = [
    (b"", ListFault::NoAddress),
    (b"\x01", ListFault::NoAddress),
    (b"\x01\x08", ListFault::Truncated),
    (b"\x01\x08\x00", ListFault::Truncated),
    (b"\x01\x08\x0e\x08\x0a", ListFault::Truncated),
    (b"\x01\x08\x0e\x08\x0a\x00A", ListFault::Truncated),
];

/// Whether a file is no program, for this reason.
fn is_no_program(alloc: Global, file: &[u8], fault: &ListFault) -> bool {
    match list(alloc, file) {
        Ok(_) => false,
        Err(found) => found == *fault,
    }
}

#[test]
fn lists_no_other_file(rt: HostRuntime) {
    for (file, fault) in &NO_PROGRAMS {
        assert!(rt; is_no_program(rt.alloc(), file, fault), "{file:?}");
    }
}

/// Whether a line with a keyword alone crunches to this token, and lists as the keyword.
fn is_keyword(alloc: Global, keyword: &str, token: u8) -> bool {
    let file = [1, 8, 7, 8, 7, 0, token, 0, 0, 0];
    match format!(in alloc; "7 {keyword}\n") {
        Ok(text) => {
            crunches_to(alloc, text.as_str(), &file) && lists_as(alloc, &file, text.as_bytes())
        }
        Err(AllocError) => false,
    }
}

#[test]
fn knows_each_keyword_alone(rt: HostRuntime) {
    let mut token: u8 = 0x80;
    for keyword in KEYWORDS.split(' ') {
        assert!(rt; is_keyword(rt.alloc(), keyword, token), "of {keyword}");
        token = token.wrapping_add(1);
    }
    assert!(rt; token == 0xcc);
}

/// Faults of line 7, and their texts.
const MESSAGES: [(BasicFault, &str); 7] = [
    (
        BasicFault::NoNumber { line: 7 },
        "line 7: a line has to begin with its number",
    ),
    (
        BasicFault::NumberTooLarge { line: 7 },
        "line 7: a line's number is at most 65535",
    ),
    (
        BasicFault::Text {
            line: 7,
            fault: TextFault::OpenBrace { place: 3 },
        },
        "line 7: behind the number at offset 3: the { is not closed by a }",
    ),
    (
        BasicFault::TokenByte { line: 7 },
        "line 7: outside quotes a byte of $80 or more would be read as a keyword",
    ),
    (
        BasicFault::ZeroByte { line: 7 },
        "line 7: a line cannot hold a byte $00",
    ),
    (
        BasicFault::TooLong { line: 7 },
        "line 7: the line is too long, or the program ends above address 65535",
    ),
    (BasicFault::Memory(AllocError), "out of memory"),
];

/// Faults of listing, and their texts.
const LISTING_MESSAGES: [(ListFault, &str); 3] = [
    (
        ListFault::NoAddress,
        "a program begins with a load address of two bytes",
    ),
    (ListFault::Truncated, "the program is cut short"),
    (ListFault::Memory(AllocError), "out of memory"),
];

#[test]
fn faults_say_what_is_wrong(rt: HostRuntime) {
    have_texts(&rt, &MESSAGES);
    have_texts(&rt, &LISTING_MESSAGES);
}
