//! The names of files of images on a host.

use host_names::Ending::{self, Del, Prg, Rel, Seq, Usr};
use host_names::TakenNames;
use std::alloc::Global;
use std::process::Abort;

/// A name in text form, its ending, whether only a part of the file could be read, and its name on
/// the host.
type Row = (&'static str, Ending, bool, &'static str);

/// One name for each rule, alone on its host.
const ALONE: [Row; 35] = [
    ("hello world", Prg, false, "hello world.prg"),
    (
        "a/b\\c<d>e:f\"g|h?i*j",
        Prg,
        false,
        "a_b_c_d_e_f_g_h_i_j.prg",
    ),
    ("{$00}~^[]", Seq, false, "{$00}~^[].seq"),
    (".a.b", Usr, false, "_a.b.usr"),
    ("a.", Prg, false, "a_.prg"),
    ("a..", Prg, false, "a._.prg"),
    ("a ", Prg, false, "a_.prg"),
    (" a", Prg, false, " a.prg"),
    (".", Prg, false, "_.prg"),
    ("..", Rel, false, "__.rel"),
    ("...", Rel, false, "_._.rel"),
    ("                ", Prg, false, "               _.prg"),
    ("", Del, true, "_.del.part"),
    ("CON", Prg, false, "_CON.prg"),
    ("con.txt", Seq, false, "_con.txt.seq"),
    ("pRn.a.b", Seq, true, "_pRn.a.b.seq.part"),
    ("aux", Prg, false, "_aux.prg"),
    ("con .txt", Seq, false, "_con .txt.seq"),
    ("com1  .", Prg, false, "com1  _.prg"),
    ("conin$", Prg, false, "_conin$.prg"),
    ("conout$.a", Prg, false, "_conout$.a.prg"),
    ("clock$", Prg, false, "_clock$.prg"),
    ("aux a.b", Prg, false, "aux a.b.prg"),
    ("NUL", Prg, false, "_NUL.prg"),
    ("com1", Prg, false, "_com1.prg"),
    ("Com9.x", Prg, false, "_Com9.x.prg"),
    ("lpt1", Prg, false, "_lpt1.prg"),
    ("LPT9", Prg, false, "_LPT9.prg"),
    ("com0", Prg, false, "com0.prg"),
    ("lpt", Prg, false, "lpt.prg"),
    ("com10", Prg, false, "com10.prg"),
    ("con ", Prg, false, "con_.prg"),
    ("con.", Prg, false, "con_.prg"),
    (".con", Prg, false, "_con.prg"),
    ("a.con", Prg, false, "a.con.prg"),
];

/// The names of files on one host, one after another.
const TOGETHER: [Row; 16] = [
    ("Hello", Prg, false, "Hello.prg"),
    ("hELLO", Prg, false, "hELLO (2).prg"),
    ("hello", Seq, false, "hello.seq"),
    ("hello", Prg, true, "hello.prg.part"),
    ("HELLO", Prg, true, "HELLO (2).prg.part"),
    ("hello", Prg, false, "hello (3).prg"),
    ("a (2)", Prg, false, "a (2).prg"),
    ("a", Prg, false, "a.prg"),
    ("A", Prg, false, "A (3).prg"),
    ("a (2)", Prg, false, "a (2) (2).prg"),
    ("a (3)", Prg, false, "a (3) (2).prg"),
    ("?", Prg, false, "_.prg"),
    ("*", Prg, false, "_ (2).prg"),
    ("", Prg, false, "_ (3).prg"),
    ("x.prg", Prg, true, "x.prg.prg.part"),
    ("x.prg.part", Prg, false, "x.prg.part.prg"),
];

/// Takes a name, and returns whether it is on the host what is expected.
fn is_taken(alloc: Global, taken: &mut TakenNames, row: &Row) -> bool {
    let mut name = Vec::new(alloc);
    taken
        .take(row.0.as_bytes(), row.1, row.2, &mut name)
        .is_ok()
        && name.as_slice() == row.3.as_bytes()
}

#[test]
fn names_follow_the_rules(rt: HostRuntime) {
    for row in &ALONE {
        assert!(rt;
            is_taken(rt.alloc(), &mut TakenNames::new(rt.alloc()), row),
            "at {}",
            row.0
        );
    }
}

/// Checks names that are taken one after another.
fn are_taken(rt: &(impl Abort + AllocGlobal), taken: &mut TakenNames, rows: &[Row]) {
    for row in rows {
        assert!(rt; is_taken(rt.alloc(), taken, row), "at {}", row.0);
    }
}

#[test]
fn no_name_is_given_twice(rt: HostRuntime) {
    are_taken(&rt, &mut TakenNames::new(rt.alloc()), &TOGETHER);
}
