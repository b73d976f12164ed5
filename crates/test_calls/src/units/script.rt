// The canonical spelling of lines.
use rl_script::{Line, LineFault, read_line, spelling_is_short, write_line};
use std::alloc::Global;
use std::test::Fail;

// Texts of lines, each with its canonical spelling.
static SPELLINGS: [(&str, &str); 12] = [
    ("", ""),
    (" \t# read a", ""),
    ("  write a 5 # x", "write a 0x5"),
    (
        " write\tuart.ctrl  010 @apb0 #x",
        "write uart.ctrl 0xa @apb0",
    ),
    ("other-write a 0X00fF", "other-write a 0xff"),
    ("field-read\ta.b", "field-read a.b"),
    (
        "mirror  a.b.c.d.e.f.g.h.i @m",
        "mirror a.b.c.d.e.f.g.h.i @m",
    ),
    (
        "mem-poke m 0 18446744073709551615",
        "mem-poke m 0x0 0xffffffffffffffff",
    ),
    ("burst-read m 7 256", "burst-read m 0x7 0x100"),
    ("reset HARD ", "reset HARD"),
    ("seq bit-bash * #", "seq bit-bash *"),
    ("seq  mem-walk _b", "seq mem-walk _b"),
];

// By a function, so that no proof reads it.
fn spellings() -> &'static [(&'static str, &'static str)] {
    &SPELLINGS
}

// It has no clauses, so that the proofs above it know nothing of the line.
fn read(alloc: Global, text: &str) -> Result<Line, LineFault> {
    read_line(alloc, text.as_bytes())
}

// What the text says.
fn said(alloc: Global, text: &str) -> Result<String, Fail> {
    match read(alloc, text) {
        Ok(line) => Ok(format!(in alloc; "{line:?}")?),
        Err(_) => Err("no line".into()),
    }
}

// The line of a text, in its canonical spelling. That of a burst that writes may be too long.
fn written(alloc: Global, text: &str) -> Result<Vec<u8>, Fail> {
    spelling_is_short();
    match read_line(alloc, text.as_bytes()) {
        Ok(Line::BurstWrite { .. }) => Err("a burst".into()),
        Ok(line) => Ok(write_line(alloc, &line)?),
        Err(_) => Err("no line".into()),
    }
}

#[test]
fn writes_what_it_read(rt: HostRuntime) -> Result<(), Fail> {
    for (text, spelling) in spellings() {
        let got = written(rt.alloc(), text)?;
        assert_eq!(rt; got.as_slice(), spelling.as_bytes());
        let again = said(rt.alloc(), spelling)?;
        assert_eq!(rt; again, said(rt.alloc(), text)?);
    }
    Ok(())
}
