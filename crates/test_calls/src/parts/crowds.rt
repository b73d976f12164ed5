// One more map, place or word than a layout may have.
use crate::parts::running::ran;
use std::alloc::{AllocError, Global};
use std::test::Fail;

// So many rows, each with its number, from 0, for `#`.
type Rows = (u32, &'static str);

const REGS: Rows = (1024, "[[reg]]\nname = 'r#'\nbytes = 1\n");

const MAP: &str = "[[map]]\nname = 'm#'\nbytes = 1\n";

const MEM: Rows = (1, "[[mem]]\nname = 'm'\nbytes = 8\nsize = 65536\n");

// A place of each register in one of the first four maps, and one place of the memory in each map.
const IN_0: Rows = (1024, "[[place]]\nmap = 'm0'\nitem = 'r#'\noffset = #\n");

const IN_1: Rows = (1024, "[[place]]\nmap = 'm1'\nitem = 'r#'\noffset = #\n");

const IN_2: Rows = (1024, "[[place]]\nmap = 'm2'\nitem = 'r#'\noffset = #\n");

const IN_3: Rows = (1024, "[[place]]\nmap = 'm3'\nitem = 'r#'\noffset = #\n");

const ONE_MORE: Rows = (1, "[[place]]\nmap = 'm4'\nitem = 'r0'\n");

const OF_MEM: &str = "[[place]]\nmap = 'm#'\nitem = 'm'\n";

// The rows of a description, the last of which is one too many, and the log of its session.
static CROWDS: [(&[Rows], &str); 3] = [
    (&[(65, MAP)], "refused description map 65: too many\n"),
    (
        &[REGS, (5, MAP), IN_0, IN_1, IN_2, IN_3, ONE_MORE],
        "refused description place 4097: too many\n",
    ),
    // Two of the places have as many words as a layout may have.
    (
        &[MEM, (3, MAP), (3, OF_MEM)],
        "refused description place 3: too many\n",
    ),
];

// By a function, so that no proof reads it.
fn crowds() -> &'static [(&'static [Rows], &'static str)] {
    &CROWDS
}

fn push_rows(alloc: Global, text: &mut String, rows: &Rows) -> Result<(), AllocError> {
    let (count, row) = rows;
    for number in 0..*count {
        let number = format!(in alloc; "{number}")?;
        text.push_str(row.replace(alloc, '#', number.as_str())?.as_str())?;
    }
    Ok(())
}

fn session_of(alloc: Global, crowd: &[Rows]) -> Result<String, AllocError> {
    let mut session = String::new(alloc);
    for rows in crowd {
        push_rows(alloc, &mut session, rows)?;
    }
    session.push_str("---\n")?;
    Ok(session)
}

fn log_of(alloc: Global, crowd: &[Rows]) -> Result<Vec<u8>, Fail> {
    let session = session_of(alloc, crowd)?;
    let (_, log) = ran(alloc, &["run"], session.as_bytes(), 0, &[], &[])?;
    Ok(log)
}

#[test]
fn one_too_many_is_refused(rt: HostRuntime) -> Result<(), Fail> {
    for (crowd, want) in crowds() {
        let log = log_of(rt.alloc(), crowd)?;
        assert_eq!(rt; log.as_slice(), want.as_bytes());
    }
    Ok(())
}
