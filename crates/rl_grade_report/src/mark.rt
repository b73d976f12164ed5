// The mark of a session.
ghost use Rattle.std.specs.Prelude.{◌≡◌};
ghost use Rattle.rl_grade_report.specs.Mark.{mark_from, mark_of};

const START: u64 = 0xcbf2_9ce4_8422_2325;

const PRIME: u64 = 0x100_0000_01b3;

/// The mark with these bytes after those that were marked.
pub(crate) fn mark_from(start: u64, bytes: &[u8]) -> u64
    ensures { result ≡ mark_from start bytes.now }
{
    let mut mark = start;
    for byte in bytes {
        mark = (mark ^ u64::from(*byte)).wrapping_mul(PRIME);
    }
    mark
}

/// The mark of a session: FNV-1a of 64 bits over all its bytes, description and script. It keeps sessions apart that
/// were mixed up, and none that was made to have the mark of another.
pub fn mark_of(session: &[u8]) -> u64
    ensures { result ≡ mark_of session.now }
{
    mark_from(START, session)
}
