// The worked rows, the first and the last entry, policies and rights, and what a device with a flaw shows.
use super::calls::{Call, Case, NO_SUCH_ENTRY, Seen, WRITTEN};
use rl_access::{End, Refused};

// The index is written, and the access brings a value in two words, with so many differing fields.
macro_rules! brought {
    ($value:expr, $differ:expr) => {
        (
            Some(End::Done),
            Some(End::Value { value: $value }),
            $differ,
            3,
        )
    };
}

// Two entries are written, and one of them is read.
const TWO_ENTRIES: Case = Case {
    flaws: "",
    index: "ix",
    data: "rw",
    rows: &[
        (Call::Write(1, 0x1234), WRITTEN),
        (Call::Write(2, 0x5678), WRITTEN),
        (Call::Read(1), brought!(0x1234, 0)),
        (Call::Write(4, 0x9abc), NO_SUCH_ENTRY),
    ],
    entries: (
        [0x0000, 0x1234, 0x5678, 0x0000],
        [0x0000, 0x1234, 0x5678, 0x0000],
    ),
};

// The first and the last entry, what is past it, and a value that the data register can't hold.
const AT_THE_ENDS: Case = Case {
    flaws: "",
    index: "ix",
    data: "rw",
    rows: &[
        (Call::Write(3, 0xffff), WRITTEN),
        (Call::Write(0, 0x8001), WRITTEN),
        (Call::Check(3), brought!(0xffff, 0)),
        (Call::Check(0), brought!(0x8001, 0)),
        (Call::Check(u32::MAX), NO_SUCH_ENTRY),
        (
            Call::Write(1, 0x1_0000),
            (
                Some(End::Done),
                Some(End::Refused {
                    why: Refused::TooWide,
                }),
                0,
                1,
            ),
        ),
    ],
    entries: (
        [0x8001, 0x0000, 0x0000, 0xffff],
        [0x8001, 0x0000, 0x0000, 0xffff],
    ),
};

// An entry takes the step of the data register's policy, and the others stay.
const CLEARED_BY_ONE: Case = Case {
    flaws: "",
    index: "ix",
    data: "w1c",
    rows: &[(Call::Write(1, 0x00ff), WRITTEN)],
    entries: (
        [0xffff, 0xff00, 0xffff, 0xffff],
        [0xffff, 0xff00, 0xffff, 0xffff],
    ),
};

const CLEARED_BY_READING: Case = Case {
    flaws: "",
    index: "ix",
    data: "rc",
    rows: &[
        (Call::Read(2), brought!(0xffff, 0)),
        (Call::Check(2), brought!(0, 0)),
    ],
    entries: (
        [0xffff, 0xffff, 0x0000, 0xffff],
        [0xffff, 0xffff, 0x0000, 0xffff],
    ),
};

const REFUSED: Seen = (
    Some(End::Refused {
        why: Refused::NoRight,
    }),
    None,
    0,
    0,
);

// Where the index register may not be written nothing is sent.
const LOCKED: Case = Case {
    flaws: "",
    index: "locked",
    data: "rw",
    rows: &[(Call::Write(1, 0x1234), REFUSED), (Call::Check(0), REFUSED)],
    entries: ([0; 4], [0; 4]),
};

// A check names the field of an entry that isn't as it was written.
const STUCK: Case = Case {
    flaws: "[[flaw]]\nkind = 'stuck'\nfield = 'rw.v'\nbit = 0\nvalue = 1\n",
    index: "ix",
    data: "rw",
    rows: &[
        (Call::Write(1, 0x1234), WRITTEN),
        (Call::Write(2, 0x5679), WRITTEN),
        (Call::Check(1), brought!(0x1235, 1)),
        (Call::Check(2), brought!(0x5679, 0)),
        (Call::Check(3), brought!(0x0001, 1)),
    ],
    entries: (
        [0x0001, 0x1235, 0x5679, 0x0001],
        [0x0000, 0x1235, 0x5679, 0x0001],
    ),
};

// An index register that takes no write: the value goes to the entry that is selected.
const DEAF: Case = Case {
    flaws: "[[flaw]]\nkind = 'deaf'\nitem = 'ix'\n",
    index: "ix",
    data: "rw",
    rows: &[
        (Call::Write(1, 0x1234), WRITTEN),
        (Call::Check(1), brought!(0x1234, 0)),
        (Call::Check(2), brought!(0x1234, 1)),
    ],
    entries: ([0x1234, 0, 0, 0], [0, 0x1234, 0x1234, 0]),
};

const FAILED: Seen = (Some(End::BusError { word: 0 }), None, 0, 1);

// The index register isn't heard.
const UNHEARD: Case = Case {
    flaws: "[[flaw]]\nkind = 'error-range'\nmap = 'bus'\nfrom = 0\nto = 0\n",
    index: "ix",
    data: "rw",
    rows: &[(Call::Write(1, 0x1234), FAILED), (Call::Check(0), FAILED)],
    entries: ([0; 4], [0; 4]),
};

// The fifth item is the first one of the second access to the data register. The index has changed by then.
const FIFTH: Case = Case {
    flaws: "[[flaw]]\nkind = 'error-nth'\nnth = 5\n",
    index: "ix",
    data: "rw",
    rows: &[
        (Call::Write(1, 0x1234), WRITTEN),
        (
            Call::Write(2, 0x5678),
            (Some(End::Done), Some(End::BusError { word: 0 }), 0, 2),
        ),
        (Call::Check(1), brought!(0x1234, 0)),
        (Call::Check(2), brought!(0x0000, 0)),
    ],
    entries: (
        [0x0000, 0x1234, 0x0000, 0x0000],
        [0x0000, 0x1234, 0x0000, 0x0000],
    ),
};

// By a function, so that no proof reads it.

static CASES: [Case; 9] = [
    TWO_ENTRIES,
    AT_THE_ENDS,
    CLEARED_BY_ONE,
    CLEARED_BY_READING,
    LOCKED,
    STUCK,
    DEAF,
    UNHEARD,
    FIFTH,
];

pub(crate) fn cases() -> &'static [Case] {
    &CASES
}
