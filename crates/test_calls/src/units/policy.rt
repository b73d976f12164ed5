//! The policy table.
use rl_policy::*;

/// For each policy its name and six words. The first four are for the stored bits 1100 and the written bits 1010: the
/// bits after a write, after a write of a spent field, after a read, and those that a read answers. The other two are
/// for the desired bits 1100 and the mirrored bits 1010: the update word and the neutral word.
static TABLE: [(&str, [u64; 6]); 25] = [
    ("RO", [0b1100, 0b1100, 0b1100, 0b1100, 0b1100, 0b0000]),
    ("RW", [0b1010, 0b1010, 0b1100, 0b1100, 0b1100, 0b1010]),
    ("RC", [0b1100, 0b1100, 0b0000, 0b1100, 0b1100, 0b0000]),
    ("RS", [0b1100, 0b1100, 0b1111, 0b1100, 0b1100, 0b0000]),
    ("WRC", [0b1010, 0b1010, 0b0000, 0b1100, 0b1100, 0b1010]),
    ("WRS", [0b1010, 0b1010, 0b1111, 0b1100, 0b1100, 0b1010]),
    ("WC", [0b0000, 0b0000, 0b1100, 0b1100, 0b1100, 0b1010]),
    ("WS", [0b1111, 0b1111, 0b1100, 0b1100, 0b1100, 0b1010]),
    ("WSRC", [0b1111, 0b1111, 0b0000, 0b1100, 0b1100, 0b1010]),
    ("WCRS", [0b0000, 0b0000, 0b1111, 0b1100, 0b1100, 0b1010]),
    ("W1C", [0b0100, 0b0100, 0b1100, 0b1100, 0b0011, 0b0000]),
    ("W1S", [0b1110, 0b1110, 0b1100, 0b1100, 0b1100, 0b0000]),
    ("W1T", [0b0110, 0b0110, 0b1100, 0b1100, 0b0110, 0b0000]),
    ("W0C", [0b1000, 0b1000, 0b1100, 0b1100, 0b1100, 0b1111]),
    ("W0S", [0b1101, 0b1101, 0b1100, 0b1100, 0b0011, 0b1111]),
    ("W0T", [0b1001, 0b1001, 0b1100, 0b1100, 0b1001, 0b1111]),
    ("W1SRC", [0b1110, 0b1110, 0b0000, 0b1100, 0b1100, 0b0000]),
    ("W1CRS", [0b0100, 0b0100, 0b1111, 0b1100, 0b0011, 0b0000]),
    ("W0SRC", [0b1101, 0b1101, 0b0000, 0b1100, 0b0011, 0b1111]),
    ("W0CRS", [0b1000, 0b1000, 0b1111, 0b1100, 0b1100, 0b1111]),
    ("WO", [0b1010, 0b1010, 0b1100, 0b0000, 0b1100, 0b1010]),
    ("WOC", [0b0000, 0b0000, 0b1100, 0b0000, 0b1100, 0b1010]),
    ("WOS", [0b1111, 0b1111, 0b1100, 0b0000, 0b1100, 0b1010]),
    ("W1", [0b1010, 0b1100, 0b1100, 0b1100, 0b1100, 0b1010]),
    ("WO1", [0b1010, 0b1100, 0b1100, 0b0000, 0b1100, 0b1010]),
];

// By a function, so that no proof reads it.
fn table() -> &'static [(&'static str, [u64; 6])] {
    &TABLE
}

fn effects_of(policy: Policy) -> [u64; 6] {
    [
        write_effect(policy, 4, 0b1100, 0b1010, false),
        set_value(policy, 4, 0b1100, 0b1010, true),
        read_effect(policy, 4, 0b1100),
        read_value(policy, 4, 0b1100),
        update_word(policy, 4, 0b1100, 0b1010),
        neutral_word(policy, 4, 0b1010),
    ]
}

// The name and the effects of the policy of a name.
fn named(name: &[u8]) -> Option<(&'static str, [u64; 6])> {
    let policy = Policy::of_name(name)?;
    Some((policy.name(), effects_of(policy)))
}

#[test]
fn effects_are_those_of_the_table(rt: HostRuntime) {
    for (name, effects) in table() {
        assert_eq!(rt; named(name.as_bytes()), Some((*name, *effects)));
    }
}
