// The texts of faults, want of memory among them, which no log has.
use rl_desc::{DescCause, DescFault};
use rl_map::MapCause;
use rl_model::{Array, ModelCause, Spot};
use rl_script::LineFault;
use std::test::Fail;

const SPOT: Spot = Spot {
    array: Array::Map,
    row: 0,
    field: None,
};

static DESC_FAULTS: [(DescFault, &str); 6] = [
    (
        DescFault::Bad {
            cause: DescCause::Text,
            spot: None,
        },
        "Bad",
    ),
    (
        DescFault::Model {
            cause: ModelCause::TooMany,
            spot: SPOT,
        },
        "Model",
    ),
    (
        DescFault::Map {
            cause: MapCause::TooMany,
            spot: SPOT,
        },
        "Map",
    ),
    (DescFault::TooManyFlaws { row: 256 }, "TooManyFlaws"),
    (DescFault::Flaw { row: 0 }, "Flaw"),
    (DescFault::Memory, "Memory"),
];

static LINE_FAULTS: [(LineFault, &str); 9] = [
    (LineFault::TooLong, "TooLong"),
    (LineFault::NotAscii, "NotAscii"),
    (LineFault::NoSuchCommand, "NoSuchCommand"),
    (LineFault::WrongCount, "WrongCount"),
    (LineFault::BadName, "BadName"),
    (LineFault::BadNumber, "BadNumber"),
    (LineFault::NumberTooLarge, "NumberTooLarge"),
    (LineFault::CountOutOfRange, "CountOutOfRange"),
    (LineFault::Memory, "Memory"),
];

// By functions, so that no proof reads them.

fn desc_faults() -> &'static [(DescFault, &'static str)] {
    &DESC_FAULTS
}

fn line_faults() -> &'static [(LineFault, &'static str)] {
    &LINE_FAULTS
}

#[test]
fn faults_of_descriptions_as_texts(rt: HostRuntime) -> Result<(), Fail> {
    for (fault, want) in desc_faults() {
        let got = format!(in rt.alloc(); "{fault}")?;
        assert_eq!(rt; got.as_str(), *want);
    }
    Ok(())
}

#[test]
fn faults_of_lines_as_texts(rt: HostRuntime) -> Result<(), Fail> {
    for (fault, want) in line_faults() {
        let got = format!(in rt.alloc(); "{fault}")?;
        assert_eq!(rt; got.as_str(), *want);
    }
    Ok(())
}
