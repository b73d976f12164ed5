// The words of a script, with what each command is on and takes.
use crate::names::Sort;
use std::convert::AsStr;

/// A command of a script.
#[derive(Clone, Copy)]
pub(crate) struct Form {
    /// Its first word.
    pub(crate) name: &'static str,
    /// What the first operand names.
    pub(crate) sort: Sort,
    /// What follows.
    pub(crate) operands: &'static str,
}

// The commands, each with its name, what it is on, and its operands.
macro_rules! forms {
    ($($name:literal $sort:ident $operands:literal),+) => {
        [$(Form { name: $name, sort: Sort::$sort, operands: $operands }),+]
    };
}

pub(crate) const FORMS: [Form; 26] = forms! {
    "write" Register "REG V [@MAP]",
    "read" Register "REG [@MAP]",
    "mirror" Register "REG [@MAP]",
    "check" Register "REG [@MAP]",
    "update" Register "REG [@MAP]",
    "field-write" Field "FIELD V [@MAP]",
    "field-read" Field "FIELD [@MAP]",
    "set" Field "FIELD V",
    "show" Register "REG",
    "peek" Register "REG",
    "poke" Register "REG V",
    "back-read" Register "REG",
    "back-check" Register "REG",
    "back-write" Register "REG V",
    "mem-write" Memory "MEM K V [@MAP]",
    "mem-read" Memory "MEM K [@MAP]",
    "mem-check" Memory "MEM K V [@MAP]",
    "mem-peek" Memory "MEM K",
    "mem-poke" Memory "MEM K V",
    "burst-write" Memory "MEM K V.. [@MAP]",
    "burst-read" Memory "MEM K N [@MAP]",
    "reset" Kind "KIND",
    "hw" Field "FIELD V",
    "other-write" Register "REG V [@MAP]",
    "other-read" Register "REG [@MAP]",
    "seq" Block "NAME BLOCK"
};

pub(crate) const SEQUENCES: [&str; 5] = ["hw-reset", "bit-bash", "access", "shared", "mem-walk"];

impl AsStr for Form {
    ghost text = { λ form. form.name.now };

    fn as_str(&self) -> &str {
        self.name
    }
}

/// The command of this name.
pub(crate) fn form_of(name: &str) -> Option<Form> {
    for form in &FORMS {
        if form.name == name {
            return Some(*form);
        }
    }
    None
}
