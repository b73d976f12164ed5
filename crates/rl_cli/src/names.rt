// The names that a description has.
use std::alloc::Global;
use toml::{Table, Value};

/// What a name of a description is of.
#[derive(Clone, Copy)]
pub(crate) enum Sort {
    Block,
    File,
    Register,
    Field,
    Memory,
    Map,
    Kind,
}

impl Sort {
    /// The word for one.
    pub(crate) fn name(self) -> &'static str {
        match self {
            Sort::Block => "a block",
            Sort::File => "a register file",
            Sort::Register => "a register",
            Sort::Field => "a field",
            Sort::Memory => "a memory",
            Sort::Map => "a map",
            Sort::Kind => "a reset kind",
        }
    }

    // The array whose rows they are, but for fields and reset kinds.
    fn array(self) -> &'static str {
        match self {
            Sort::Block => "block",
            Sort::File => "file",
            Sort::Register | Sort::Field | Sort::Kind => "reg",
            Sort::Memory => "mem",
            Sort::Map => "map",
        }
    }
}

/// The rows of an array of the description.
pub(crate) fn rows_of<'a>(table: &'a Table, array: &str) -> &'a [Value] {
    match table.get(array) {
        Some(Value::Array(rows)) => rows.as_slice(),
        _ => &[],
    }
}

/// The fields of a register's row.
pub(crate) fn fields_of(reg: &Value) -> &[Value] {
    match reg.get("field") {
        Some(Value::Array(rows)) => rows.as_slice(),
        _ => &[],
    }
}

/// The text under a key of a row.
pub(crate) fn text_at<'a>(row: &'a Value, key: &str) -> Option<&'a str> {
    row.get(key)?.as_str()
}

// Adds the path that these names make.
fn add(alloc: Global, names: &mut Vec<String>, path: &[&str]) -> Option<()> {
    names.push(path.join(alloc, ".").ok()?).ok()
}

// Adds the path of a row: the one that it is of, and its name.
fn add_row(alloc: Global, names: &mut Vec<String>, row: &Value) -> Option<()> {
    let name = text_at(row, "name")?;
    match text_at(row, "of") {
        Some(of) => add(alloc, names, &[of, name]),
        None => add(alloc, names, &[name]),
    }
}

// Adds the paths of a register's fields.
fn add_fields(alloc: Global, names: &mut Vec<String>, reg: &Value) -> Option<()> {
    for field in fields_of(reg) {
        let reg_name = text_at(reg, "name")?;
        let name = text_at(field, "name")?;
        match text_at(reg, "of") {
            Some(of) => add(alloc, names, &[of, reg_name, name])?,
            None => add(alloc, names, &[reg_name, name])?,
        }
    }
    Some(())
}

// Adds the reset kinds of a field.
fn add_kinds(alloc: Global, names: &mut Vec<String>, field: &Value) -> Option<()> {
    if let Some(Value::Table(kinds)) = field.get("reset") {
        for (name, _) in kinds.iter() {
            add(alloc, names, &[name.as_str()])?;
        }
    }
    Some(())
}

// Adds the reset kinds of a register's fields.
fn add_kinds_of(alloc: Global, names: &mut Vec<String>, reg: &Value) -> Option<()> {
    for field in fields_of(reg) {
        add_kinds(alloc, names, field)?;
    }
    Some(())
}

// Adds all names of a sort.
fn add_names(alloc: Global, names: &mut Vec<String>, table: &Table, sort: Sort) -> Option<()> {
    if matches!(sort, Sort::Kind) {
        add(alloc, names, &["HARD"])?;
        add(alloc, names, &["SOFT"])?;
    }
    for row in rows_of(table, sort.array()) {
        match sort {
            Sort::Field => add_fields(alloc, names, row)?,
            Sort::Kind => add_kinds_of(alloc, names, row)?,
            _ => add_row(alloc, names, row)?,
        }
    }
    Some(())
}

// Adds all names of these sorts.
fn add_all(alloc: Global, names: &mut Vec<String>, table: &Table, sorts: &[Sort]) -> Option<()> {
    for sort in sorts {
        add_names(alloc, names, table, *sort)?;
    }
    Some(())
}

/// All names of these sorts. None where a row has no name, or there is no memory.
pub(crate) fn names_of(alloc: Global, table: &Table, sorts: &[Sort]) -> Option<Vec<String>> {
    let mut names = Vec::new(alloc);
    add_all(alloc, &mut names, table, sorts)?;
    Some(names)
}

// Whether a word is one of the names.
fn has(names: &[String], word: &str) -> bool {
    for name in names {
        if name.as_str() == word {
            return true;
        }
    }
    false
}

/// Whether a word is a name of these sorts. None where a row has no name, or there is no memory.
pub(crate) fn is_name(alloc: Global, table: &Table, sorts: &[Sort], word: &str) -> Option<bool> {
    Some(has(&names_of(alloc, table, sorts)?, word))
}
