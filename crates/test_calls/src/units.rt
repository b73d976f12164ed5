// Worked values of definitions, a file for each crate.

mod apb;
mod bus;
mod faults;
mod policy;
mod script;
