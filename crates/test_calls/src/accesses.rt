// The tests, a file for what each is of, and what they share.

mod each;
mod fixture;
mod indexed;
mod regions;
mod stand;
