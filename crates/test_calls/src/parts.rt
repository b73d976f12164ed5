// The tests, a file for what each is of, and what they share.

mod crowds;
mod order;
mod running;
mod sessions;
mod soaking;
