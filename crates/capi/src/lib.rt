// The C interface, declared in include/tomkhadi.h: each call over numbers, slices and structs of numbers, refusals as their numbers.
#![tactic(auto)]

mod eight;
mod find;
mod jobs;
mod roots;
