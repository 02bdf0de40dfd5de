// The public readers and the check for a C program: `include/dralovika.h` says what each gives.
#![tactic(auto)]

mod members;
mod notes;
mod tables;
mod values;
mod whole;
