// What a board's program in C or Rust links: the proved calls, with numbers in place of enums. library/nafthurm.h says what each takes and gives.
#![tactic(auto)]

mod forms;
mod listings;
mod packets;
mod planning;
mod plans;
mod sheets;
