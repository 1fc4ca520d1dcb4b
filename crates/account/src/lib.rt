//! What a turn makes of one session.
#![tactic(auto)]

mod account;

pub use account::Account;
