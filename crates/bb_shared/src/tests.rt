//! The store and the control by themselves.

mod control;
mod store;
