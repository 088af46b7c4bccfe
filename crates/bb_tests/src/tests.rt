//! One file for each thing that is tested.
mod active_shops;
mod knapsacks;
mod long_proofs;
mod picks;
mod proofs;
mod shops;
mod texts;
mod workers;
